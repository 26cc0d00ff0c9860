//! Reuse of sheets.

use super::given::{
    Counter, Free, ROOM, SUBMIT_42_LONG, SUBMIT_FULL, job, one_ring, report, verified,
};
use crate::expected::same;
use crate::shared::len_of;
use crossbeam_queue::ArrayQueue;
use rb_jobs::Stock;
use rb_lend::Sheet;
use rb_verifier::Verified;
use rb_workers::used_sheets::{PLACES, UsedSheets};
use rb_workers::{Ended, Job, JobsReport};
use std::alloc::Global;
use std::process::Abort;
use std::sync::Wait;
use std::thread::Threads;

const CONTEXT: [u8; 16] = [0; 16];

fn sheet<A: Abort>(rt: &A, alloc: Global, n: u32) -> Sheet {
    Sheet::new(alloc, n).expect(rt, "memory")
}

// Returns how many of 513 sheets of 24 bytes a stock keeps.
fn count_kept(rt: &impl Abort, alloc: Global, stock: &impl Stock) -> u32 {
    let mut kept = 0u32;
    for _ in 0..513 {
        if stock.put(sheet(rt, alloc, 24)).is_none() {
            kept = kept.saturating_add(1);
        }
    }
    kept
}

// Returns how many of 513 requests to a stock return a sheet.
fn count_had(stock: &impl Stock) -> u32 {
    let mut had = 0u32;
    for _ in 0..513 {
        if stock.used().is_some() {
            had = had.saturating_add(1);
        }
    }
    had
}

#[test]
fn as_many_sheets_wait_as_there_are_places(rt: HostRuntime) {
    let sheets = ArrayQueue::new(rt.alloc(), PLACES).expect(&rt, "memory");
    let stock = UsedSheets {
        rt: &rt,
        sheets: &sheets,
    };
    let short = len_of(stock.put(sheet(&rt, rt.alloc(), 16)));
    let kept = count_kept(&rt, rt.alloc(), &stock);
    same(
        &rt,
        &(short, kept, count_had(&stock)),
        &(Some(16), 512, 512),
    );
}

// Returns two hundred jobs of one worker, which alternate between the two programs.
fn jobs_in_turn<'j, A: Abort>(
    rt: &A,
    alloc: Global,
    first: &'j Verified,
    second: &'j Verified,
) -> Vec<Job<'j>> {
    let mut jobs = Vec::new(alloc);
    for n in 0..200 {
        let program = if n % 2 == 0 { first } else { second };
        jobs.push(job(0, program, &CONTEXT)).expect(rt, "memory");
    }
    jobs
}

// Returns the report of the alternating jobs.
fn report_in_turn<R: Threads + Wait + Sync + Abort>(rt: &R, alloc: Global) -> JobsReport<Counter> {
    let full = verified(rt, alloc, SUBMIT_FULL, 1);
    let long = verified(rt, alloc, SUBMIT_42_LONG, 1);
    let jobs = jobs_in_turn(rt, alloc, &full, &long);
    report(rt, alloc, one_ring(rt, alloc, 1, ROOM), &jobs, &Free::new())
}

// Ends the test if an event of the ring is of neither program, or there are more events of a program than its jobs.
fn has_both<A: Abort>(rt: &A, ended: &Ended<Counter>) {
    let counts = ended.closing.counts();
    let events = (ended.sink.events[42], ended.sink.others);
    let seen = events.0.saturating_add(events.1);
    same(rt, &(counts.made, counts.consumed), &(seen, seen));
    same(rt, &(events.0 <= 100, events.1 <= 100), &(true, true));
}

#[test]
fn nothing_of_a_used_sheet_is_seen(rt: HostRuntime) {
    let report = report_in_turn(&rt, rt.alloc());
    same(&rt, &(report.strays, report.unlogged), &(0, 0));
    for ended in &report.rings {
        has_both(&rt, ended);
    }
    drop(report);
}
