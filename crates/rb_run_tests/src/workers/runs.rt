//! Runs that return a report.

ghost use Rattle.std.specs.Prelude.{◌<◌};
ghost use Rattle.rb_workers.specs.Opened.{AreOpened};

use super::given::{
    Counter, Free, HoldingGate, OUTPUT_CONTEXT, OUTPUT_TO_SECOND, ROOM, job, one_ring, report,
    two_rings, verified,
};
use crate::expected::{same, same_of};
use crate::shared::SUBMIT_42;
use rb_interp::RunFault;
use rb_verifier::Verified;
use rb_workers::{Ended, Gate, Job, JobsReport, Opened};
use std::alloc::Global;
use std::process::Abort;
use std::sync::Wait;
use std::sync::atomic::Ordering;
use std::thread::Threads;

/// A context of 16 bytes.
const CONTEXT: [u8; 16] = [1, 0, 0, 0, 0, 0, 0, 0, 9, 10, 11, 12, 13, 14, 15, 16];

// Returns the sums of the ring's tallies: made, refused, submitted and discarded.
fn added(ended: &Ended<Counter>) -> (u64, u64, u64, u64) {
    let mut sums: (u64, u64, u64, u64) = (0, 0, 0, 0);
    for tally in &ended.tallies {
        sums.0 = sums.0.saturating_add(tally.made);
        sums.1 = sums.1.saturating_add(tally.refused);
        sums.2 = sums.2.saturating_add(tally.submitted);
        sums.3 = sums.3.saturating_add(tally.discarded);
    }
    sums
}

// Ends the test unless the ring has taken all that was made, and its sink received this many events that begin with 42
// and no others.
fn is_taken<A: Abort>(rt: &A, ended: &Ended<Counter>, made: u64, events: u64) {
    let counts = ended.closing.counts();
    same(
        rt,
        &[
            counts.made,
            counts.consumed,
            counts.discarded,
            counts.waiting,
            counts.busy,
        ],
        &[made, made, 0, 0, 0],
    );
    same(
        rt,
        &[
            ended.sink.events[42],
            ended.sink.others,
            ended.closing.consumer(),
        ],
        &[events, 0, ended.sink.position],
    );
}

fn first_ring<'r, A: Abort>(rt: &A, report: &'r JobsReport<Counter>) -> &'r Ended<Counter> {
    match report.rings.first() {
        Some(ended) => ended,
        None => rt.panic("no ring"),
    }
}

// Returns this many jobs with this program and context; this many workers take turns.
fn jobs_in_turn<'j, A: Abort>(
    rt: &A,
    alloc: Global,
    program: &'j Verified,
    count: u32,
    workers: u32,
) -> Vec<Job<'j>>
    requires { 0 < workers }
{
    let mut jobs = Vec::new(alloc);
    for n in 0..count {
        jobs.push(job(n % workers, program, &CONTEXT))
            .expect(rt, "memory");
    }
    jobs
}

// Returns the report of this many jobs with this program; this many workers take turns.
fn report_of<R: Threads + Wait + Sync + Abort, G: Gate + Sync>(
    rt: &R,
    alloc: Global,
    rings: Vec<Opened<Counter>>,
    count: u32,
    workers: u32,
    gate: &G,
) -> JobsReport<Counter>
    requires rings { AreOpened (λ c. c.position) rings.items }
    requires workers { 0 < workers }
{
    let program = verified(rt, alloc, SUBMIT_42, 1);
    let jobs = jobs_in_turn(rt, alloc, &program, count, workers);
    report(rt, alloc, rings, &jobs, gate)
}

// Ends the test if an answer is not 0, or a worker was not granted or refused a record a hundred times in all, or did
// not submit each record that it made.
fn all_submitted<A: Abort>(rt: &A, report: &JobsReport<Counter>) {
    for answer in &report.answers {
        same(rt, answer, &Ok(0));
    }
    for tally in &first_ring(rt, report).tallies {
        let often = tally.made.checked_add(tally.refused);
        same(
            rt,
            &(often, tally.submitted, tally.discarded),
            &(Some(100), tally.made, 0),
        );
    }
}

#[test]
fn four_workers_submit_a_hundred_times_each(rt: HostRuntime) {
    let rings = one_ring(&rt, rt.alloc(), 4, ROOM);
    let report = report_of(&rt, rt.alloc(), rings, 400, 4, &Free::new());
    same(
        &rt,
        &(report.strays, report.unlogged, report.answers.len()),
        &(0, 0, 400),
    );
    all_submitted(&rt, &report);
    let ended = first_ring(&rt, &report);
    let made = added(ended).0;
    is_taken(&rt, ended, made, made);
    drop(report);
}

// Runs two workers, one of which holds its record while the other submits one, with chapters of this room.
fn hold_a_reservation<R: Threads + Wait + Sync + Abort>(rt: &R, alloc: Global, room: u32) {
    let gate = HoldingGate::new();
    let rings = one_ring(rt, alloc, 2, room);
    let report = report_of(rt, alloc, rings, 2, 2, &gate);
    same(
        rt,
        &(
            gate.late.load(Ordering::SeqCst),
            report.strays,
            report.unlogged,
        ),
        &(0, 0, 0),
    );
    let ended = first_ring(rt, &report);
    same(rt, &added(ended), &(2, 0, 2, 0));
    is_taken(rt, ended, 2, 2);
    drop(report);
}

#[test]
fn held_reservation(rt: HostRuntime) {
    for room in &[64, ROOM] {
        hold_a_reservation(&rt, rt.alloc(), *room);
    }
}

// Returns thirty jobs of three workers. Every fifth has a context that is too short.
fn jobs_with_short_ones<'j, A: Abort>(
    rt: &A,
    alloc: Global,
    program: &'j Verified,
) -> Vec<Job<'j>> {
    let mut jobs = Vec::new(alloc);
    for n in 0..30 {
        let ctx = if n % 5 == 0 {
            CONTEXT.split_at(3).0
        } else {
            CONTEXT.as_slice()
        };
        jobs.push(job(n % 3, program, ctx)).expect(rt, "memory");
    }
    jobs
}

// Returns the report of those jobs.
fn report_with_short_ones<R: Threads + Wait + Sync + Abort>(
    rt: &R,
    alloc: Global,
) -> JobsReport<Counter> {
    let program = verified(rt, alloc, SUBMIT_42, 1);
    let jobs = jobs_with_short_ones(rt, alloc, &program);
    report(rt, alloc, one_ring(rt, alloc, 3, ROOM), &jobs, &Free::new())
}

#[test]
fn answers_stand_in_the_order_of_the_jobs(rt: HostRuntime) {
    let report = report_with_short_ones(&rt, rt.alloc());
    for n in 0..30 {
        let wanted = if n % 5 == 0 {
            Err(RunFault::ContextLength)
        } else {
            Ok(0)
        };
        same_of(&rt, &report.answers.get(n).copied(), &Some(wanted), &n);
    }
    same(&rt, &(report.strays, report.answers.len()), &(0, 30));
    drop(report);
}

// Returns how often worker 0 and the others called the gate, and the sum of the others' numbers of finished calls.
fn told_by(gate: &Free) -> (u64, u64, u64) {
    (
        gate.first.load(Ordering::SeqCst),
        gate.others.load(Ordering::SeqCst),
        gate.finished.load(Ordering::SeqCst),
    )
}

#[test]
fn a_worker_without_jobs_comes_to_the_gate_once(rt: HostRuntime) {
    let gate = Free::new();
    let rings = one_ring(&rt, rt.alloc(), 4, ROOM);
    let strays = report_of(&rt, rt.alloc(), rings, 2, 1, &gate).strays;
    same(&rt, &(strays, told_by(&gate)), &(0, (5, 3, 0)));
}

#[test]
fn a_worker_comes_to_the_gate_behind_each_job(rt: HostRuntime) {
    let gate = Free::new();
    let rings = one_ring(&rt, rt.alloc(), 3, ROOM);
    let strays = report_of(&rt, rt.alloc(), rings, 30, 3, &gate).strays;
    let told = (
        gate.jobs.load(Ordering::SeqCst),
        gate.numbers.load(Ordering::SeqCst),
    );
    same(&rt, &(strays, told), &(0, (30, 3 * 55)));
}

// Returns a hundred contexts, which begin with their numbers.
fn contexts<A: Abort>(rt: &A, alloc: Global) -> Vec<[u8; 16]> {
    let mut contexts = Vec::new(alloc);
    for n in 0..100 {
        let mut context = [0; 16];
        context[0] = n;
        contexts.push(context).expect(rt, "memory");
    }
    contexts
}

// Returns a job for each context. Every third runs the first program, the others the second.
fn jobs_of_two<'j, A: Abort>(
    rt: &A,
    alloc: Global,
    first: &'j Verified,
    second: &'j Verified,
    contexts: &'j [[u8; 16]],
) -> Vec<Job<'j>> {
    let mut jobs = Vec::new(alloc);
    for (n, context) in contexts.iter().enumerate() {
        let program = if n % 3 == 0 { first } else { second };
        jobs.push(job((n % 4) as u32, program, context))
            .expect(rt, "memory");
    }
    jobs
}

// Ends the test unless the ring's sink received each of its own contexts once, and no other.
fn has_each_once<A: Abort>(rt: &A, ended: &Ended<Counter>, at: usize) {
    for n in 0..100 {
        let wanted = u64::from((n % 3 == 0) == (at == 0));
        same_of(rt, &ended.sink.events[n], &wanted, &(at, n));
    }
    same(rt, &ended.sink.others, &0);
}

// Returns the report of a job for each context, over two rings.
fn report_of_two<R: Threads + Wait + Sync + Abort>(rt: &R, alloc: Global) -> JobsReport<Counter> {
    let first = verified(rt, alloc, OUTPUT_CONTEXT, 2);
    let second = verified(rt, alloc, OUTPUT_TO_SECOND, 2);
    let contexts = contexts(rt, alloc);
    let jobs = jobs_of_two(rt, alloc, &first, &second, &contexts);
    report(rt, alloc, two_rings(rt, alloc, 4), &jobs, &Free::new())
}

#[test]
fn two_rings_have_each_context_once(rt: HostRuntime) {
    let report = report_of_two(&rt, rt.alloc());
    same(
        &rt,
        &(report.strays, report.unlogged, report.rings.len()),
        &(0, 0, 2),
    );
    for (at, ended) in report.rings.iter().enumerate() {
        has_each_once(&rt, ended, at);
    }
    drop(report);
}

#[test]
fn no_ring_and_no_job_give_an_empty_report(rt: HostRuntime) {
    let gate = Free::new();
    let none: Vec<Opened<Counter>> = Vec::new(rt.alloc());
    let report = report(&rt, rt.alloc(), none, &[], &gate);
    let numbers = (report.strays, report.unlogged);
    let lengths = (report.rings.len(), report.answers.len());
    let came = gate.first.load(Ordering::SeqCst);
    same(&rt, &(numbers, lengths, came), &((0, 0), (0, 0), 0));
    drop(report);
}
