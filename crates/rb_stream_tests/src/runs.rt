//! Tests of streams that have a report.

ghost use Rattle.std.specs.Prelude.{◌≡◌};
ghost use Rattle.rb_workers.specs.Opened.{AreOpened};

use super::given::{
    EventSum, FIRST_BYTE, Failing, OUTPUT_CONTEXT, OUTPUT_TO_SECOND, contexts, counted_live,
    nothing_live, same, two_rings, verified,
};
use rb_source::{ListSource, Source, SourceFault};
use rb_stream::{Late, StreamEnd, StreamReport, run_stream};
use rb_stream_worker::ResultCounts;
use rb_verifier::Verified;
use rb_workers::Opened;
use std::alloc::Global;
use std::process::Abort;
use std::sync::Wait;
use std::thread::Threads;

// Returns the report of a stream that is not refused.
fn report<R: Threads + Wait + Sync + Abort, I: Source + Send>(
    rt: &R,
    alloc: Global,
    rings: Vec<Opened<EventSum>>,
    programs: &[Verified],
    source: &mut I,
    late: Late,
) -> StreamReport<EventSum>
    requires { AreOpened (λ a. a.position) rings.items }
{
    let live = nothing_live(rt, alloc);
    let options = counted_live(&live);
    match run_stream(rt, alloc, rings, programs, source, late, options) {
        Ok(report) => report,
        Err(_) => rt.panic("no report"),
    }
}

/// Returns three programs: one for each of two rings, and one that returns the first byte.
pub(crate) fn three_programs<A: Abort>(rt: &A, alloc: Global) -> Vec<Verified> {
    let first = verified(rt, alloc, OUTPUT_CONTEXT, 16, 2);
    let second = verified(rt, alloc, OUTPUT_TO_SECOND, 16, 2);
    let third = verified(rt, alloc, FIRST_BYTE, 16, 2);
    vec![in alloc; first, second, third].expect(rt, "memory")
}

// Returns how often the results 0 and 3, and results other than 0 to 15, were counted for a program.
fn counted<A: Abort>(rt: &A, results: &[ResultCounts], program: usize) -> (u64, u64, u64) {
    match results.get(program) {
        Some(counts) => (at(&counts.below, 0), at(&counts.below, 3), counts.other),
        None => rt.panic("no such program"),
    }
}

fn at(counts: &[u64], index: usize) -> u64 {
    counts.get(index).copied().unwrap_or(u64::MAX)
}

// Returns what the sinks of both rings took: the number of events, the sum of their numbers, and everything else.
fn taken(report: &StreamReport<EventSum>) -> (u64, u64, u64) {
    let mut all: (u64, u64, u64) = (0, 0, 0);
    for ended in &report.rings {
        all.0 = all.0.saturating_add(ended.sink.events);
        all.1 = all.1.saturating_add(ended.sink.sum);
        all.2 = all.2.saturating_add(ended.sink.others);
    }
    all
}

#[test]
fn every_program_runs_once_over_each_context(rt: HostRuntime) {
    for workers in [1, 2, 4] {
        let programs = three_programs(&rt, rt.alloc());
        let all = contexts(&rt, rt.alloc(), 3_000);
        let mut source = ListSource::new(&all, 16);
        let rings = two_rings(&rt, rt.alloc(), 1_048_576, workers, 0);
        let report = report(&rt, rt.alloc(), rings, &programs, &mut source, Late::Block);
        same(
            &rt,
            &(report.contexts, report.dropped, report.ran, report.end),
            &(3_000, 0, 3_000, StreamEnd::Over),
        );
        same(
            &rt,
            &(report.unlogged, taken(&report)),
            &(0, (6_000, 9_003_000, 0)),
        );
        same(&rt, &counted(&rt, &report.results, 0), &(3_000, 0, 0));
        same(&rt, &counted(&rt, &report.results, 1), &(3_000, 0, 0));
        same(&rt, &counted(&rt, &report.results, 2), &(11, 12, 2_809));
    }
}

#[test]
fn a_source_that_fails_ends_the_stream(rt: HostRuntime) {
    let programs = three_programs(&rt, rt.alloc());
    let all = contexts(&rt, rt.alloc(), 2_000);
    let mut source = Failing {
        list: ListSource::new(&all, 16),
    };
    let rings = two_rings(&rt, rt.alloc(), 1_048_576, 2, 0);
    let report = report(&rt, rt.alloc(), rings, &programs, &mut source, Late::Block);
    same(
        &rt,
        &(report.contexts, report.ran, report.end),
        &(2_000, 2_000, StreamEnd::Failed(SourceFault::Read)),
    );
    same(&rt, &taken(&report), &(4_000, 4_002_000, 0));
}

#[test]
fn without_a_program_contexts_are_read_and_nothing_runs(rt: HostRuntime) {
    let all = contexts(&rt, rt.alloc(), 100);
    let mut source = ListSource::new(&all, 16);
    let rings = two_rings(&rt, rt.alloc(), 4_096, 2, 0);
    let programs: Vec<Verified> = Vec::new(rt.alloc());
    let report = report(&rt, rt.alloc(), rings, &programs, &mut source, Late::Block);
    same(
        &rt,
        &(report.contexts, report.ran, report.results.len()),
        &(100, 100, 0),
    );
    same(&rt, &taken(&report), &(0, 0, 0));
}
