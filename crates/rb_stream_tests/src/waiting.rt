//! Tests of streams whose workers wait for room.

ghost use Rattle.std.specs.Prelude.{◌≡◌};
ghost use Rattle.rb_workers.specs.Opened.{AreOpened};

use super::given::{
    EventSum, OUTPUT_CONTEXT, OUTPUT_TO_SECOND, contexts, counted_live, nothing_live, same,
    two_rings, verified,
};
use rb_source::{ListSource, Source};
use rb_stream::{Late, StreamReport};
use rb_verifier::Verified;
use rb_waiting::{SmallRing, TurnFault, plan_turns, run_waiting_stream};
use rb_workers::Opened;
use std::alloc::Global;
use std::process::Abort;
use std::sync::Wait;
use std::thread::Threads;

// Returns two programs, one for each of two rings.
fn two_programs<A: Abort>(rt: &A, alloc: Global) -> Vec<Verified> {
    let first = verified(rt, alloc, OUTPUT_CONTEXT, 16, 2);
    let second = verified(rt, alloc, OUTPUT_TO_SECOND, 16, 2);
    vec![in alloc; first, second].expect(rt, "memory")
}

// Returns how many records the rings refused, and how many events their sinks got.
fn counted(report: &StreamReport<EventSum>) -> (u64, u64) {
    let mut all: (u64, u64) = (0, 0);
    for ended in &report.rings {
        for tally in &ended.tallies {
            all.0 = all.0.saturating_add(tally.refused);
        }
        all.1 = all.1.saturating_add(ended.sink.events);
    }
    all
}

// Returns the report of a stream whose workers wait for room, and how many contexts their turns had.
fn waited<R: Threads + Wait + Sync + Abort, I: Source + Send>(
    rt: &R,
    alloc: Global,
    rings: Vec<Opened<EventSum>>,
    programs: &[Verified],
    source: &mut I,
) -> (StreamReport<EventSum>, u32)
    requires { AreOpened (λ a. a.position) rings.items }
{
    let Ok(turns) = plan_turns(alloc, rings.as_slice(), programs) else {
        rt.panic("no plan")
    };
    let contexts = turns.contexts;
    let live = nothing_live(rt, alloc);
    let options = counted_live(&live);
    match run_waiting_stream(
        rt,
        alloc,
        rings,
        programs,
        source,
        Late::Block,
        options,
        turns,
    ) {
        Ok(report) => (report, contexts),
        Err(_) => rt.panic("no report"),
    }
}

#[test]
fn nothing_is_refused_over_small_rings(rt: HostRuntime) {
    let alloc = rt.alloc();
    for workers in [1, 8] {
        let programs = two_programs(&rt, alloc);
        let all = contexts(&rt, alloc, 1_000);
        let mut source = ListSource::new(&all, 16);
        let rings = two_rings(&rt, alloc, 4_096, workers, 5);
        let (report, turn) = waited(&rt, alloc, rings, &programs, &mut source);
        same(&rt, &turn, &if workers == 8 { 8 } else { 16 });
        same(&rt, &(report.ran, report.unlogged), &(1_000, 0));
        same(&rt, &counted(&report), &(0, 2_000));
    }
}

#[test]
fn a_ring_that_is_too_small_is_reported(rt: HostRuntime) {
    let alloc = rt.alloc();
    let programs = two_programs(&rt, alloc);
    let rings = two_rings(&rt, alloc, 4_096, 256, 0);
    let small = SmallRing {
        ring: 0,
        least: Some(8_192),
    };
    same(
        &rt,
        &plan_turns(alloc, &rings, &programs).err(),
        &Some(TurnFault::TooSmall(small)),
    );
}

// Returns eight programs for each of two rings.
fn many_programs<A: Abort>(rt: &A, alloc: Global) -> Vec<Verified> {
    let mut all = Vec::new(alloc);
    for _ in 0..8 {
        let first = verified(rt, alloc, OUTPUT_CONTEXT, 16, 2);
        let second = verified(rt, alloc, OUTPUT_TO_SECOND, 16, 2);
        all.push(first).expect(rt, "memory");
        all.push(second).expect(rt, "memory");
    }
    all
}

#[test]
fn nothing_is_refused_to_many_workers(rt: HostRuntime) {
    let alloc = rt.alloc();
    let programs = many_programs(&rt, alloc);
    let all = contexts(&rt, alloc, 1_500);
    let mut source = ListSource::new(&all, 16);
    let rings = two_rings(&rt, alloc, 65_536, 64, 5);
    let (report, turn) = waited(&rt, alloc, rings, &programs, &mut source);
    same(&rt, &(report.ran, report.unlogged, turn), &(1_500, 0, 2));
    same(&rt, &counted(&report), &(0, 24_000));
}
