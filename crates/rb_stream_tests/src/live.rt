//! Streams whose counts are read while they run.

ghost use Rattle.std.specs.Prelude.{◌≡◌};
ghost use Rattle.rb_workers.specs.Opened.{AreOpened};

use super::given::{EventSum, OneByOne, contexts, counted_live, same, two_rings};
use super::runs::three_programs;
use rb_source::{Filled, Piece, Source, SourceFault};
use rb_stream::{Late, StreamReport, run_stream};
use rb_stream_worker::{LiveCounts, ResultCounts};
use rb_verifier::Verified;
use rb_workers::Opened;
use std::alloc::Global;
use std::process::Abort;
use std::sync::Wait;
use std::sync::atomic::Ordering;
use std::thread;
use std::thread::Threads;

// How many contexts the source gives, one in each piece.
const CONTEXTS: u32 = 300;

// What is read of a stream, while it runs or at its end.
#[derive(Drop)]
struct SeenCounts {
    run: u64,
    dropped: u64,
    unlogged: u64,
    results: Vec<ResultCounts>,
    // The granted and the refused requests of both rings.
    requests: [(u64, u64); 2],
}

// Reads the counts of a stream while it runs.
fn seen(alloc: Global, live: &LiveCounts) -> Option<SeenCounts> {
    Some(SeenCounts {
        run: live.run(),
        dropped: live.dropped.load(Ordering::SeqCst),
        unlogged: live.unlogged(),
        results: live.results(alloc).ok()?,
        requests: [live.requests(0), live.requests(1)],
    })
}

/// A source that stays open until all of its contexts were run, and then reads the counts.
#[derive(Drop)]
struct HeldOpen<'a> {
    alloc: Global,
    inner: OneByOne<'a>,
    live: &'a LiveCounts,
    seen: Option<SeenCounts>,
}

impl<'a> HeldOpen<'a> {
    // Waits until this many contexts were run.
    fn wait(&self, contexts: u64) {
        for _ in 0..100_000_000 {
            if self.live.run() >= contexts {
                return;
            }
            thread::yield_now();
        }
    }
}

impl<'a> Source for HeldOpen<'a> {
    ghost ctx_len_of = { λ _. 16 };

    ghost gives = { λ _ _ _. Unit {0} };

    ghost is_over = { λ _. Unit {0} };

    ghost fails = { λ _ _. Unit {0} };

    ghost gives_nothing = { λ _. tt };

    ghost gives_both = { λ _ _ _ _ _ _ _. tt };

    fn ctx_len(&self) -> u32 {
        16
    }

    fn fill(&mut self, piece: &mut Piece) -> Result<Filled, SourceFault> {
        let filled = self.inner.fill(piece);
        if filled != Ok(Filled::More) {
            self.wait(self.inner.list.len() as u64);
            self.seen = seen(self.alloc, self.live);
        }
        filled
    }
}

// Returns the report of a stream that is not refused.
fn report<R: Threads + Wait + Sync + Abort>(
    rt: &R,
    alloc: Global,
    rings: Vec<Opened<EventSum>>,
    programs: &[Verified],
    source: &mut HeldOpen<'_>,
) -> StreamReport<EventSum>
    requires { AreOpened (λ a. a.position) rings.items }
{
    let options = counted_live(source.live);
    match run_stream(rt, alloc, rings, programs, source, Late::Block, options) {
        Ok(report) => report,
        Err(_) => rt.panic("no report"),
    }
}

// Returns the granted and the refused requests of a report's ring.
fn requests(report: &StreamReport<EventSum>, ring: usize) -> (u64, u64) {
    match report.rings.get(ring) {
        Some(ended) => {
            let counts = ended.closing.counts();
            (counts.made, counts.refused)
        }
        None => (u64::MAX, u64::MAX),
    }
}

// Ends the test if what was seen differs from the report.
fn same_as_reported(rt: &impl Abort, seen: &Option<SeenCounts>, report: &StreamReport<EventSum>) {
    let Some(seen) = seen else {
        rt.panic("nothing was seen")
    };
    same(
        rt,
        &(seen.run, seen.dropped, seen.unlogged),
        &(report.ran, report.dropped, report.unlogged),
    );
    same(
        rt,
        &seen.requests,
        &[requests(report, 0), requests(report, 1)],
    );
    same(rt, &seen.results.len(), &report.results.len());
    for program in 0..seen.results.len().min(report.results.len()) {
        let (found, wanted) = (&seen.results[program], &report.results[program]);
        same(rt, &found.other, &wanted.other);
        same(rt, &found.below.as_slice(), &wanted.below.as_slice());
    }
}

#[test]
fn counts_are_seen_before_the_end_and_are_those_of_the_report(rt: HostRuntime) {
    let alloc = rt.alloc();
    for workers in [1, 3] {
        let programs = three_programs(&rt, alloc);
        let all = contexts(&rt, alloc, CONTEXTS);
        let live = LiveCounts::new(alloc, workers, programs.len(), 2, 16).expect(&rt, "memory");
        let mut source = HeldOpen {
            alloc,
            inner: OneByOne {
                list: &all,
                next: 0,
            },
            live: &live,
            seen: None,
        };
        let rings = two_rings(&rt, alloc, 1_048_576, workers, 0);
        let report = report(&rt, alloc, rings, &programs, &mut source);
        same(&rt, &report.ran, &u64::from(CONTEXTS));
        same_as_reported(&rt, &source.seen, &report);
        same_as_reported(&rt, &seen(alloc, &live), &report);
    }
}
