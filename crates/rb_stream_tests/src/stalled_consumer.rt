//! Streams whose consumer takes nothing more until the source is over: if the worker waits for room, the reader drops
//! contexts, and otherwise the ring refuses records.

ghost use Rattle.std.specs.Prelude.{◌≡◌};
ghost use Rattle.rb_workers.specs.Opened.{AreOpened, IsOpened};

use super::given::{
    OUTPUT_CONTEXT, OneByOne, contexts, counted_live, nothing_live, same, verified,
};
use rb_history::span;
use rb_source::{Filled, Piece, Source, SourceFault};
use rb_stream::{Late, StreamReport, run_stream};
use rb_stream_worker::LiveCounts;
use rb_verifier::Verified;
use rb_waiting::{plan_turns, run_waiting_stream};
use rb_workers::{Chapter, Item, Opened, Sink};
use std::alloc::Global;
use std::process::Abort;
use std::sync::Wait;
use std::sync::atomic::{AtomicBool, Ordering};
use std::thread;
use std::thread::Threads;

// How many contexts the source gives, one in each piece.
const CONTEXTS: u32 = 700;

// How many contexts there is room for before the source is over: two rings of 4,096 bytes full of records of 16 bytes,
// of which the consumer took the first, a queue of 64 pieces, and one context at the worker.
const ROOM: u64 = 577;

/// A source that sets a flag when it is over, and then reads how many contexts were dropped.
#[derive(Drop)]
struct Announced<'a> {
    inner: OneByOne<'a>,
    over: &'a AtomicBool,
    live: &'a LiveCounts,
    dropped: u64,
}

impl<'a> Source for Announced<'a> {
    ghost ctx_len_of = { λ _. 16 };

    ghost gives = { λ _ _ _. Unit {0} };

    ghost is_over = { λ _. Unit {0} };

    ghost fails = { λ _ _. Unit {0} };

    ghost gives_nothing = { λ _. tt };

    ghost gives_both = { λ _ _ _ _ _ _ _. tt };

    fn ctx_len(&self) -> u32 {
        16
    }

    fn fill(&mut self, piece: &mut Piece) -> Result<Filled, SourceFault> {
        let filled = self.inner.fill(piece);
        if filled != Ok(Filled::More) {
            self.over.store(true, Ordering::SeqCst);
            self.dropped = self.live.dropped.load(Ordering::SeqCst);
        }
        filled
    }
}

/// A sink that waits at its first record until a flag is set.
#[derive(Drop)]
struct HeldSink<'a> {
    over: &'a AtomicBool,
    position: u64,
    records: u64,
}

impl<'a> HeldSink<'a> {
    fn new(over: &'a AtomicBool) -> HeldSink<'a>
        ensures { result.position ≡ 0 }
    {
        HeldSink {
            over,
            position: 0,
            records: 0,
        }
    }

    fn wait(&self) {
        for _ in 0..100_000_000 {
            if self.over.load(Ordering::SeqCst) {
                return;
            }
            thread::yield_now();
        }
    }
}

impl Sink for HeldSink<'_> {
    ghost use Rattle.std.specs.Prelude.{◌≡◌, ◌+◌, ℕ};
    ghost use Rattle.rb_workers.specs.Sink.{SinkItem, sink_span};

    ghost position_of = { λ s. s.position };

    ghost takes = { λ old item new. new.position ≡ old.position + sink_span item };

    fn position(&self) -> u64 {
        self.position
    }

    fn record(&mut self, item: &Item<'_>) {
        self.wait();
        self.records = self.records.saturating_add(1);
        match item {
            Item::Event(event) => self.position += span(event.bytes.len() as u32),
            Item::Skip(_, n) => self.position += span(*n),
        }
    }

    fn chapter(&mut self, _: &Chapter) {}

    fn caught_up(&mut self) {}
}

// Returns a ring of 4,096 bytes for one worker.
fn opened<'a, R: Wait + Abort>(rt: &R, alloc: Global, over: &'a AtomicBool) -> Opened<HeldSink<'a>>
    ensures { IsOpened (λ s. s.position) 1 result }
{
    let sink = HeldSink::new(over);
    match Opened::open(rt, alloc, 0, 4_096, 0, 1, 65_536, 4_096, sink) {
        Ok(opened) => opened,
        Err(_) => rt.panic("no ring"),
    }
}

// Returns a list of this ring alone.
fn one_ring<'a, R: Wait + Abort>(
    rt: &R,
    alloc: Global,
    over: &'a AtomicBool,
) -> Vec<Opened<HeldSink<'a>>>
    ensures { AreOpened (λ s. s.position) result.items }
{
    let first = opened(rt, alloc, over);
    match vec![in alloc; first] {
        Ok(rings) => rings,
        Err(_) => rt.panic("no memory"),
    }
}

// Returns the report of a stream whose worker waits for room, and whose reader does not wait.
fn dropping<'a, R: Threads + Wait + Sync + Abort>(
    rt: &R,
    alloc: Global,
    rings: Vec<Opened<HeldSink<'a>>>,
    programs: &[Verified],
    source: &mut Announced<'a>,
) -> StreamReport<HeldSink<'a>>
    requires { AreOpened (λ s. s.position) rings.items }
{
    let Ok(turns) = plan_turns(alloc, &rings, programs) else {
        rt.panic("no plan")
    };
    let options = counted_live(source.live);
    match run_waiting_stream(
        rt,
        alloc,
        rings,
        programs,
        source,
        Late::Drop,
        options,
        turns,
    ) {
        Ok(report) => report,
        Err(_) => rt.panic("no report"),
    }
}

// Returns the report of a stream whose reader waits, and whose worker does not wait for room.
fn refusing<'a, R: Threads + Wait + Sync + Abort>(
    rt: &R,
    alloc: Global,
    rings: Vec<Opened<HeldSink<'a>>>,
    programs: &[Verified],
    source: &mut Announced<'a>,
) -> StreamReport<HeldSink<'a>>
    requires { AreOpened (λ s. s.position) rings.items }
{
    let options = counted_live(source.live);
    match run_stream(rt, alloc, rings, programs, source, Late::Block, options) {
        Ok(report) => report,
        Err(_) => rt.panic("no report"),
    }
}

// Returns how many records the ring of a report refused, and how many its sink got.
fn counted(report: &StreamReport<HeldSink<'_>>) -> (u64, u64) {
    let mut all: (u64, u64) = (0, 0);
    for ended in &report.rings {
        for tally in &ended.tallies {
            all.0 = all.0.saturating_add(tally.refused);
        }
        all.1 = all.1.saturating_add(ended.sink.records);
    }
    all
}

// Returns a source of these contexts, which sets the flag when it is over.
fn source_of<'a>(list: &'a [Vec<u8>], over: &'a AtomicBool, live: &'a LiveCounts) -> Announced<'a> {
    Announced {
        inner: OneByOne { list, next: 0 },
        over,
        live,
        dropped: 0,
    }
}

#[test]
fn late_contexts_are_dropped_and_counted(rt: HostRuntime) {
    let alloc = rt.alloc();
    let program = verified(&rt, alloc, OUTPUT_CONTEXT, 16, 1);
    let programs = vec![in alloc; program].expect(&rt, "memory");
    let all = contexts(&rt, alloc, CONTEXTS);
    let over = AtomicBool::new(false);
    let live = nothing_live(&rt, alloc);
    let mut source = source_of(&all, &over, &live);
    let rings = one_ring(&rt, alloc, &over);
    let report = dropping(&rt, alloc, rings, &programs, &mut source);
    same(
        &rt,
        &(
            report.dropped >= u64::from(CONTEXTS) - ROOM,
            report.ran.saturating_add(report.dropped),
            report.contexts,
        ),
        &(true, u64::from(CONTEXTS), u64::from(CONTEXTS)),
    );
    same(
        &rt,
        &(counted(&report), report.unlogged, source.dropped),
        &((0, report.ran), 0, report.dropped),
    );
}

#[test]
fn records_are_refused_without_waiting(rt: HostRuntime) {
    let alloc = rt.alloc();
    let program = verified(&rt, alloc, OUTPUT_CONTEXT, 16, 1);
    let programs = vec![in alloc; program].expect(&rt, "memory");
    let all = contexts(&rt, alloc, CONTEXTS);
    let over = AtomicBool::new(false);
    let live = nothing_live(&rt, alloc);
    let mut source = source_of(&all, &over, &live);
    let rings = one_ring(&rt, alloc, &over);
    let report = refusing(&rt, alloc, rings, &programs, &mut source);
    let (refused, records) = counted(&report);
    same(
        &rt,
        &(
            refused >= u64::from(CONTEXTS) - ROOM,
            refused.saturating_add(records),
            report.ran,
        ),
        &(true, u64::from(CONTEXTS), u64::from(CONTEXTS)),
    );
}
