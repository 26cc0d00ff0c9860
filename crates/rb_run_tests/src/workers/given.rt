//! Shared by the tests: programs, rings with sinks, and gates.

ghost use Rattle.std.specs.Prelude.{◌≡◌, ◌≤◌, ℕ, length};
ghost use Rattle.rb_workers.specs.Opened.{AreOpened, IsOpened};

use crate::shared;
use rb_history::span;
use rb_verifier::Verified;
use rb_workers::{Chapter, Gate, Item, Job, JobsReport, Opened, Sink, run_jobs};
use std::alloc::Global;
use std::process::Abort;
use std::sync::Wait;
use std::sync::atomic::{AtomicU64, Ordering};
use std::thread;
use std::thread::Threads;

/// Outputs the first eight bytes of the context, and exits with the answer.
pub(crate) const OUTPUT_CONTEXT: &str = "bf12000000000000 1851000000000000 0000000000000000
    b703000008000000 b704000000000000 8500000082000000 9500000000000000";

/// Reserves a record of 24 bytes, and submits 42 and zeros if it was granted.
pub(crate) const SUBMIT_42_LONG: &str =
    "1851000000000000 0000000000000000 b702000018000000 b703000000000000
    8500000083000000 1500040000000000 7a0000002a000000 bf01000000000000
    b702000000000000 8500000084000000 b700000000000000 9500000000000000";

/// Reserves a record of 24 bytes, and submits it filled with the byte ff if it was granted.
pub(crate) const SUBMIT_FULL: &str =
    "1851000000000000 0000000000000000 b702000018000000 b703000000000000
    8500000083000000 1500060000000000 7a000000ffffffff 7a000800ffffffff
    7a001000ffffffff bf01000000000000 b702000000000000 8500000084000000
    b700000000000000 9500000000000000";

/// A sink that counts, for each first byte, the events that begin with it and continue with zeros, all other events,
/// and the chapters.
#[derive(Drop)]
pub(crate) struct Counter {
    pub(crate) position: u64,
    pub(crate) events: [u64; 256],
    pub(crate) others: u64,
    pub(crate) chapters: u64,
}

impl Counter {
    pub(crate) fn new() -> Counter
        ensures { result.position ≡ 0 }
    {
        Counter {
            position: 0,
            events: [0; 256],
            others: 0,
            chapters: 0,
        }
    }

    // Counts an event of these bytes.
    fn count(&mut self, bytes: &[u8])
        ensures { self.new.position ≡ self.old.position }
    {
        if bytes.is_empty() || !are_zeros(&bytes[1..]) {
            self.others = self.others.saturating_add(1);
        } else {
            let at = bytes[0] as usize;
            self.events[at] = self.events[at].saturating_add(1);
        }
    }
}

// Whether all of these are zeros.
fn are_zeros(bytes: &[u8]) -> bool {
    for byte in bytes {
        if *byte != 0 {
            return false;
        }
    }
    true
}

impl Sink for Counter {
    ghost use Rattle.std.specs.Prelude.{◌≡◌, ◌+◌, ℕ};
    ghost use Rattle.rb_workers.specs.Sink.{SinkItem, sink_span};

    ghost position_of = { λ c. c.position };

    ghost takes = { λ old item new. new.position ≡ old.position + sink_span item };

    fn position(&self) -> u64 {
        self.position
    }

    fn record(&mut self, item: &Item<'_>) {
        match item {
            Item::Event(event) => {
                self.count(event.bytes);
                self.position += span(event.bytes.len() as u32);
            }
            Item::Skip(_, n) => {
                self.others = self.others.saturating_add(1);
                self.position += span(*n);
            }
        }
    }

    fn chapter(&mut self, _: &Chapter) {
        self.chapters = self.chapters.saturating_add(1);
    }

    fn caught_up(&mut self) {}
}

/// A gate that blocks no thread. It counts the calls of worker 0 and of the others, adds up the others' numbers of
/// finished calls, and counts the jobs that have ended, with the sum of their numbers at their workers.
#[derive(Drop)]
pub(crate) struct Free {
    pub(crate) first: AtomicU64,
    pub(crate) others: AtomicU64,
    pub(crate) finished: AtomicU64,
    pub(crate) jobs: AtomicU64,
    pub(crate) numbers: AtomicU64,
}

impl Free {
    pub(crate) fn new() -> Free {
        Free {
            first: AtomicU64::new(0),
            others: AtomicU64::new(0),
            finished: AtomicU64::new(0),
            jobs: AtomicU64::new(0),
            numbers: AtomicU64::new(0),
        }
    }
}

impl Gate for Free {
    fn pass(&self, worker: u32, call: u64) {
        if worker == 0 {
            self.first.fetch_add(1, Ordering::SeqCst);
        } else {
            self.others.fetch_add(1, Ordering::SeqCst);
            self.finished.fetch_add(call, Ordering::SeqCst);
        }
    }

    fn after_job(&self, _worker: u32, jobs: u64) {
        self.jobs.fetch_add(1, Ordering::SeqCst);
        self.numbers.fetch_add(jobs, Ordering::SeqCst);
    }
}

/// A gate that blocks worker 1 at its first call until worker 0 has reached its second, and worker 0 there until worker
/// 1 has finished two calls. It counts how often a worker waited too long.
#[derive(Drop)]
pub(crate) struct HoldingGate {
    seen: [AtomicU64; 2],
    pub(crate) late: AtomicU64,
}

impl HoldingGate {
    pub(crate) fn new() -> HoldingGate {
        HoldingGate {
            seen: [AtomicU64::new(0), AtomicU64::new(0)],
            late: AtomicU64::new(0),
        }
    }

    fn wait(&self, whom: usize, until: u64) {
        for _ in 0..1_000_000 {
            if self.seen[whom % 2].load(Ordering::SeqCst) >= until {
                return;
            }
            thread::yield_now();
        }
        self.late.fetch_add(1, Ordering::SeqCst);
    }
}

impl Gate for HoldingGate {
    fn pass(&self, worker: u32, call: u64) {
        if worker > 1 {
            return;
        }
        self.seen[worker as usize % 2].store(call.saturating_add(1), Ordering::SeqCst);
        if worker == 1 && call == 0 {
            self.wait(0, 2);
        }
        if worker == 0 && call == 1 {
            self.wait(1, 3);
        }
    }
}

/// Outputs the first eight bytes of the context to the second ring.
pub(crate) const OUTPUT_TO_SECOND: &str = "bf12000000000000 1851000001000000 0000000000000000
    b703000008000000 b704000000000000 8500000082000000 9500000000000000";

/// Returns a program, verified for a context of 16 bytes and this many rings.
pub(crate) fn verified(rt: &impl Abort, alloc: Global, text: &str, rings: u32) -> Verified
    requires { rings ≤ 16 }
{
    shared::verified(rt, alloc, text, 16, rings)
}

/// A job of this worker.
pub(crate) fn job<'j>(worker: u32, program: &'j Verified, ctx: &'j [u8]) -> Job<'j> {
    Job {
        worker,
        program,
        ctx,
    }
}

/// The commands' default room of a chapter, in entries.
pub(crate) const ROOM: u32 = 65_536;

// Returns a ring of 4,096 bytes for this many workers, whose chapters have this room.
fn opened<R: Wait + Abort>(
    rt: &R,
    alloc: Global,
    tag: u64,
    workers: u32,
    room: u32,
) -> Opened<Counter>
    ensures { IsOpened (λ c. c.position) workers result }
{
    let sink = Counter::new();
    match Opened::open(rt, alloc, tag, 4096, 0, workers, room, room / 16, sink) {
        Ok(opened) => opened,
        Err(_) => rt.panic("no ring"),
    }
}

/// Returns one ring, with tag 0, whose chapters have this room.
pub(crate) fn one_ring<R: Wait + Abort>(
    rt: &R,
    alloc: Global,
    workers: u32,
    room: u32,
) -> Vec<Opened<Counter>>
    ensures { AreOpened (λ c. c.position) result.items }
{
    let first = opened(rt, alloc, 0, workers, room);
    match vec![in alloc; first] {
        Ok(rings) => rings,
        Err(_) => rt.panic("no memory"),
    }
}

/// Returns two rings, with tags 0 and 1.
pub(crate) fn two_rings<R: Wait + Abort>(
    rt: &R,
    alloc: Global,
    workers: u32,
) -> Vec<Opened<Counter>>
    ensures { AreOpened (λ c. c.position) result.items }
{
    let first = opened(rt, alloc, 0, workers, ROOM);
    let second = opened(rt, alloc, 1, workers, ROOM);
    match vec![in alloc; first, second] {
        Ok(rings) => rings,
        Err(_) => rt.panic("no memory"),
    }
}

/// Returns the report of a run that is not refused.
pub(crate) fn report<R: Threads + Wait + Sync + Abort, G: Gate + Sync>(
    rt: &R,
    alloc: Global,
    rings: Vec<Opened<Counter>>,
    jobs: &[Job<'_>],
    gate: &G,
) -> JobsReport<Counter>
    requires { AreOpened (λ c. c.position) rings.items }
{
    match run_jobs(rt, alloc, rings, jobs, gate) {
        Ok(report) => report,
        Err(_) => rt.panic("no report"),
    }
}
