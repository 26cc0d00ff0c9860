//! A consumer that is late by several batches when its worker ends, and when its keeper looks at the ring's chapter.

ghost use Rattle.std.specs.Prelude.{◌≡◌};
ghost use Rattle.rb_workers.specs.Opened.{AreOpened, IsOpened};

use super::given::{job, verified};
use crate::expected::same;
use crate::shared::SUBMIT_42;
use rb_history::span;
use rb_verifier::Verified;
use rb_workers::{Chapter, Ended, Gate, Item, Job, Opened, Sink, run_jobs};
use std::alloc::Global;
use std::process::Abort;
use std::sync::Wait;
use std::sync::atomic::{AtomicU64, Ordering};
use std::thread;
use std::thread::Threads;

const CONTEXT: [u8; 16] = [0; 16];

// How many records of eight bytes the worker submits. A ring of 65,536 bytes has room for all of them, and so has a
// chapter of 8,192 entries: each record takes three entries. With this margin the chapter is due once 2,560 records
// are made.
const RECORDS: u32 = 2_600;

const ROOM: u32 = 8_192;

const MARGIN: u32 = 512;

// How many records a batch has at most.
const BATCH: u64 = 512;

/// Reserves a record that has no room in a ring of 65,536 bytes, and submits it if it is granted.
const TOO_LONG: &str = "1851000000000000 0000000000000000 b7020000f8ff0000 b703000000000000
    8500000083000000 1500040000000000 7a0000002a000000 bf01000000000000
    b702000000000000 8500000084000000 b700000000000000 9500000000000000";

/// Makes the worker and the consumer wait for each other. The worker waits before its first helper call until the
/// consumer found the ring empty once, and after its second call until the consumer took a record. The consumer waits
/// at its first record until all jobs have ended.
#[derive(Drop)]
struct Meeting {
    jobs: u64,
    idle: AtomicU64,
    taken: AtomicU64,
    ended: AtomicU64,
    // How often somebody waited too long.
    late: AtomicU64,
    // Whether the worker waits for a record to be taken.
    has_records: bool,
}

impl Meeting {
    fn new(jobs: u32, has_records: bool) -> Meeting {
        Meeting {
            jobs: u64::from(jobs),
            idle: AtomicU64::new(0),
            taken: AtomicU64::new(0),
            ended: AtomicU64::new(0),
            late: AtomicU64::new(0),
            has_records,
        }
    }

    fn wait(&self, number: &AtomicU64, until: u64) {
        for _ in 0..10_000_000 {
            if number.load(Ordering::SeqCst) >= until {
                return;
            }
            thread::yield_now();
        }
        self.late.fetch_add(1, Ordering::SeqCst);
    }
}

impl Gate for Meeting {
    fn pass(&self, _worker: u32, call: u64) {
        if call == 0 {
            self.wait(&self.idle, 1);
        }
        if call == 2 && self.has_records {
            self.wait(&self.taken, 1);
        }
    }

    fn after_job(&self, _worker: u32, _jobs: u64) {
        self.ended.fetch_add(1, Ordering::SeqCst);
    }
}

/// A sink that counts records, chapters, and the records before the first chapter.
#[derive(Drop)]
struct LateSink<'g> {
    meeting: &'g Meeting,
    position: u64,
    records: u64,
    chapters: u64,
    before_chapter: u64,
}

impl<'g> LateSink<'g> {
    fn new(meeting: &'g Meeting) -> LateSink<'g>
        ensures { result.position ≡ 0 }
    {
        LateSink {
            meeting,
            position: 0,
            records: 0,
            chapters: 0,
            before_chapter: 0,
        }
    }
}

impl Sink for LateSink<'_> {
    ghost use Rattle.std.specs.Prelude.{◌≡◌, ◌+◌, ℕ};
    ghost use Rattle.rb_workers.specs.Sink.{SinkItem, sink_span};

    ghost position_of = { λ s. s.position };

    ghost takes = { λ old item new. new.position ≡ old.position + sink_span item };

    fn position(&self) -> u64 {
        self.position
    }

    fn record(&mut self, item: &Item<'_>) {
        if self.records == 0 {
            self.meeting.taken.store(1, Ordering::SeqCst);
            self.meeting.wait(&self.meeting.ended, self.meeting.jobs);
        }
        self.records = self.records.saturating_add(1);
        match item {
            Item::Event(event) => self.position += span(event.bytes.len() as u32),
            Item::Skip(_, n) => self.position += span(*n),
        }
    }

    fn chapter(&mut self, _: &Chapter) {
        if self.chapters == 0 {
            self.before_chapter = self.records;
        }
        self.chapters = self.chapters.saturating_add(1);
    }

    fn caught_up(&mut self) {
        self.meeting.idle.store(1, Ordering::SeqCst);
    }
}

// A ring of 65,536 bytes for one worker.
fn opened<'g, R: Wait + Abort>(
    rt: &R,
    alloc: Global,
    room: u32,
    margin: u32,
    meeting: &'g Meeting,
) -> Opened<LateSink<'g>>
    ensures { IsOpened (λ s. s.position) 1 result }
{
    let sink = LateSink::new(meeting);
    match Opened::open(rt, alloc, 0, 65_536, 0, 1, room, margin, sink) {
        Ok(opened) => opened,
        Err(_) => rt.panic("no ring"),
    }
}

// A list of this ring alone.
fn one_ring<'g, R: Wait + Abort>(
    rt: &R,
    alloc: Global,
    room: u32,
    margin: u32,
    meeting: &'g Meeting,
) -> Vec<Opened<LateSink<'g>>>
    ensures { AreOpened (λ s. s.position) result.items }
{
    let first = opened(rt, alloc, room, margin, meeting);
    match vec![in alloc; first] {
        Ok(rings) => rings,
        Err(_) => rt.panic("no memory"),
    }
}

fn jobs_of<'j, A: Abort>(rt: &A, alloc: Global, program: &'j Verified, count: u32) -> Vec<Job<'j>> {
    let mut jobs = Vec::new(alloc);
    for _ in 0..count {
        jobs.push(job(0, program, &CONTEXT)).expect(rt, "memory");
    }
    jobs
}

// Returns the ring after a run of `count` jobs of a program.
fn run<'g, R: Threads + Wait + Sync + Abort>(
    rt: &R,
    alloc: Global,
    text: &str,
    count: u32,
    room: u32,
    margin: u32,
    meeting: &'g Meeting,
) -> Ended<LateSink<'g>> {
    let program = verified(rt, alloc, text, 1);
    let jobs = jobs_of(rt, alloc, &program, count);
    let rings = one_ring(rt, alloc, room, margin, meeting);
    let Ok(mut report) = run_jobs(rt, alloc, rings, &jobs, meeting) else {
        rt.panic("no report")
    };
    report.rings.pop().expect(rt, "a ring")
}

#[test]
fn a_late_consumer_takes_the_rest_and_its_keeper_looks_between_batches(rt: HostRuntime) {
    let meeting = Meeting::new(RECORDS, true);
    let ended = run(&rt, rt.alloc(), SUBMIT_42, RECORDS, ROOM, MARGIN, &meeting);
    let counts = ended.closing.counts();
    same(
        &rt,
        &[counts.made, counts.consumed, counts.waiting, counts.busy],
        &[u64::from(RECORDS), u64::from(RECORDS), 0, 0],
    );
    // The first batch has the one record that the worker made until then.
    same(
        &rt,
        &[
            ended.sink.records,
            ended.sink.chapters,
            ended.sink.before_chapter,
            meeting.late.load(Ordering::SeqCst),
        ],
        &[u64::from(RECORDS), 1, 1 + BATCH, 0],
    );
    drop(ended);
}

#[test]
fn a_keeper_looks_if_its_consumer_found_nothing(rt: HostRuntime) {
    // Each refusal takes one of a chapter's 32 entries, and no record is ever taken. The chapter is due from the 22nd
    // refusal on.
    let meeting = Meeting::new(28, false);
    let ended = run(&rt, rt.alloc(), TOO_LONG, 28, 32, 8, &meeting);
    same(
        &rt,
        &[
            ended.sink.records,
            ended.sink.chapters,
            meeting.late.load(Ordering::SeqCst),
        ],
        &[0, 1, 0],
    );
    drop(ended);
}
