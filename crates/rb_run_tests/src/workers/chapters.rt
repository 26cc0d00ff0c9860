//! Runs whose rings hand chapters out: each record arrives once and in order, and the chapters bind to the whole
//! history.

ghost use Rattle.std.specs.Prelude.{◌≡◌, ◌<◌};
ghost use Rattle.rb_workers.specs.Opened.{AreOpened, IsOpened};

use super::given::{Free, OUTPUT_CONTEXT, ROOM, job, verified};
use crate::expected::{same, same_of};
use rb_history::span;
use rb_interp::RunFault;
use rb_shared_ring::Closing;
use rb_verifier::Verified;
use rb_workers::{Chapter, Ended, Event, Item, Job, JobsReport, Opened, Sink, run_jobs};
use std::alloc::Global;
use std::process::Abort;
use std::sync::Wait;
use std::thread::Threads;

/// The number of jobs in each run, and the maximum number of workers.
const JOBS: u32 = 480;

const WORKERS: usize = 16;

/// A sink that keeps each chapter, and checks each record: it directly follows the previous one, its bytes are the
/// number of a job of its worker after that worker's last one, and its serial is the worker's next.
#[derive(Drop)]
struct Binder {
    alloc: Global,
    position: u64,
    workers: u32,
    chapters: Vec<Chapter>,
    // By worker: the serial of its next record, and the first job that may have made it.
    serials: [u64; WORKERS],
    jobs: [u64; WORKERS],
    records: u64,
    // The number of records and chapters that were wrong.
    wrong: u64,
}

impl Binder {
    fn new(alloc: Global, workers: u32) -> Binder
        ensures { result.position ≡ 0 }
    {
        Binder {
            alloc,
            position: 0,
            workers,
            chapters: Vec::new(alloc),
            serials: [0; WORKERS],
            jobs: [0; WORKERS],
            records: 0,
            wrong: 0,
        }
    }

    // Checks an event, and stores what its worker's next one must be.
    fn look(&mut self, event: &Event<'_>)
        ensures { self.new.position ≡ self.old.position }
    {
        if !self.is_next(event) {
            self.wrong = self.wrong.saturating_add(1);
        }
        self.records = self.records.saturating_add(1);
    }

    fn is_next(&mut self, event: &Event<'_>) -> bool
        ensures { self.new.position ≡ self.old.position }
    {
        let at = event.worker as usize;
        if at >= WORKERS || event.worker >= self.workers {
            return false;
        }
        let number = number_of(event.bytes);
        let is_own = number % u64::from(self.workers) == u64::from(event.worker);
        let is_next = event.serial == self.serials[at] && number >= self.jobs[at];
        self.serials[at] = event.serial.saturating_add(1);
        self.jobs[at] = number.saturating_add(1);
        is_own && is_next
    }
}

// Decodes these eight bytes, little-endian. Returns the largest number if they are not eight, or not the number of a
// job.
fn number_of(bytes: &[u8]) -> u64 {
    if bytes.len() != 8 {
        return u64::MAX;
    }
    for byte in &bytes[2..] {
        if *byte != 0 {
            return u64::MAX;
        }
    }
    u64::from(bytes[0]) + 256 * u64::from(bytes[1])
}

impl Sink for Binder {
    ghost use Rattle.std.specs.Prelude.{◌≡◌, ◌+◌, ℕ};
    ghost use Rattle.rb_workers.specs.Sink.{SinkItem, sink_span};

    ghost position_of = { λ c. c.position };

    ghost takes = { λ old item new. new.position ≡ old.position + sink_span item };

    fn position(&self) -> u64 {
        self.position
    }

    fn record(&mut self, item: &Item<'_>) {
        match item {
            Item::Event(event) => {
                self.look(event);
                self.position += span(event.bytes.len() as u32);
            }
            Item::Skip(_, n) => {
                self.wrong = self.wrong.saturating_add(1);
                self.position += span(*n);
            }
        }
    }

    fn chapter(&mut self, chapter: &Chapter) {
        let is_kept = match chapter.try_clone(self.alloc) {
            Ok(copy) => self.chapters.push(copy).is_ok(),
            Err(_) => false,
        };
        if !is_kept {
            self.wrong = self.wrong.saturating_add(1);
        }
    }

    fn caught_up(&mut self) {}
}

// Returns a ring for this many workers, whose chapters have this room.
fn opened<R: Wait + Abort>(rt: &R, alloc: Global, room: u32, workers: u32) -> Opened<Binder>
    ensures { IsOpened (λ c. c.position) workers result }
{
    let sink = Binder::new(alloc, workers);
    match Opened::open(rt, alloc, 0, 4096, 0, workers, room, room / 16, sink) {
        Ok(opened) => opened,
        Err(_) => rt.panic("no ring"),
    }
}

// Returns a list with only this ring.
fn one_ring<R: Wait + Abort>(rt: &R, alloc: Global, room: u32, workers: u32) -> Vec<Opened<Binder>>
    ensures { AreOpened (λ c. c.position) result.items }
{
    let first = opened(rt, alloc, room, workers);
    match vec![in alloc; first] {
        Ok(rings) => rings,
        Err(_) => rt.panic("no memory"),
    }
}

// Returns a context for each job, which begins with its number.
fn contexts<A: Abort>(rt: &A, alloc: Global) -> Vec<[u8; 16]> {
    let mut contexts = Vec::new(alloc);
    for n in 0..JOBS {
        let mut context = [0; 16];
        context[0] = (n % 256) as u8;
        context[1] = (n / 256 % 256) as u8;
        contexts.push(context).expect(rt, "memory");
    }
    contexts
}

// Returns a job for each context; this many workers take turns.
fn jobs_in_turn<'j, A: Abort>(
    rt: &A,
    alloc: Global,
    program: &'j Verified,
    contexts: &'j [[u8; 16]],
    workers: u32,
) -> Vec<Job<'j>>
    requires { 0 < workers }
{
    let mut jobs = Vec::new(alloc);
    let mut number: u32 = 0;
    for context in contexts {
        jobs.push(job(number % workers, program, context))
            .expect(rt, "memory");
        number = number.saturating_add(1);
    }
    jobs
}

// Returns the closed ring of a run of all jobs, with the answers, and the number of unlogged failures.
fn run<R: Threads + Wait + Sync + Abort>(
    rt: &R,
    alloc: Global,
    room: u32,
    workers: u32,
) -> JobsReport<Binder>
    requires { 0 < workers }
{
    let program = verified(rt, alloc, OUTPUT_CONTEXT, 1);
    let contexts = contexts(rt, alloc);
    let jobs = jobs_in_turn(rt, alloc, &program, &contexts, workers);
    match run_jobs(
        rt,
        alloc,
        one_ring(rt, alloc, room, workers),
        &jobs,
        &Free::new(),
    ) {
        Ok(report) => report,
        Err(_) => rt.panic("no report"),
    }
}

// Returns how many of the answers are 0, which are records that were output.
fn count_sent(answers: &[Result<u64, RunFault>]) -> u64 {
    let mut sent: u64 = 0;
    for answer in answers {
        if matches!(answer, Ok(0)) {
            sent = sent.saturating_add(1);
        }
    }
    sent
}

// Returns the number of refusals in the ring's history.
fn count_refused(ended: &Ended<Binder>) -> u64 {
    let mut refused: u64 = 0;
    for tally in &ended.tallies {
        refused = refused.saturating_add(tally.refused);
    }
    refused
}

// Ends the test unless the chapters and the last one bind to a history with this many entries.
fn is_bound<A: Abort>(
    rt: &A,
    alloc: Global,
    closing: Closing,
    chapters: Vec<Chapter>,
    entries: u64,
) {
    same(rt, &closing.chapter().number(), &(chapters.len() as u64));
    match closing.bind(alloc, chapters) {
        Ok(whole) => same(rt, &(whole.history().len() as u64), &entries),
        Err(_) => rt.panic("not bound"),
    }
}

// Ends the test unless the ring's sink received each record that was sent, and the ring counted the same.
fn has_all<A: Abort>(rt: &A, ended: &Ended<Binder>, sent: u64, refused: u64) {
    let counts = ended.closing.counts();
    same(
        rt,
        &[
            ended.sink.wrong,
            ended.sink.records,
            counts.made,
            counts.consumed,
            counts.refused,
            counts.discarded,
            counts.waiting,
            counts.busy,
        ],
        &[0, sent, sent, sent, refused, 0, 0, 0],
    );
}

// Checks what the ring's sink received. Returns how many chapters were handed out, and how many records were refused.
fn each_came_once<A: Abort>(rt: &A, alloc: Global, ended: Ended<Binder>, sent: u64) -> (u64, u64) {
    let refused = count_refused(&ended);
    has_all(rt, &ended, sent, refused);
    let chapters = ended.closing.chapter().number();
    let entries = sent.saturating_mul(3).saturating_add(refused);
    is_bound(rt, alloc, ended.closing, ended.sink.chapters, entries);
    (chapters, refused)
}

// Runs all jobs, and checks what the ring's sink received. Returns how many chapters were handed out, and how many
// failures are unlogged.
fn each_record_comes_once<R: Threads + Wait + Sync + Abort>(
    rt: &R,
    alloc: Global,
    room: u32,
    workers: u32,
) -> (u64, u128)
    requires { 0 < workers }
{
    let mut report = run(rt, alloc, room, workers);
    let sent = count_sent(&report.answers);
    let unlogged = report.unlogged;
    let ended = report.rings.pop().expect(rt, "a ring");
    let (chapters, refused) = each_came_once(rt, alloc, ended, sent);
    let jobs = u128::from(sent.saturating_add(refused)).saturating_add(unlogged);
    same(rt, &jobs, &u128::from(JOBS));
    (chapters, unlogged)
}

#[test]
fn records_and_chapters_come_at_each_room(rt: HostRuntime) {
    for room in &[8, 64] {
        for workers in &[1, 4, 16] {
            let (chapters, _) = each_record_comes_once(&rt, rt.alloc(), *room, *workers);
            same_of(&rt, &(chapters > 0), &true, &(room, workers));
        }
    }
}

#[test]
fn a_wide_chapter_is_never_full(rt: HostRuntime) {
    for workers in &[1, 4, 16] {
        let (_, unlogged) = each_record_comes_once(&rt, rt.alloc(), ROOM, *workers);
        same_of(&rt, &unlogged, &0, workers);
    }
}
