//! Worked jobs at one ring of 4,096 bytes, whose chapters have room for 8 entries, in sequence.

ghost use Rattle.std.specs.Prelude.{◌≡◌, ◌≤◌, length};
ghost use Rattle.rb_jobs.specs.SeatHelpers.{AtRings, IsAt};

use super::expected::same;
use super::shared::{HOLD_FOUR, SUBMIT_42, counts, is_next, one_seat, opened, verified};
use rb_history::Taken;
use rb_interp::RunFault;
use rb_jobs::{Gate, Job, JobAnswer, NoStock, jobs_give_back, run_job};
use rb_lend::Sheet;
use rb_shared_ring::{ConsumerSeat, Seat, SharedRing};
use rb_verifier::Verified;
use std::alloc::{AllocError, Global};
use std::cell::Cell;
use std::process::Abort;
use std::sync::Wait;

/// A context of 16 bytes.
const CONTEXT: [u8; 16] = [1, 2, 3, 4, 5, 6, 7, 8, 9, 10, 11, 12, 13, 14, 15, 16];

/// Outputs the first eight bytes of the context, and exits with the answer.
const OUTPUT_CONTEXT: &str = "bf12000000000000 1851000000000000 0000000000000000 b703000008000000
    b704000000000000 8500000082000000 9500000000000000";

/// A gate that expects calls 0, 1, 2 .. of worker 7.
#[derive(Drop)]
struct CallOrder {
    next: Cell<u64>,
    other: Cell<bool>,
}

impl CallOrder {
    fn new() -> CallOrder {
        CallOrder {
            next: Cell::new(0),
            other: Cell::new(false),
        }
    }
}

impl Gate for CallOrder {
    fn pass(&self, worker: u32, call: u64) {
        let next = self.next.get();
        if worker != 7 || call != next {
            self.other.set(true);
        }
        self.next.set(next.wrapping_add(1));
    }
}

fn is_empty<R: Wait>(rt: &R, ring: &SharedRing, consumer: &mut ConsumerSeat) -> bool
    requires { consumer.old.ring ≡ ring.now.ring }
{
    matches!(ring.take(rt, consumer), Ok(Taken::Empty))
}

// A job of worker 7.
fn job<'j>(program: &'j Verified, context: &'j [u8]) -> Job<'j>
    ensures { result.program.now.rings ≡ program.now.rings }
{
    Job {
        worker: 7,
        program,
        ctx: context,
    }
}

type SeatCounts = Option<(u64, u64, u64, u64)>;

// Returns worker 7's answer to a job with the program, and its seats afterwards with the counts of the first.
fn ran<R: Wait>(
    rt: &R,
    alloc: Global,
    rings: &[SharedRing],
    seats: Vec<Seat>,
    job: &Job<'_>,
    gate: &CallOrder,
    calls: &mut u64,
) -> ((Result<JobAnswer, AllocError>, SeatCounts), Vec<Seat>)
    requires rings { job.now.program.now.rings ≤ length rings.now }
    requires seats { AtRings rings.now seats.items }
    ensures seats { AtRings rings.now result.1.items }
{
    let (answer, seats) = run_job(rt, alloc, rings, seats, job, gate, &NoStock, calls);
    ((answer, seats.first().map(counts)), seats)
}

// Returns the answer of a job that ends with 0 and this many unlogged failures.
fn ended_with_0(unlogged: u64) -> Result<JobAnswer, AllocError> {
    Ok(JobAnswer {
        result: Ok(0),
        unlogged,
    })
}

#[test]
fn jobs_submit_42_and_come_to_the_gate_at_each_call(rt: HostRuntime) {
    let alloc = rt.alloc();
    jobs_give_back();
    let program = verified(&rt, alloc, SUBMIT_42, 16, 1);
    let (ring, seat, mut consumer) = opened(&rt, alloc, 3, 8);
    let rings = [ring];
    let gate = CallOrder::new();
    let mut calls = 0;
    let job = job(&program, &CONTEXT);
    let seats = one_seat(&rt, alloc, seat);
    let (told, seats) = ran(&rt, alloc, &rings, seats, &job, &gate, &mut calls);
    same(
        &rt,
        &(told, calls),
        &((ended_with_0(0), Some((1, 0, 1, 0))), 2),
    );
    let (told, _) = ran(&rt, alloc, &rings, seats, &job, &gate, &mut calls);
    same(&rt, &told, &(ended_with_0(0), Some((2, 0, 2, 0))));
    let bytes = [42, 0, 0, 0, 0, 0, 0, 0];
    is_next(&rt, &rings[0], &mut consumer, (0, 0, 0, &bytes));
    is_next(&rt, &rings[0], &mut consumer, (16, 0, 1, &bytes));
    let is_empty = is_empty(&rt, &rings[0], &mut consumer);
    same(
        &rt,
        &(is_empty, calls, gate.next.get(), gate.other.get()),
        &(true, 4, 4, false),
    );
    drop((rings, consumer, program));
}

// The results of a job at a ring: its answer, the seat's counts, the number of the next call, how often its gate was
// called, and whether any call was not the expected one.
type Told = (
    (Result<JobAnswer, AllocError>, SeatCounts),
    (u64, u64, bool),
);

// Returns the results of a job of worker 7 with the program and this context, whose first call has this number.
fn told_by_job<R: Wait + Abort>(
    rt: &R,
    alloc: Global,
    rings: &[SharedRing],
    seats: Vec<Seat>,
    text: &str,
    context: &[u8],
    first_call: u64,
) -> Told
    requires rings { 1 ≤ length rings.now }
    requires seats { AtRings rings.now seats.items }
{
    let program = verified(rt, alloc, text, 16, 1);
    let gate = CallOrder::new();
    let mut calls = first_call;
    let job = job(&program, context);
    let (told, _) = ran(rt, alloc, rings, seats, &job, &gate, &mut calls);
    (told, (calls, gate.next.get(), gate.other.get()))
}

#[test]
fn a_job_outputs_bytes_of_its_context(rt: HostRuntime) {
    let alloc = rt.alloc();
    let (ring, seat, mut consumer) = opened(&rt, alloc, 3, 8);
    let rings = [ring];
    let seats = one_seat(&rt, alloc, seat);
    let told = told_by_job(
        &rt,
        alloc,
        &rings,
        seats,
        OUTPUT_CONTEXT,
        &CONTEXT,
        u64::MAX,
    );
    same(
        &rt,
        &told,
        &((ended_with_0(0), Some((1, 0, 1, 0))), (u64::MAX, 1, true)),
    );
    is_next(&rt, &rings[0], &mut consumer, (0, 0, 0, &CONTEXT[..8]));
    drop((rings, consumer));
}

#[test]
fn a_context_of_another_length_makes_no_call(rt: HostRuntime) {
    let alloc = rt.alloc();
    let (ring, seat, mut consumer) = opened(&rt, alloc, 3, 8);
    let rings = [ring];
    let seats = one_seat(&rt, alloc, seat);
    let told = told_by_job(&rt, alloc, &rings, seats, SUBMIT_42, &CONTEXT[..3], 0);
    let refused = JobAnswer {
        result: Err(RunFault::ContextLength),
        unlogged: 0,
    };
    same(
        &rt,
        &told,
        &((Ok(refused), Some((0, 0, 0, 0))), (0, 0, false)),
    );
    same(&rt, &is_empty(&rt, &rings[0], &mut consumer), &true);
    drop((rings, consumer));
}

// Reserves a record of this many bytes.
fn reserved<R: Wait + Abort>(rt: &R, alloc: Global, ring: &SharedRing, seat: &mut Seat, n: u32)
    requires { IsAt ring.now seat.old }
    ensures { IsAt ring.now seat.new }
{
    let sheet = Sheet::new(alloc, n).expect(rt, "memory");
    let is_granted = ring.reserve(rt, seat, n, sheet).is_ok();
    same(rt, &is_granted, &true);
}

#[test]
fn a_full_ring_gives_null_and_is_logged(rt: HostRuntime) {
    let alloc = rt.alloc();
    let (ring, mut seat, _) = opened(&rt, alloc, 3, 8);
    reserved(&rt, alloc, &ring, &mut seat, 4080);
    let rings = [ring];
    let seats = one_seat(&rt, alloc, seat);
    let told = told_by_job(&rt, alloc, &rings, seats, SUBMIT_42, &CONTEXT, 0);
    same(
        &rt,
        &told,
        &((ended_with_0(0), Some((1, 1, 0, 0))), (1, 1, false)),
    );
    drop(rings);
}

#[test]
fn a_full_chapter_gives_null_and_is_unlogged(rt: HostRuntime) {
    let alloc = rt.alloc();
    let (ring, mut seat, _) = opened(&rt, alloc, 3, 8);
    reserved(&rt, alloc, &ring, &mut seat, 8);
    reserved(&rt, alloc, &ring, &mut seat, 8);
    let rings = [ring];
    let seats = one_seat(&rt, alloc, seat);
    let told = told_by_job(&rt, alloc, &rings, seats, SUBMIT_42, &CONTEXT, 0);
    same(
        &rt,
        &told,
        &((ended_with_0(1), Some((2, 0, 0, 0))), (1, 1, false)),
    );
    drop(rings);
}

#[test]
fn a_job_holds_four_records_and_outputs_a_fifth(rt: HostRuntime) {
    let alloc = rt.alloc();
    let (ring, seat, mut consumer) = opened(&rt, alloc, 3, 64);
    let rings = [ring];
    let seats = one_seat(&rt, alloc, seat);
    let told = told_by_job(&rt, alloc, &rings, seats, HOLD_FOUR, &CONTEXT, 0);
    same(
        &rt,
        &told,
        &((ended_with_0(0), Some((5, 0, 5, 0))), (9, 9, false)),
    );
    is_next(&rt, &rings[0], &mut consumer, (0, 0, 0, &[0; 8]));
    is_next(&rt, &rings[0], &mut consumer, (16, 0, 1, &[0; 8]));
    is_next(&rt, &rings[0], &mut consumer, (32, 0, 2, &[0; 8]));
    is_next(&rt, &rings[0], &mut consumer, (48, 0, 3, &[0; 8]));
    is_next(&rt, &rings[0], &mut consumer, (64, 0, 4, &[0; 8]));
    same(&rt, &is_empty(&rt, &rings[0], &mut consumer), &true);
    drop((rings, consumer));
}

#[test]
// A record that was granted before and never submitted or discarded keeps its hand, so the program is granted three.
fn a_fourth_record_finds_no_hand_where_one_was_dropped(rt: HostRuntime) {
    let alloc = rt.alloc();
    let (ring, mut seat, _) = opened(&rt, alloc, 3, 64);
    reserved(&rt, alloc, &ring, &mut seat, 8);
    let rings = [ring];
    let seats = one_seat(&rt, alloc, seat);
    let told = told_by_job(&rt, alloc, &rings, seats, HOLD_FOUR, &CONTEXT, 0);
    same(
        &rt,
        &told,
        &((ended_with_0(1), Some((4, 0, 3, 0))), (7, 7, false)),
    );
    drop(rings);
}
