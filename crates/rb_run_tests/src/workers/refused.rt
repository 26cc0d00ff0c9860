//! Runs that are refused.

ghost use Rattle.std.specs.Prelude.{◌≡◌};
ghost use Rattle.rb_workers.specs.Opened.{AreOpened};

use super::given::{Counter, Free, ROOM, job, one_ring, verified};
use crate::expected::{same, same_of};
use crate::shared::SUBMIT_42;
use rb_shared_ring::OpenFault;
use rb_workers::{Gate, Job, JobFault, Opened, run_jobs};
use std::alloc::Global;
use std::process::Abort;
use std::sync::Wait;
use std::sync::atomic::Ordering;
use std::thread::Threads;

const CONTEXT: [u8; 16] = [0; 16];

// Returns the fault of a run that is refused, and the rings that came back.
fn refused<R: Threads + Wait + Sync + Abort, G: Gate + Sync>(
    rt: &R,
    alloc: Global,
    rings: Vec<Opened<Counter>>,
    jobs: &[Job<'_>],
    gate: &G,
) -> (JobFault, Vec<Opened<Counter>>)
    requires { AreOpened (λ c. c.position) rings.items }
{
    match run_jobs(rt, alloc, rings, jobs, gate) {
        Ok(_) => rt.panic("a report"),
        Err(refusal) => refusal,
    }
}

// Ends the test unless this is one ring with this many seats, which have made nothing.
fn is_untouched<A: Abort>(rt: &A, rings: &[Opened<Counter>], seats: usize) {
    same(rt, &rings.len(), &1);
    for one in rings {
        same(
            rt,
            &(one.seats.len(), one.consumer.position(), one.sink.position),
            &(seats, 0, 0),
        );
        for seat in &one.seats {
            same(rt, &(seat.made(), seat.refused()), &(0, 0));
        }
    }
}

// Returns how often worker 0 and the others called the gate of a run that is refused, and its fault. Its ring comes
// back untouched.
fn refusal<R: Threads + Wait + Sync + Abort>(
    rt: &R,
    alloc: Global,
    jobs: &[Job<'_>],
) -> (JobFault, u64, u64) {
    let gate = Free::new();
    let (fault, back) = refused(rt, alloc, one_ring(rt, alloc, 2, ROOM), jobs, &gate);
    is_untouched(rt, &back, 2);
    (
        fault,
        gate.first.load(Ordering::SeqCst),
        gate.others.load(Ordering::SeqCst),
    )
}

#[test]
fn an_unknown_ring_is_told_before_an_unknown_worker(rt: HostRuntime) {
    let program = verified(&rt, rt.alloc(), SUBMIT_42, 2);
    let jobs = [job(5, &program, &CONTEXT)];
    let told = refusal(&rt, rt.alloc(), &jobs);
    same(&rt, &told, &(JobFault::UnknownRing, 0, 0));
    drop(program);
}

#[test]
fn an_unknown_worker_is_told(rt: HostRuntime) {
    let program = verified(&rt, rt.alloc(), SUBMIT_42, 1);
    let jobs = [job(1, &program, &CONTEXT), job(2, &program, &CONTEXT)];
    let told = refusal(&rt, rt.alloc(), &jobs);
    same(&rt, &told, &(JobFault::UnknownWorker, 0, 0));
    drop(program);
}

// Runs the jobs again until memory suffices, at most three times.
fn run_again<R: Threads + Wait + Sync + Abort>(
    rt: &R,
    alloc: Global,
    first: Vec<Opened<Counter>>,
    jobs: &[Job<'_>],
) -> (u64, usize)
    requires { AreOpened (λ c. c.position) first.items }
{
    let gate = Free::new();
    let mut rings = first;
    for _ in 0..3 {
        match run_jobs(rt, alloc, rings, jobs, &gate) {
            Ok(report) => return (report.strays, report.rings.len()),
            Err((fault, back)) => {
                same(rt, &fault, &JobFault::Memory);
                rings = back;
            }
        }
    }
    rt.panic("no memory thrice")
}

#[test]
fn what_comes_back_without_memory_runs_again(rt: HostRuntime) {
    let alloc = rt.alloc();
    let program = verified(&rt, alloc, SUBMIT_42, 1);
    let jobs = [job(0, &program, &CONTEXT), job(1, &program, &CONTEXT)];
    let ended = run_again(&rt, alloc, one_ring(&rt, alloc, 2, ROOM), &jobs);
    same(&rt, &ended, &(0, 1));
    drop(program);
}

// Returns why no such ring is opened.
fn open_fault<R: Wait + Abort>(
    rt: &R,
    alloc: Global,
    size: u64,
    workers: u32,
    room: u32,
) -> OpenFault {
    match Opened::open(rt, alloc, 7, size, 0, workers, room, 0, Counter::new()) {
        Ok(_) => rt.panic("a ring"),
        Err(fault) => fault,
    }
}

// Sizes, numbers of workers and rooms of rings that are not opened, and the reasons.
const NOT_OPENED: [(u64, u32, u32, OpenFault); 5] = [
    (4095, 1, 8, OpenFault::Size),
    (4096, 0, 8, OpenFault::Workers),
    (4096, 257, 7, OpenFault::Workers),
    (4096, 1, 7, OpenFault::Chapter),
    (4096, 1, 1_048_577, OpenFault::Chapter),
];

#[test]
fn a_ring_opens_within_bounds_alone(rt: HostRuntime) {
    for row in &NOT_OPENED {
        let (size, workers, room, wanted) = *row;
        let found = open_fault(&rt, rt.alloc(), size, workers, room);
        same_of(&rt, &found, &wanted, row);
    }
}

// Returns the fault's name.
fn name_of(rt: &impl Abort, alloc: Global, fault: JobFault) -> String {
    format!(in alloc; "{fault}").expect(rt, "memory")
}

const NAMES: [(JobFault, &str); 3] = [
    (
        JobFault::UnknownRing,
        "a program knows more rings than there are",
    ),
    (JobFault::UnknownWorker, "a job is of an unknown worker"),
    (JobFault::Memory, "out of memory"),
];

#[test]
fn faults_have_names(rt: HostRuntime) {
    for (fault, name) in &NAMES {
        same(&rt, &name_of(&rt, rt.alloc(), *fault).as_str(), name);
    }
}
