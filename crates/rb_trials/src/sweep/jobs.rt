//! Jobs on threads.

ghost use Rattle.std.specs.Prelude.{IfOk};
ghost use Rattle.rb_workers.specs.Opened.{AreOpened, IsOpened};

use super::memory::{TRIES, tell_memory};
use super::programs::{OUTPUT, RESERVE, verified};
use super::snapshot::tell_counts;
use crate::fault::TrialFault;
use crate::fields::{end_line, print_field};
use crate::ring_lists::list_of_one;
use rb_interp::RunFault;
use rb_shared_ring::OpenFault;
use rb_verifier::Verified;
use rb_workers::{Job, JobFault, JobsReport, NullSink, OpenGate, Opened, run_jobs};
use std::alloc::Global;
use std::fmt::Display;
use std::io::Print;
use std::sync::Wait;
use std::thread::Threads;

// The room of the chapters: enough for all of the jobs in one chapter.
const JOBS_ROOM: u32 = 64;

/// Runs three jobs of each of two workers over one ring, and repeats the run if an allocation failed.
pub(crate) fn run<R: Threads + Wait + Sync + Print>(
    rt: &R,
    alloc: Global,
) -> Result<(), TrialFault> {
    let reserving = verified(rt, alloc, RESERVE.as_slice())?;
    let sending = verified(rt, alloc, OUTPUT.as_slice())?;
    let jobs = [
        job(0, &reserving),
        job(1, &sending),
        job(0, &sending),
        job(1, &reserving),
        job(0, &reserving),
        job(1, &sending),
    ];
    run_over(rt, alloc, jobs.as_slice())
}

fn job(worker: u32, program: &Verified) -> Job<'_> {
    Job {
        worker,
        program,
        ctx: &[],
    }
}

fn run_over<R: Threads + Wait + Sync + Print>(
    rt: &R,
    alloc: Global,
    jobs: &[Job<'_>],
) -> Result<(), TrialFault> {
    let rings = one_ring(rt, alloc)?;
    tell_all(rt, "open", rings.as_slice());
    let report = report(rt, alloc, rings, jobs)?;
    tell_answers(rt, report.answers.as_slice());
    tell_report(rt, &report);
    Ok(())
}

// Prints the result of each job.
fn tell_answers<R: Print>(rt: &R, answers: &[Result<u64, RunFault>]) {
    for answer in answers {
        match answer {
            Ok(value) => tell_answer(rt, value),
            Err(fault) => tell_answer(rt, fault),
        }
    }
}

fn tell_answer<R: Print, T: Display>(rt: &R, answer: &T) {
    print_field(rt, "job: ", answer);
    end_line(rt);
}

// Prints how many records failed to be allocated without an entry that explains it, and the final state of each ring.
fn tell_report<R: Print>(rt: &R, report: &JobsReport<NullSink>) {
    // `strays` is 0 in each report of `run_jobs`, by its clause `no_strays`.
    print_field(rt, "unlogged ", &report.unlogged);
    print_field(rt, " strays ", &report.strays);
    end_line(rt);
    for ended in &report.rings {
        print_field(rt, "ring: entries ", &ended.closing.chapter().used());
        tell_counts(rt, ended.closing.counts());
    }
}

// Runs the jobs until no allocation fails.
fn report<R: Threads + Wait + Sync + Print>(
    rt: &R,
    alloc: Global,
    rings: Vec<Opened<NullSink>>,
    jobs: &[Job<'_>],
) -> Result<JobsReport<NullSink>, TrialFault>
    requires { AreOpened (λ s. s.position) rings.items }
{
    let mut rings = rings;
    for _ in 0..TRIES {
        match run_jobs(rt, alloc, rings, jobs, &OpenGate) {
            Ok(report) => return Ok(report),
            Err((JobFault::Memory, back)) => rings = back,
            Err(_) => return Err(TrialFault::Otherwise("jobs")),
        }
        tell_all(rt, "jobs memory", rings.as_slice());
    }
    Err(TrialFault::Twice("jobs"))
}

// Prints what the seats of the rings made, and what they left: records that no worker submitted or discarded, and those
// that were not taken.
fn tell_all<R: Print>(rt: &R, call: &str, rings: &[Opened<NullSink>]) {
    for one in rings {
        print_field(rt, call, &":");
        print_field(rt, " seats ", &one.seats.len());
        let (mut busy, mut waiting): (u64, u64) = (0, 0);
        for seat in &one.seats {
            let ended = seat.submitted().wrapping_add(seat.discarded());
            busy = busy.wrapping_add(seat.made().wrapping_sub(ended));
            waiting = waiting.wrapping_add(seat.submitted());
            print_field(rt, " made ", &seat.made());
        }
        waiting = waiting.wrapping_sub(one.consumer.consumed());
        print_field(rt, " busy ", &busy);
        print_field(rt, " waiting ", &waiting);
        end_line(rt);
    }
}

// Returns a ring of 4,096 bytes with two workers.
fn opened<R: Wait + Print>(rt: &R, alloc: Global) -> Result<Opened<NullSink>, TrialFault>
    ensures { IfOk result (IsOpened (λ s. s.position) 2) }
{
    for _ in 0..TRIES {
        let sink = NullSink { position: 0 };
        match Opened::open(rt, alloc, 7, 4096, 0, 2, JOBS_ROOM, 0, sink) {
            Ok(opened) => return Ok(opened),
            Err(OpenFault::Memory) => tell_memory(rt, "open"),
            Err(_) => return Err(TrialFault::Otherwise("open")),
        }
    }
    Err(TrialFault::Twice("open"))
}

// Returns a list of one ring.
fn one_ring<R: Wait + Print>(rt: &R, alloc: Global) -> Result<Vec<Opened<NullSink>>, TrialFault>
    ensures { IfOk result (λ rings. AreOpened (λ s. s.position) rings.items) }
{
    for _ in 0..TRIES {
        let first = opened(rt, alloc)?;
        match list_of_one(alloc, 2, first) {
            Ok(rings) => return Ok(rings),
            Err(_) => tell_memory(rt, "list"),
        }
    }
    Err(TrialFault::Twice("list"))
}
