//! Whole jobs on threads over one ring.

ghost use Rattle.std.specs.Prelude.{IfOk};
ghost use Rattle.rb_workers.specs.Opened.{AreOpened};

use super::programs::RESERVING;
use super::repeated_context::ContextLen;
use crate::fault::TrialFault;
use crate::ring_lists::list_of_one;
use crate::verified_programs::verified;
use rb_interp::RunFault;
use rb_program::decode;
use rb_verifier::Verified;
use rb_workers::{Job, NullSink, OpenGate, Opened, chapter_margin, chapter_room, run_jobs};
use std::alloc::Global;
use std::sync::Wait;
use std::thread::Threads;

// The size of the ring, in bytes.
const JOBS_SIZE: u64 = 1_048_576;

/// Returns the program that each job runs, verified for contexts of this length and for one ring.
pub(crate) fn reserving_program(alloc: Global, len: ContextLen) -> Result<Verified, TrialFault> {
    match decode(alloc, RESERVING.as_slice()) {
        Ok(program) => verified(alloc, program, len.bytes(), 1),
        Err(_) => Err(TrialFault::Refused),
    }
}

/// Returns `each` jobs for each worker, worker by worker.
pub(crate) fn jobs_of<'j>(
    alloc: Global,
    program: &'j Verified,
    workers: u32,
    each: u32,
    len: ContextLen,
) -> Result<Vec<Job<'j>>, TrialFault> {
    let each = each as usize;
    let mut jobs = Vec::with_capacity(alloc, (workers as usize).saturating_mul(each))?;
    push_jobs(&mut jobs, program, workers, each, len.context())?;
    Ok(jobs)
}

fn push_jobs<'j>(
    jobs: &mut Vec<Job<'j>>,
    program: &'j Verified,
    workers: u32,
    each: usize,
    ctx: &'j [u8],
) -> Result<(), TrialFault> {
    for worker in 0..workers {
        let job = Job {
            worker,
            program,
            ctx,
        };
        jobs.resize(jobs.len().saturating_add(each), job)?;
    }
    Ok(())
}

/// Returns an empty ring for `workers` workers, whose sink keeps nothing. Its chapters have the room that `rbhost run`
/// gives them.
pub(crate) fn opened<R: Wait>(
    rt: &R,
    alloc: Global,
    workers: u32,
) -> Result<Vec<Opened<NullSink>>, TrialFault>
    ensures { IfOk result (λ rings. AreOpened (λ s. s.position) rings.items) }
{
    let sink = NullSink { position: 0 };
    let (room, margin) = (chapter_room(JOBS_SIZE), chapter_margin(JOBS_SIZE));
    match Opened::open(rt, alloc, 0, JOBS_SIZE, 0, workers, room, margin, sink) {
        Ok(one) => list_of_one(alloc, workers, one),
        Err(_) => Err(TrialFault::Memory),
    }
}

/// Runs the jobs, and returns how many got no record.
pub(crate) fn run_all<R: Threads + Wait + Sync>(
    rt: &R,
    alloc: Global,
    rings: Vec<Opened<NullSink>>,
    jobs: &[Job<'_>],
) -> Result<u64, TrialFault>
    requires { AreOpened (λ s. s.position) rings.items }
{
    let Ok(report) = run_jobs(rt, alloc, rings, jobs, &OpenGate) else {
        return Err(TrialFault::Memory);
    };
    Ok(refused_among(report.answers.as_slice()))
}

fn refused_among(answers: &[Result<u64, RunFault>]) -> u64 {
    let mut refused: u64 = 0;
    for answer in answers {
        match answer {
            Ok(0) => {}
            _ => refused = refused.wrapping_add(1),
        }
    }
    refused
}

/// Opens a ring, runs `each` jobs of each worker over it, and returns how many got no record.
pub(crate) fn run_over<R: Threads + Wait + Sync>(
    rt: &R,
    alloc: Global,
    program: &Verified,
    workers: u32,
    each: u32,
    len: ContextLen,
) -> Result<u64, TrialFault> {
    let jobs = jobs_of(alloc, program, workers, each, len)?;
    let rings = opened(rt, alloc, workers)?;
    run_all(rt, alloc, rings, jobs.as_slice())
}
