//! The jobs of a run: each worker runs the program a number of times, each time with its own context.

ghost use Rattle.std.specs.Prelude.{◌≡◌, ◌++◌, IfOk, OnOk, map};
ghost use Rattle.rb_jobs.specs.Jobs.{task_of};
ghost use Rattle.rb_run_commands.specs.WorkerJobs.{job_context};
ghost use Rattle.rb_run_commands.specs.inner.JobContexts.{contexts_of_workers, task_over, worker_contexts};

use byteorder::{ByteOrder, LittleEndian};
use rb_verifier::Verified;
use rb_workers::Job;
use std::alloc::{AllocError, Global};

/// The length of a job's context in bytes: the worker's number and the job's, each in eight bytes, little-endian.
pub const CONTEXT: usize = 16;

/// The worker of a job, and the bytes of the job's context.
#[derive(Clone, Copy)]
pub struct JobContext {
    /// The worker that runs the job.
    pub worker: u32,
    /// The job's context.
    pub bytes: [u8; CONTEXT],
}

/// Returns the contexts of `jobs` jobs of each of `workers` workers, worker by worker, each worker's in the order of
/// their numbers, or `AllocError` if they cannot be allocated.
pub(crate) fn contexts_of(
    alloc: Global,
    workers: u32,
    jobs: u32,
) -> Result<Vec<JobContext>, AllocError>
    ensures contexts { IfOk result (λ contexts. contexts.items ≡ contexts_of_workers workers jobs) }
{
    let count = (workers as usize).saturating_mul(jobs as usize);
    let mut contexts = Vec::with_capacity(alloc, count)?;
    for worker in 0..workers {
        push_contexts(&mut contexts, worker, jobs)?;
    }
    Ok(contexts)
}

// Appends the contexts of one worker's jobs.
fn push_contexts(contexts: &mut Vec<JobContext>, worker: u32, jobs: u32) -> Result<(), AllocError>
    ensures contexts { OnOk result (contexts.new.items ≡ contexts.old.items ++ worker_contexts jobs worker) }
{
    contexts.reserve(jobs as usize)?;
    for job in 0..jobs {
        contexts.push_reserved(JobContext {
            worker,
            bytes: context_of(worker, job),
        });
    }
    Ok(())
}

// Returns the worker's and the job's number, each in eight bytes, little-endian.
fn context_of(worker: u32, job: u32) -> [u8; CONTEXT]
    ensures context { result ≡ job_context worker job }
{
    let mut context = [0; CONTEXT];
    LittleEndian::write_u64(&mut context[..8], u64::from(worker));
    LittleEndian::write_u64(&mut context[8..], u64::from(job));
    context
}

/// Returns a job of the program for each of the contexts, in order, or `AllocError` if they cannot be allocated.
pub(crate) fn jobs_of<'j>(
    alloc: Global,
    program: &'j Verified,
    contexts: &'j [JobContext],
) -> Result<Vec<Job<'j>>, AllocError>
    ensures jobs { IfOk result (λ jobs. map task_of jobs.items ≡ map (task_over program.now) contexts.now) }
{
    let mut jobs = Vec::with_capacity(alloc, contexts.len())?;
    for own in contexts {
        jobs.push_reserved(Job {
            worker: own.worker,
            program,
            ctx: own.bytes.as_slice(),
        });
    }
    Ok(jobs)
}
