//! Jobs and their results.

use rb_interp::RunFault;
use rb_verifier::Verified;

/// A job: a verified program to be run by a worker over a context.
#[derive(Clone, Copy)]
pub struct Job<'j> {
    /// The number of the worker that runs it.
    pub worker: u32,
    /// The program.
    pub program: &'j Verified,
    /// The bytes of the context.
    pub ctx: &'j [u8],
}

/// The result of a job.
#[derive(Clone, Copy, Debug, PartialEq, Eq)]
pub struct JobAnswer {
    /// The program's result, or why there is none.
    pub result: Result<u64, RunFault>,
    /// The number of calls that returned null for flags 0, or `-EAGAIN`, without an entry in a ring's history that
    /// explains it.
    pub unlogged: u64,
}

/// A hook that is called before each helper call and after each job.
pub trait Gate {
    /// Is called before each helper call of a worker's jobs, while no lock is held, with the number of helper calls
    /// that the worker has finished. The number saturates at `u64::MAX`.
    ///
    /// Nothing is assumed about what a gate does; the helper call waits for it. That it is called, and with which
    /// numbers, is tested and not proved.
    fn pass(&self, worker: u32, call: u64);

    /// Is called after each job of a worker in a list of jobs, while no lock is held, with the number of jobs that the
    /// worker has run. Nothing is assumed about what it does. The default implementation does nothing.
    fn after_job(&self, _worker: u32, _jobs: u64) {}
}

/// A gate that does nothing.
pub struct OpenGate;

impl Gate for OpenGate {
    fn pass(&self, _worker: u32, _call: u64) {}
}
