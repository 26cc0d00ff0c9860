//! What is requested of a run.

ghost use Rattle.std.specs.Prelude.{◌≡◌, IfErr, IfOk, OnOk};
ghost use Rattle.rb_history.specs.RingModel.{IsRingSize, IsStartPosition, IsWorkerCount};
ghost use Rattle.rb_run_commands.specs.RunCommand.{IsRightRingFault};
ghost use Rattle.rb_run_commands.specs.inner.OpeningFaults.{fault_of_opening};

use crate::jobs_fault::JobsFault;
use crate::worker_jobs::CONTEXT;
use rb_history::{SetupFault, check_setup};
use rb_json::LineForm;
use rb_loader::Bounds;

// The limits that a program of jobs is verified for: contexts of 16 bytes and one ring.
pub(crate) const JOB_BOUNDS: Bounds = Bounds {
    ctx_len: CONTEXT as u32,
    rings: 1,
};

/// The jobs to run, the ring to run them over, and the form of the output.
#[derive(Clone, Copy, Debug, PartialEq, Eq)]
pub struct JobsRequest {
    /// The number of workers.
    pub workers: u64,
    /// The number of times that each worker runs the program.
    pub jobs: u32,
    /// The ring's size in bytes.
    pub size: u64,
    /// The ring's first position.
    pub start: u64,
    /// The form in which the report is printed.
    pub form: LineForm,
}

/// Returns the number of workers if a ring can be opened with these numbers. Otherwise returns the error of opening it.
pub(crate) fn check_ring(request: JobsRequest) -> Result<u32, JobsFault>
    ensures bounds { OnOk result (IsRingSize request.size × IsStartPosition request.start × IsWorkerCount request.workers) }
    ensures workers { IfOk result (λ workers. workers ≡ request.workers) }
    ensures refused { IfErr result (IsRightRingFault request) }
{
    let workers = u32::try_from(request.workers).unwrap_or(u32::MAX);
    match check_setup(request.size, request.start, workers) {
        Ok(()) => Ok(workers),
        Err(fault) => Err(setup_fault(fault)),
    }
}

// Returns why no ring can be opened with these numbers.
fn setup_fault(fault: SetupFault) -> JobsFault
    ensures { result ≡ fault_of_opening fault }
{
    match fault {
        SetupFault::Size => JobsFault::Size,
        SetupFault::Start => JobsFault::Start,
        SetupFault::Workers => JobsFault::Workers,
    }
}
