//! Errors of running jobs and printing their report.

use rb_loader::ProgramFault;
use std::alloc::AllocError;
use thiserror::Error;

/// Why jobs were not run, or their report could not be printed.
#[derive(Clone, Copy, Debug, PartialEq, Eq, Error)]
pub enum JobsFault {
    /// The program was not accepted, memory could not be allocated, or a read or a write failed.
    #[error("{0}")]
    Program(ProgramFault),
    /// The size is not a power of two from 4,096 to 67,108,864.
    #[error("size")]
    Size,
    /// The start is not a multiple of 8, or is above 2^61.
    #[error("start")]
    Start,
    /// The number of workers is not 1 to 256.
    #[error("workers")]
    Workers,
}

impl From<ProgramFault> for JobsFault {
    ghost use Rattle.std.specs.Prelude.{◌≡◌};
    ghost use Rattle.rb_run_commands.specs.declared.jobs_fault.JobsFault.TheVariants.{Program};

    ghost from_gives = { λ fault made. made ≡ Program fault };

    fn from(fault: ProgramFault) -> JobsFault {
        JobsFault::Program(fault)
    }
}

impl From<AllocError> for JobsFault {
    ghost use Rattle.std.specs.Prelude.{◌≡◌};
    ghost use Rattle.rb_run_commands.specs.declared.jobs_fault.JobsFault.TheVariants.{Program};
    ghost use Rattle.rb_loader.specs.declared.program.ProgramFault.TheVariants.{Memory};

    ghost from_gives = { λ _ made. made ≡ Program Memory };

    fn from(_error: AllocError) -> JobsFault {
        JobsFault::Program(ProgramFault::Memory)
    }
}
