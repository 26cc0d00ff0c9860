//! Why a trial did not succeed.

use std::alloc::{AllocError, AllocFailed};
use std::io;
use thiserror::Error;

/// Why a trial did not succeed.
#[derive(Clone, Copy, Debug, Error)]
pub(crate) enum TrialFault {
    /// The arguments name no trial.
    #[error("usage: rb_trials orders TAKES AFTER LAST STEPS HEX [STEPS HEX].. | soak WORKERS RINGS SIZE ROOM STEPS SEED | sweep ring|list|seats|shared|jobs | bench [time WORKLOAD [NUMBER].. |payloads] [-- ..]")]
    Usage,
    /// A program is invalid or not accepted.
    #[error("a program was refused")]
    Refused,
    /// A ring can't be opened with these parameters, or its allocation failed.
    #[error("no such ring, or no memory for it")]
    Ring,
    /// A ring could not be closed with all its seats.
    #[error("a ring was not closed")]
    Open,
    /// An allocation failed.
    #[error("no memory")]
    Memory,
    /// A ring with room granted no record, or returned none.
    #[error("a record was lost")]
    Lost,
    /// The clock or the output failed.
    #[error("the clock or the output failed")]
    Device,
    /// This number of errors was found.
    #[error("wrong {0}")]
    Wrong(u64),
    /// An allocation of this call failed more than once.
    #[error("{0} found no memory twice")]
    Twice(&'static str),
    /// This call returned neither success nor a failed allocation.
    #[error("{0} answered otherwise")]
    Otherwise(&'static str),
}

impl TrialFault {
    /// Returns the exit status.
    pub(crate) fn status(self) -> u8 {
        match self {
            TrialFault::Usage => 2,
            _ => 1,
        }
    }
}

impl From<AllocError> for TrialFault {
    fn from(_: AllocError) -> TrialFault {
        TrialFault::Memory
    }
}

impl<T: Drop> From<AllocFailed<T>> for TrialFault {
    fn from(_: AllocFailed<T>) -> TrialFault {
        TrialFault::Memory
    }
}

impl From<io::Error> for TrialFault {
    fn from(_: io::Error) -> TrialFault {
        TrialFault::Device
    }
}
