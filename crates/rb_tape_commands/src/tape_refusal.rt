//! Errors of `tape`.

use rb_tape::TapeKind;
use thiserror::Error;

/// Why `tape` did not process its whole input.
#[derive(Clone, Copy, Debug, PartialEq, Eq, Error)]
pub enum TapeRefusal {
    /// The size is not a power of two from 4,096 to 67,108,864.
    #[error("size")]
    Size,
    /// The start is not a multiple of 8, or is above 2^61.
    #[error("start")]
    Start,
    /// What is wrong with a record of the tape, and the number of the tape's bytes before the record.
    #[error("{kind:?} at {offset}")]
    Record { kind: TapeKind, offset: u64 },
    /// Memory could not be allocated.
    #[error("memory")]
    Memory,
    /// A read, a write or a flush failed, or a write wrote nothing.
    #[error("device")]
    Device,
}
