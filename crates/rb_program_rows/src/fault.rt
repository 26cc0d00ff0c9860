//! Why the rows were not answered.

use std::io;
use thiserror::Error;

/// Why the rows were not answered.
#[derive(Clone, Copy, Debug, Error)]
pub(crate) enum ProgramRowsFault {
    /// Memory could not be allocated.
    #[error("no memory")]
    Memory,
    /// The input or the output failed.
    #[error("the input or the output failed")]
    Device,
}

impl From<io::Error> for ProgramRowsFault {
    fn from(_: io::Error) -> ProgramRowsFault {
        ProgramRowsFault::Device
    }
}
