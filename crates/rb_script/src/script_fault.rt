//! Why a script is refused.

use thiserror::Error;

/// Why a script is refused.
#[derive(Clone, Copy, Debug, Error, PartialEq, Eq)]
pub enum ScriptFault {
    /// The line with this number, counted from 1, is not a line of a script, is not allowed there, or has a program
    /// that is refused. A refused program is reported only if no other line is at fault.
    #[error("line {0}")]
    Line(usize),
    /// Memory could not be allocated.
    #[error("memory")]
    Memory,
}
