//! Why a run returns no result.

use thiserror::Error;

/// Why a run returns no result.
#[derive(Clone, Copy, Debug, PartialEq, Eq, Error)]
pub enum RunFault {
    /// The context does not have the length that the program was verified for.
    #[error("context of another length")]
    ContextLength,
    /// A record that the program submitted or discarded was handed back.
    #[error("stray record")]
    Stray,
}
