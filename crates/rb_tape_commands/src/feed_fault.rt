//! Errors of `feed`.

use thiserror::Error;

/// Why `feed` did not process its whole input. Payloads count from 0.
#[derive(Clone, Copy, Debug, PartialEq, Eq, Error)]
pub enum FeedFault {
    /// The size is not a power of two from 4,096 to 67,108,864.
    #[error("size")]
    Size,
    /// The start is not a multiple of 8, or is above 2^61.
    #[error("start")]
    Start,
    /// This payload does not fit into the ring, or would end past 2^62.
    #[error("payload {0} does not fit")]
    Fit(u64),
    /// The input ends inside this payload, or inside its length.
    #[error("input ends inside payload {0}")]
    Ends(u64),
    /// Memory could not be allocated.
    #[error("memory")]
    Memory,
    /// A read, a write or a flush failed, or a write wrote nothing.
    #[error("device")]
    Device,
}
