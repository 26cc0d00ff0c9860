//! Why a tape in segments ended, or could not be opened.

use std::alloc::AllocError;
use thiserror::Error;

/// The fault that ended a ring's tape. Later records are counted but not written.
#[derive(Clone, Copy, Debug, PartialEq, Eq, Error)]
pub enum SegmentFault {
    /// A write to the open segment failed, or wrote nothing.
    #[error("a write to a segment failed")]
    Write,
    /// The open segment could not be synced before it was closed.
    #[error("a segment could not be synced")]
    Sync,
    /// The store could not close the open segment.
    #[error("a segment could not be closed")]
    Close,
    /// The next segment could not be created.
    #[error("a segment could not be created")]
    Create,
    /// The oldest segment could not be deleted.
    #[error("a segment could not be deleted")]
    Delete,
    /// A record is as long as the ring, which no ring grants.
    #[error("a record is as long as the ring")]
    TooLong,
    /// Out of memory for the list of closed segments.
    #[error("out of memory")]
    Memory,
}

/// The reason why a store could not be opened.
#[derive(Clone, Copy, Debug, PartialEq, Eq, Error)]
pub enum OpeningFault {
    /// A call of the store failed.
    #[error("a segment could not be listed, read, created or opened")]
    Device,
    /// The name of the newest segment, or the end of its last complete record, is not a position at which a tape may
    /// start.
    #[error("a tape cannot start at {0}, the position or the end of the newest segment")]
    Position(u64),
    /// Out of memory.
    #[error("out of memory")]
    Memory,
}

impl From<AllocError> for OpeningFault {
    fn from(_error: AllocError) -> OpeningFault {
        OpeningFault::Memory
    }
}
