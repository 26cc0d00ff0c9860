//! The faults that a ring's calls return.

use std::alloc::AllocError;
use thiserror::Error;

/// Why a ring can't be created: the first of these that applies, in this order.
#[derive(Clone, Copy, Debug, Error, PartialEq, Eq)]
pub enum OpenFault {
    /// The size in bytes is not a power of two from 4,096 to 67,108,864.
    #[error("the size is not a power of two from 4096 to 67108864")]
    Size,
    /// The start is not a multiple of 8, or is greater than 2^61.
    #[error("the start is not a multiple of 8 up to 2^61")]
    Start,
    /// The number of workers is not in 1 to 256.
    #[error("the number of workers is not 1 to 256")]
    Workers,
    /// The room of a chapter is not in 8 to 1,048,576 entries.
    #[error("the room of a chapter is not 8 to 1048576")]
    Chapter,
    /// Memory for the ring could not be allocated.
    #[error("out of memory")]
    Memory,
}

impl From<AllocError> for OpenFault {
    ghost use Rattle.std.specs.Prelude.{◌≡◌};
    ghost use Rattle.rb_chapter_ring.specs.declared.faults.OpenFault.TheVariants.{Memory};

    ghost from_gives = { λ _ fault. fault ≡ Memory };

    fn from(_: AllocError) -> OpenFault {
        OpenFault::Memory
    }
}

/// Why no record was granted. The refused call returns the sheet.
#[derive(Clone, Copy, Debug, Error, PartialEq, Eq)]
pub enum ReserveFault {
    /// The ring has no room for the record. The refusal is logged.
    #[error("the ring has no room")]
    Full,
    /// The flags of an `output` are greater than 3. Nothing changed.
    #[error("unknown flags")]
    Flags,
    /// The chapter has no room: for a record and all entries that it will log if the ring has room for it, otherwise
    /// for the refusal. Nothing changed.
    #[error("the chapter has no room")]
    ChapterFull,
    /// The seat belongs to another ring. Nothing changed. A ring of one thread never returns this.
    #[error("the seat is another ring's")]
    Foreign,
    /// None of the seat's four hands is free. Nothing changed. A ring of one thread never returns this, and neither
    /// does `output`.
    #[error("no hand is free")]
    HandsFull,
}
