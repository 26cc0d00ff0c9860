//! Errors of opening or running a world.

use thiserror::Error;

/// Why a world cannot be opened: the first of these that applies, in this order.
#[derive(Clone, Copy, Debug, Error, PartialEq, Eq)]
pub enum WorldOpenFault {
    /// A ring's size is not a power of two from 4,096 to 67,108,864, or its start is not a multiple of 8 up to 2^61.
    #[error("a ring's size or start is out of bounds")]
    Ring,
    /// The length of a worker's context differs from the one that its program was verified for.
    #[error("a context has another length than its program was verified for")]
    ContextLength,
    /// There are more than 16 rings, or fewer than a program was verified for.
    #[error("there are more than 16 rings, or fewer than a program was verified for")]
    Rings,
    /// The number of workers is not 1 to 256.
    #[error("the number of workers is not 1 to 256")]
    Workers,
    /// The room of a ring's chapters is not 8 to 1,048,576 entries.
    #[error("the room of a chapter is not 8 to 1048576")]
    Chapter,
    /// The world could not be allocated.
    #[error("out of memory")]
    Memory,
}

/// Why a list of actors was not run. Nothing changed.
#[derive(Clone, Copy, Debug, Error, PartialEq, Eq)]
pub enum WorldFault {
    /// The actor at this index of the list does not exist. It is the first such actor; the index counts from 0.
    #[error("actor {0} of the list is unknown")]
    UnknownActor(usize),
    /// The report could not be allocated.
    #[error("out of memory")]
    Memory,
}
