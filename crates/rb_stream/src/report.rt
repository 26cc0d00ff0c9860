//! The result of a stream.

ghost use Rattle.std.specs.Prelude.{◌≡◌};

use rb_source::SourceFault;
use rb_stream_worker::ResultCounts;
use rb_workers::{Ended, Opened};
use thiserror::Error;

/// Why there is no report.
#[derive(Clone, Copy, Debug, PartialEq, Eq, Error)]
pub enum StreamFault {
    /// A program was verified for more rings than there are. Nothing was read.
    #[error("a program knows more rings than there are")]
    UnknownRing,
    /// A program was verified for contexts of another length than the source's. Nothing was read.
    #[error("a program takes contexts of another length")]
    ContextLength,
    /// There is no worker, because there is no ring. Nothing was read.
    #[error("there is no worker")]
    NoWorker,
    /// An allocation failed before the start, for a piece, or for a worker's next run. The effects of what ran remain,
    /// and no ring is closed.
    #[error("out of memory")]
    Memory,
}

/// Why a stream ended.
#[derive(Clone, Copy, Debug, PartialEq, Eq)]
pub enum StreamEnd {
    /// The source has ended.
    Over,
    /// The source failed. All contexts before the fault were dealt.
    Failed(SourceFault),
}

/// The report on a stream.
#[derive(Drop)]
pub struct StreamReport<S> {
    /// The rings, closed, in their order.
    pub rings: Vec<Ended<S>>,
    /// The number of contexts that the source gave. Saturates at `u64::MAX`.
    pub contexts: u64,
    /// The number of contexts that were dropped. Saturates at `u64::MAX`.
    pub dropped: u64,
    /// The number of contexts that every program ran over. Saturates at `u64::MAX`.
    pub ran: u64,
    /// For each program, in their order, how many runs had which result.
    pub results: Vec<ResultCounts>,
    /// The number of all helper calls that returned null for flags 0, or `-EAGAIN`, without an entry in a ring's
    /// history that explains it. Saturates at `u64::MAX`.
    pub unlogged: u64,
    /// The number of runs that ended with a stray record: always 0, because seats keep the records that they granted.
    pub strays: u64,
    /// Why the stream ended.
    pub end: StreamEnd,
}

/// What is returned from a stream that has no report.
#[derive(Drop)]
pub struct StreamStop<S> {
    /// Why there is no report.
    pub fault: StreamFault,
    /// The number of contexts that the source gave. Saturates at `u64::MAX`.
    pub contexts: u64,
    /// The number of contexts that were dropped. Saturates at `u64::MAX`.
    pub dropped: u64,
    /// The number of contexts that were dealt to a worker, but not run by every program. Saturates at `u64::MAX`.
    pub left: u64,
    /// The rings, which are open.
    pub opened: Vec<Opened<S>>,
}

impl<S> StreamStop<S> {
    // Returns what is returned if nothing was read.
    pub(crate) fn refusal(fault: StreamFault, opened: Vec<Opened<S>>) -> StreamStop<S>
        ensures { result ≡ record { fault = fault; contexts = 0; dropped = 0; left = 0; opened = opened } }
    {
        StreamStop {
            fault,
            contexts: 0,
            dropped: 0,
            left: 0,
            opened,
        }
    }
}
