//! The faults of bytes that are not a tape.

use thiserror::Error;

/// The kinds of faults of a tape's record.
///
/// `Busy`, `Page` and `TooLong` are reported as soon as the record's header is available, in this order; then
/// `DiscardedBytes` and `Padding` once all its bytes are. `Truncated` is reported only at the end of the input, if the
/// bytes show none of these.
#[derive(Clone, Copy, Debug, PartialEq, Eq, Error)]
pub enum TapeKind {
    /// The header has the busy bit. A taken record never has it.
    #[error("busy")]
    Busy,
    /// The header names another page than that of the record's position.
    #[error("page")]
    Page,
    /// The bytes that pad the record to a multiple of eight are not all zeros.
    #[error("padding")]
    Padding,
    /// The record does not fit in the ring, or ends past 2^62.
    #[error("too long")]
    TooLong,
    /// The bytes of a discarded record are not all zeros.
    #[error("discarded bytes")]
    DiscardedBytes,
    /// The input ends inside the record.
    #[error("truncated")]
    Truncated,
    /// Memory for the piece could not be allocated. Only `Feed::feed` returns this.
    #[error("out of memory")]
    Memory,
}

/// A fault of a tape, and the record that has it.
#[derive(Clone, Copy, Debug, PartialEq, Eq, Error)]
#[error("{kind} at {offset}")]
pub struct TapeFault {
    /// The kind of the fault.
    pub kind: TapeKind,
    /// The number of bytes of the tape before the record.
    pub offset: u64,
}
