//! What the calls of a ring return.

use rb_lend::Sheet;
use thiserror::Error;

/// Whether the consumer is to be notified of a record (bpf-helpers(7): the notification of new data availability).
#[derive(Clone, Copy, Debug, PartialEq, Eq)]
pub enum Notice {
    /// A notification is due.
    Due,
    /// No notification is due.
    NotDue,
}

/// Why a ring that keeps its whole history did not grant a record. The refused call returns the sheet (the record's
/// byte buffer).
#[derive(Clone, Copy, Debug, Error, PartialEq, Eq)]
pub enum NoGrant {
    /// The ring has no room for the record. The refusal is logged.
    #[error("the ring has no room")]
    Full,
    /// Memory could not be allocated. Nothing changed.
    #[error("out of memory")]
    Memory,
    /// The flags of an `output` are greater than 3. Nothing changed.
    #[error("unknown flags")]
    Flags,
}

/// What a take (the consumer's call for the next record) found at the consumer position.
#[derive(Drop)]
pub enum Taken {
    /// A submitted record was taken: its position, worker, serial and bytes.
    Event(u64, u32, u64, Sheet),
    /// A discarded record was skipped: its position, and its length in bytes.
    Skipped(u64, u32),
    /// The record at the consumer position is busy: it was neither submitted nor discarded yet. Nothing changed.
    BusyFront,
    /// There is no record. Nothing changed.
    Empty,
}

/// The numbers of reservations in a ring's history: granted, refused for lack of room, and the granted ones by status.
/// `made` is the sum of the last four.
#[derive(Clone, Copy, Debug, PartialEq, Eq)]
pub struct Counts {
    /// Records that were granted.
    pub made: u64,
    /// Reservations and outputs that were refused for lack of room.
    pub refused: u64,
    /// Records that were submitted and taken.
    pub consumed: u64,
    /// Records that were discarded, whether skipped by a take yet or not.
    pub discarded: u64,
    /// Records that were submitted and not taken yet.
    pub waiting: u64,
    /// Records that were neither submitted nor discarded yet.
    pub busy: u64,
}
