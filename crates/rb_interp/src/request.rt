//! The helper calls of a program, and their answers.

/// A helper call of a program. It owns the record that is submitted or discarded; the bytes of an output are borrowed
/// from the machine that made the call.
#[derive(Drop)]
pub enum Request<R> {
    /// Reserves a record of `len` bytes of a ring.
    Reserve { ring: u32, len: u32, flags: u64 },
    /// Submits a record to be consumed.
    Submit { owned: R, flags: u64 },
    /// Discards a record, which the consumer skips.
    Discard { owned: R, flags: u64 },
    /// Outputs a copy of bytes to a ring.
    Output { ring: u32, flags: u64 },
    /// Requests a number of a ring.
    Query { ring: u32, what: u64 },
}

/// The answer to a helper call.
#[derive(Drop)]
pub enum Answer<R> {
    /// A reserve granted this record.
    Granted(R),
    /// A reserve granted no record.
    Null,
    /// A submit or a discard took the record.
    Taken,
    /// A submit or a discard handed the record back.
    HandedBack,
    /// The return code of an output: 0, or a negated error number.
    Code(i64),
    /// The number that a query returned.
    Told(u64),
}
