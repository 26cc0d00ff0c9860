//! The entries of a history.

/// One step of a ring's history. An entry names a worker by its number, counted from 0, and a record by its position in
/// bytes.
#[derive(Clone, Copy, Debug, PartialEq, Eq)]
pub enum Entry {
    /// `Res(w, k, n, p)`: worker `w`, which had been granted `k` records by this ring, was granted a record of `n`
    /// bytes at position `p`.
    Res(u32, u64, u32, u64),
    /// `Full(w, n)`: worker `w` requested a record of `n` bytes, and the ring had no room.
    Full(u32, u32),
    /// The record at this position was submitted.
    Sub(u64),
    /// The record at this position was discarded.
    Dis(u64),
    /// The consumer took the record at this position: it received a submitted record, or skipped a discarded one.
    Take(u64),
}
