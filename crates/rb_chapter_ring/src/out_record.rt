//! The contents of a hand.

/// A record in a hand: it was granted, and neither submitted nor discarded since.
#[derive(Clone, Copy, Debug, PartialEq, Eq)]
pub struct OutRecord {
    /// The position of the record.
    pub pos: u64,
    /// The serial of the record among its worker's records.
    pub serial: u64,
    /// The length of the record in bytes.
    pub len: u32,
}
