//! A record that was read from a tape.

/// A record of a tape. Its bytes are borrowed from the input.
#[derive(Clone, Copy, Debug, PartialEq, Eq)]
pub struct Record<'a> {
    /// The position of the record in the ring, in bytes.
    pub pos: u64,
    /// The length of the record in bytes.
    pub len: u32,
    /// Whether the record was discarded.
    pub discarded: bool,
    /// The bytes of the record; none if it was discarded.
    pub bytes: &'a [u8],
}
