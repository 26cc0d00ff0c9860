//! A segment in a listing.

/// A segment, as a store lists it.
#[derive(Clone, Copy, Debug, PartialEq, Eq)]
pub struct StoredSegment {
    /// The position that names it.
    pub position: u64,
    /// Its length in bytes.
    pub length: u64,
}
