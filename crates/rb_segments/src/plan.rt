//! When segments are closed and deleted.

/// When segments are closed and deleted.
#[derive(Clone, Copy, Debug, PartialEq, Eq)]
pub struct SegmentPlan {
    /// A segment is closed at a record's end once it has at least this many bytes.
    pub segment: u64,
    /// The oldest closed segments are deleted until the rest has at most this many bytes. `u64::MAX` keeps all.
    pub keep: u64,
}
