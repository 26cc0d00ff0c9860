//! The quantities that are counted along a path.

/// A quantity that is counted along a path.
#[derive(Clone, Copy, Debug, PartialEq, Eq)]
pub(crate) enum Quantity {
    /// The instructions.
    Steps,
    /// The helper calls.
    Calls,
    /// The records that the calls request from the ring with this number.
    Records(u32),
    /// The bytes that those records occupy.
    Bytes(u32),
}
