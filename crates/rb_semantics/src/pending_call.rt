//! What a pending helper call waits for.

/// What a pending helper call waits for.
#[derive(Clone, Copy, Debug, PartialEq, Eq)]
pub enum PendingCall {
    /// A record of this many bytes, or null.
    Reserve(u32),
    /// Whether a record was taken or is handed back.
    GiveBack,
    /// The return code of an output.
    Output,
    /// The number that a query returns.
    Query,
}
