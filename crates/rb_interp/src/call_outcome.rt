//! The result of executing a call or an exit.

/// The result of executing a call or an exit.
#[derive(Clone, Copy)]
pub(crate) enum CallOutcome {
    /// The call was made, and the instruction after it comes next.
    WentOn,
    /// The program ended with this result.
    Ended(u64),
    /// The record of a submit or a discard was handed back.
    Strayed,
}
