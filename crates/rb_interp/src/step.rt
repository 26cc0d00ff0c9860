//! The result of a step, and what comes next.

use crate::request::Request;
use rb_semantics::PendingCall;

/// The result of a step.
#[derive(Drop)]
pub enum Step<R> {
    /// The step executed an instruction, and another one comes next.
    Went,
    /// The program ended with this result.
    Exit(u64),
    /// The program made a call, and waits for its answer.
    Call(Request<R>),
}

/// What comes next.
#[derive(Clone, Copy, Debug, PartialEq, Eq)]
pub enum Phase {
    /// An instruction.
    Ready,
    /// The answer to a helper call.
    Waiting(PendingCall),
    /// Nothing: the program ended with this result.
    Exited(u64),
    /// Nothing: a record was handed back.
    Strayed,
}
