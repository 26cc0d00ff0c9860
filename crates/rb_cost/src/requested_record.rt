//! The record that an instruction requests from a ring.

ghost use Rattle.std.specs.Prelude.{◌≡◌, ◌≤◌, ◌^◌, Some};
ghost use Rattle.rb_cost.specs.Requests.{asked_by};
ghost use Rattle.rb_cost.specs.inner.Pass.{IsSmall, weight_in};

use crate::path_quantity::Quantity;
use rb_history::span;
use rb_insn::Insn;
use rb_verifier::{Abs, AbsState, Helper};

/// A record that a CALL requests from a ring.
#[derive(Clone, Copy, Debug, PartialEq, Eq)]
pub(crate) struct RequestedRecord {
    /// The ring's number.
    pub(crate) ring: u32,
    /// The record's length in bytes.
    pub(crate) len: u64,
}

/// Returns the record that an instruction requests, given the abstract state before it, or `None` if it is neither a
/// reserve nor an output.
fn asked_by(insn: &Insn, state: &AbsState) -> Option<RequestedRecord>
    ensures { result ≡ asked_by insn.now state.now }
{
    let Insn::Call { helper } = *insn else {
        return None;
    };
    let [_, ring, second, third, ..] = state.values;
    let len = match Helper::from_number(helper) {
        Some(Helper::Reserve) => second,
        Some(Helper::Output) => third,
        _ => return None,
    };
    match (ring, len) {
        (Abs::Ring(ring), Abs::Known(len)) => Some(RequestedRecord { ring, len }),
        _ => None,
    }
}

/// Returns the instruction's contribution to what is counted along a path.
pub(crate) fn weight(counted: Quantity, insn: &Insn, state: &AbsState) -> u64
    requires { IsSmall (asked_by insn.now state.now) }
    ensures value { result ≡ weight_in counted (Some insn.now) state.now }
    ensures bound { result ≤ 2 ^ 27 }
{
    match counted {
        Quantity::Steps => 1,
        Quantity::Calls => u64::from(matches!(insn, Insn::Call { .. })),
        Quantity::Records(ring) => match asked_by(insn, state) {
            Some(asked) if asked.ring == ring => 1,
            _ => 0,
        },
        Quantity::Bytes(ring) => match asked_by(insn, state) {
            Some(asked) if asked.ring == ring => span(asked.len as u32),
            _ => 0,
        },
    }
}
