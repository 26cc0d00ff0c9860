//! The costs of programs.

use crate::answer_text::AnswerText;
use crate::verified::verified;
use rb_cost::{RingCost, cost_of};
use rb_verifier::Verified;
use std::alloc::Global;

/// Writes the maximum cost of a verified program, or why the program is refused, for a context of `ctx_len` bytes
/// and this many rings.
pub(crate) fn answer_cost(
    alloc: Global,
    ctx_len: u64,
    rings: u64,
    hex: &str,
    out: &mut AnswerText,
) {
    if let Some(verified) = verified(alloc, ctx_len, rings, hex, out) {
        tell_cost(alloc, &verified, out);
    }
}

fn tell_cost(alloc: Global, verified: &Verified, out: &mut AnswerText) {
    match cost_of(alloc, verified) {
        Ok(cost) => {
            out.field("steps ", &cost.steps);
            out.field(" calls ", &cost.calls);
            for (ring, of_ring) in cost.rings.iter().enumerate() {
                out.field("; ring ", &ring);
                tell_ring_cost(of_ring, out);
            }
        }
        Err(_) => out.lack(),
    }
}

fn tell_ring_cost(cost: &RingCost, out: &mut AnswerText) {
    out.field(" records ", &cost.records);
    out.field(" bytes ", &cost.bytes);
    out.field(" held ", &cost.held_records);
    out.field(" ", &cost.held_bytes);
}
