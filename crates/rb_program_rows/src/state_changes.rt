//! Changes of a verifier state.

use crate::answer_text::AnswerText;
use rb_verifier::{Abs, AbsState, Reference};

// Appends a value, as rows write it.
fn tell_value(value: Abs, out: &mut AnswerText) {
    match value {
        Abs::Unreadable => out.push("nothing"),
        Abs::Number => out.push("number"),
        Abs::Known(number) => out.field("known:", &number),
        Abs::Ctx(offset) => out.field("context:", &offset),
        Abs::Stack(offset) => out.field("stack:", &offset),
        Abs::Ring(ring) => out.field("ring:", &ring),
        Abs::Perhaps(id) => out.field("perhaps:", &id),
        Abs::Record(id, offset) => {
            out.field("record:", &id);
            out.field(":", &offset);
        }
    }
}

/// Appends each register, each slot of the stack and the references in which a state differs from the one before, or
/// nothing if none does.
pub(crate) fn tell_changes(before: &AbsState, state: &AbsState, out: &mut AnswerText) {
    for register in 0..11 {
        let value = state.values[register];
        if value != before.values[register] {
            tell_change(" r", register as u64, value, out);
        }
    }
    for place in 0..64 {
        let value = state.places.get(place);
        if value != before.places.get(place) {
            tell_change(" p", place, value, out);
        }
    }
    if state.held.as_slice() != before.held.as_slice() {
        tell_held(state.held.as_slice(), out);
    }
}

fn tell_change(kind: &str, number: u64, value: Abs, out: &mut AnswerText) {
    out.field(kind, &number);
    out.push("=");
    tell_value(value, out);
}

// Appends the references that are held.
fn tell_held(held: &[Reference], out: &mut AnswerText) {
    if held.is_empty() {
        out.push(" holds=none");
    }
    for reference in held {
        out.field(" holds=", &reference.id);
        out.field(":", &reference.ring);
        out.field(":", &reference.size);
        out.push(if reference.sure { ":sure" } else { ":perhaps" });
    }
}
