//! States of the verifier, and how rows write them.

ghost use Rattle.std.specs.Prelude.{◌≤◌, ◌<◌, IsTrue, length};
ghost use Rattle.rb_verifier.specs.References.{AreEarlier};

use crate::answer_text::AnswerText;
use crate::numbers::number_of;
use rb_verifier::{Abs, AbsState, Held, Places, Reference};
use std::alloc::Global;

/// Parses a state: `entry`, or assignments to it, separated by commas. Returns `None` if one is not an assignment.
/// `r3=VALUE` is a register, `p63=VALUE` a slot of the stack without a known number, and `holds=ID:RING:SIZE:sure` or
/// `..:perhaps` a reference. If there is no memory for a slot, there is no state, and the answer is incomplete.
pub(crate) fn state_of(alloc: Global, word: &str, out: &mut AnswerText) -> Option<AbsState> {
    let mut state = AbsState::entry(alloc);
    if word == "entry" || assign_all(&mut state, word, out) {
        Some(state)
    } else {
        None
    }
}

// Performs assignments up to the first word that is none. Returns whether all words are assignments.
fn assign_all(state: &mut AbsState, words: &str, out: &mut AnswerText) -> bool {
    let mut are_assignments = true;
    for word in words.split(',') {
        are_assignments = are_assignments && assign(state, word, out);
    }
    are_assignments
}

// Performs an assignment. Returns false if the word is none.
fn assign(state: &mut AbsState, word: &str, out: &mut AnswerText) -> bool {
    let (name, value) = word.split_once('=').unwrap_or(("", ""));
    if name == "holds" {
        return hold(&mut state.held, value);
    }
    match value_of(value) {
        Some(value) => put(state, name, value, out),
        None => false,
    }
}

// Assigns a value to a register or a slot of the stack. Returns false if the name is of neither.
fn put(state: &mut AbsState, name: &str, value: Abs, out: &mut AnswerText) -> bool {
    if let Some(number) = name.strip_prefix('r') {
        put_register(&mut state.values, number, value)
    } else if let Some(number) = name.strip_prefix('p') {
        put_place(&mut state.places, number, value, out)
    } else {
        false
    }
}

// Assigns a value to a slot of the stack. Returns false if the slot does not exist or the value is a known number.
fn put_place(places: &mut Places, number: &str, value: Abs, out: &mut AnswerText) -> bool {
    let place = number_of(number).unwrap_or(u64::MAX);
    if place > 63 || matches!(value, Abs::Known(_)) {
        return false;
    }
    match places.with_place(place, value) {
        Ok(changed) => {
            *places = changed;
            true
        }
        Err(_) => {
            out.lack();
            false
        }
    }
}

// Assigns a value to a register. Returns false if the register does not exist.
fn put_register(values: &mut [Abs; 11], number: &str, value: Abs) -> bool {
    match number.parse::<usize>() {
        Ok(number) if number < 11 => {
            values[number] = value;
            true
        }
        _ => false,
    }
}

// Adds a reference. Returns false if it is none, not later than those that are held, or a fifth one.
fn hold(held: &mut Held, word: &str) -> bool {
    let Some(reference) = reference_of(word) else {
        return false;
    };
    if held.as_slice().len() == 4 || !are_earlier(reference.id, held) {
        return false;
    }
    *held = held.added(reference);
    true
}

fn reference_of(word: &str) -> Option<Reference> {
    let (id, rest) = word.split_once(':')?;
    let (ring, rest) = rest.split_once(':')?;
    let (size, sure) = rest.split_once(':')?;
    Some(Reference {
        id: id.parse::<u32>().ok()?,
        ring: ring.parse::<u32>().ok()?,
        size: size.parse::<u32>().ok()?,
        sure: sure == "sure",
    })
}

/// Whether all references that are held were reserved before a unit.
pub(crate) fn are_earlier(unit: u32, held: &Held) -> bool
    ensures { IsTrue result → AreEarlier unit held.now }
{
    for reference in held.as_slice() {
        if reference.id >= unit {
            return false;
        }
    }
    true
}

/// Parses what is known of a value: `nothing`, `number`, `known:N`, `context:OFFSET`, `stack:OFFSET`, `ring:N`,
/// `perhaps:ID` or `record:ID:OFFSET`.
pub(crate) fn value_of(word: &str) -> Option<Abs> {
    if word == "nothing" {
        return Some(Abs::Unreadable);
    }
    if word == "number" {
        return Some(Abs::Number);
    }
    let (kind, rest) = word.split_once(':')?;
    match kind {
        "known" => Some(Abs::Known(number_of(rest)?)),
        "context" => Some(Abs::Ctx(rest.parse::<i64>().ok()?)),
        "stack" => Some(Abs::Stack(rest.parse::<i64>().ok()?)),
        "ring" => Some(Abs::Ring(rest.parse::<u32>().ok()?)),
        "perhaps" => Some(Abs::Perhaps(rest.parse::<u32>().ok()?)),
        "record" => {
            let (id, offset) = rest.split_once(':')?;
            Some(Abs::Record(id.parse::<u32>().ok()?, offset.parse::<i64>().ok()?))
        }
        _ => None,
    }
}
