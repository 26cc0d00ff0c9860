//! The line with the abstract state before an instruction.

ghost use Rattle.std.specs.Prelude.{◌≡◌, ◌<◌, ◌++◌, Some, OnOk, string_bytes};
ghost use Rattle.std.specs.List.{flat_map};
ghost use Rattle.rb_explain.specs.StateTexts.{size_text, value_text, register_in, registers_text, kept_text, place_in, places_text, tested_text, reference_text, state_text};
ghost use Rattle.rb_explain.specs.StateTexts as texts;
ghost use Rattle.rb_verifier.specs.KeptPointers as kept;

use rb_verifier::{Abs, AbsState, Held, Reference};
use std::alloc::AllocError;
use std::fmt;
use std::fmt::Write;

// The length of a record, if it is held.
#[derive(Clone, Copy)]
struct RecordSize(Option<Reference>);

impl fmt::Display for RecordSize {
    ghost output = { λ size. Some (size_text size.0) };

    fn fmt<W: fmt::Write>(&self, f: &mut fmt::Formatter<W>) -> fmt::Result {
        match self.0 {
            Some(reference) => write!(f, " of {} bytes", reference.size),
            None => f.write_str(""),
        }
    }
}

/// The value of a register.
#[derive(Clone, Copy)]
pub(crate) struct RegisterValue<'a> {
    pub(crate) held: &'a Held,
    pub(crate) value: Abs,
}

impl fmt::Display for RegisterValue<'_> {
    ghost output = { λ shown. Some (value_text shown.held.now shown.value) };

    fn fmt<W: fmt::Write>(&self, f: &mut fmt::Formatter<W>) -> fmt::Result {
        match self.value {
            Abs::Unreadable => f.write_str("nothing"),
            Abs::Number => f.write_str("number"),
            Abs::Known(number) => write!(f, "{}", number.cast_signed()),
            Abs::Ctx(offset) => write!(f, "context{offset:+}"),
            Abs::Stack(offset) => write!(f, "stack{offset:+}"),
            Abs::Ring(ring) => write!(f, "ring {ring}"),
            Abs::Perhaps(id) => write!(f, "null or record {id}{}", RecordSize(self.held.get(id))),
            Abs::Record(id, offset) => write!(
                f,
                "record {id}{offset:+}{}",
                RecordSize(self.held.get(id))
            ),
        }
    }
}

/// Returns whether a register with this abstract value may be read.
pub(crate) fn is_readable(value: Abs) -> bool
    ensures { result ≡ texts.is_readable value }
{
    match value {
        Abs::Unreadable => false,
        _ => true,
    }
}

// Appends a register with its value, if it may be read.
fn push_register(text: &mut String, state: &AbsState, register: usize) -> Result<(), AllocError>
    requires { register < 11 }
    ensures added { OnOk result (string_bytes text.new ≡ string_bytes text.old ++ register_in state.now register) }
{
    let value = state.values[register];
    let held = &state.held;
    if is_readable(value) {
        write!(text, "  r{register} = {}", RegisterValue { held, value })
    } else {
        text.push_str("")
    }
}

/// The content of a place of the stack (an aligned 8-byte slot).
#[derive(Clone, Copy)]
pub(crate) struct Kept<'a> {
    pub(crate) held: &'a Held,
    pub(crate) value: Abs,
}

impl fmt::Display for Kept<'_> {
    ghost output = { λ shown. Some (kept_text shown.held.now shown.value) };

    fn fmt<W: fmt::Write>(&self, f: &mut fmt::Formatter<W>) -> fmt::Result {
        let Kept { held, value } = *self;
        match value {
            Abs::Unreadable => f.write_str("mixed"),
            _ => RegisterValue { held, value }.fmt(f),
        }
    }
}

/// Returns whether an abstract value is data and not a pointer.
pub(crate) fn is_data(value: Abs) -> bool
    ensures { result ≡ kept.is_data value }
{
    match value {
        Abs::Number | Abs::Known(_) => true,
        _ => false,
    }
}

// Appends a place of the stack with its content, if it may hold a pointer. `behind` counts the places after it.
fn push_place(text: &mut String, state: &AbsState, behind: u64) -> Result<(), AllocError>
    requires { behind < 64 }
    ensures added { OnOk result (string_bytes text.new ≡ string_bytes text.old ++ place_in state.now behind) }
{
    let value = state.places.get(63 - behind);
    let held = &state.held;
    if is_data(value) {
        text.push_str("")
    } else {
        write!(text, "  fp-{} = {}", 8 * behind + 8, Kept { held, value })
    }
}

// Whether a record was tested against null.
#[derive(Clone, Copy)]
struct Tested(bool);

impl fmt::Display for Tested {
    ghost output = { λ tested. Some (tested_text tested.0) };

    fn fmt<W: fmt::Write>(&self, f: &mut fmt::Formatter<W>) -> fmt::Result {
        f.write_str(if self.0 { "" } else { ", or null" })
    }
}

// A record that must be submitted or discarded.
#[derive(Clone, Copy)]
struct Holding(Reference);

impl fmt::Display for Holding {
    ghost output = { λ holding. Some (reference_text holding.0) };

    fn fmt<W: fmt::Write>(&self, f: &mut fmt::Formatter<W>) -> fmt::Result {
        let Reference {
            id,
            ring,
            size,
            sure,
        } = self.0;
        let tested = Tested(sure);
        write!(
            f,
            "  holds record {id} of {size} bytes in ring {ring}{tested}"
        )
    }
}

fn push_reference(text: &mut String, reference: &Reference) -> Result<(), AllocError>
    ensures added { OnOk result (string_bytes text.new ≡ string_bytes text.old ++ reference_text reference.now) }
{
    write!(text, "{}", Holding(*reference))
}

// Appends all registers that may be read.
#[tactic(auto, using(crate::proofs::Joining::joins), unfolding(crate::specs::StateTexts::registers_text))]
fn push_registers(text: &mut String, state: &AbsState) -> Result<(), AllocError>
    ensures added { OnOk result (string_bytes text.new ≡ string_bytes text.old ++ registers_text state.now) }
{
    for register in 0..11 {
        push_register(text, state, register)?;
    }
    Ok(())
}

// Appends all places of the stack that may hold a pointer.
#[tactic(auto, using(crate::proofs::Joining::joins), unfolding(crate::specs::StateTexts::places_text))]
fn push_places(text: &mut String, state: &AbsState) -> Result<(), AllocError>
    ensures added { OnOk result (string_bytes text.new ≡ string_bytes text.old ++ places_text state.now) }
{
    for behind in 0..64 {
        push_place(text, state, behind)?;
    }
    Ok(())
}

// Appends all records that must be submitted or discarded.
#[tactic(auto, using(crate::proofs::Joining::joins_item))]
fn push_references(text: &mut String, held: &[Reference]) -> Result<(), AllocError>
    ensures added { OnOk result (string_bytes text.new ≡ string_bytes text.old ++ flat_map reference_text held.now) }
{
    for reference in held {
        push_reference(text, reference)?;
    }
    Ok(())
}

#[tactic(auto, using(crate::proofs::Joining::five))]
/// Appends the line with the state before an instruction.
pub(crate) fn push_state(text: &mut String, state: &AbsState) -> Result<(), AllocError>
    ensures added { OnOk result (string_bytes text.new ≡ string_bytes text.old ++ state_text state.now) }
{
    text.push_str("      #")?;
    push_registers(text, state)?;
    push_places(text, state)?;
    push_references(text, state.held.as_slice())?;
    text.push_str("\n")
}
