//! Explanations as JSON objects, one a line: units with the states before them, and faults.

ghost use Rattle.std.specs.Prelude.{◌≡◌, ◌<◌, ◌++◌, Some, OnOk, string_bytes};
ghost use Rattle.std.specs.List.{flat_map};
ghost use Rattle.rb_explain.specs.Objects as objects;
ghost use Rattle.rb_explain.specs.Objects.{bytes_object, fault_object, held_value, insn_fields, known_fields, known_object, place_field, place_fields, record_field, register_field, register_fields, unit_object};

use crate::Assembly;
use crate::lines::helper_name;
use crate::state_lines::{Kept, RegisterValue, is_data, is_readable};
use rb_insn::Insn;
use rb_verifier::{Abs, AbsState, Held, Helper, Reference};
use std::alloc::{AllocError, Global};
use std::fmt;
use std::fmt::Write;

// The field of a call's helper, after a comma.
#[derive(Clone, Copy)]
struct HelperField(Insn);

impl fmt::Display for HelperField {
    ghost output = { λ field. Some (objects.helper_field field.0) };

    fn fmt<W: fmt::Write>(&self, f: &mut fmt::Formatter<W>) -> fmt::Result {
        match self.0 {
            Insn::Call { helper } => match Helper::from_number(helper) {
                Some(helper) => write!(f, ",\"helper\":\"{}\"", helper_name(helper)),
                None => f.write_str(",\"helper\":null"),
            },
            _ => f.write_str(""),
        }
    }
}

// Appends the fields of an instruction at a unit.
fn push_insn_fields(
    alloc: Global,
    text: &mut String,
    unit: u32,
    insn: &Insn,
) -> Result<(), AllocError>
    ensures added { OnOk result (string_bytes text.new ≡ string_bytes text.old ++ insn_fields unit insn.now) }
{
    let mut spelling = [0; 16];
    let count = insn.spell(&mut spelling);
    let bytes = hex::encode(alloc, &spelling[..count])?;
    let (assembly, helper) = (Assembly(*insn), HelperField(*insn));
    write!(
        text,
        "{{\"unit\":{unit},\"bytes\":\"{bytes}\",\"assembly\":\"{assembly}\"{helper}"
    )
}

/// Appends the object of the instruction at a unit: `unit`, `bytes`, `assembly` and, for a call, `helper`.
pub(crate) fn push_unit_object(
    alloc: Global,
    text: &mut String,
    unit: u32,
    insn: &Insn,
) -> Result<(), AllocError>
    ensures added { OnOk result (string_bytes text.new ≡ string_bytes text.old ++ unit_object unit insn.now) }
{
    push_insn_fields(alloc, text, unit, insn)?;
    text.push_str("}\n")
}

/// Appends the same object with `known`, the state before the instruction.
pub(crate) fn push_known_object(
    alloc: Global,
    text: &mut String,
    state: &AbsState,
    unit: u32,
    insn: &Insn,
) -> Result<(), AllocError>
    ensures added { OnOk result (string_bytes text.new ≡ string_bytes text.old ++ known_object state.now unit insn.now) }
{
    push_insn_fields(alloc, text, unit, insn)?;
    push_known(text, state)
}

/// Appends the object of a unit that is not an instruction: `unit` and `bytes`.
pub(crate) fn push_bytes_object(
    alloc: Global,
    text: &mut String,
    unit: u32,
    bytes: &[u8],
) -> Result<(), AllocError>
    ensures added { OnOk result (string_bytes text.new ≡ string_bytes text.old ++ bytes_object unit bytes.now) }
{
    let bytes = hex::encode(alloc, bytes)?;
    write!(text, "{{\"unit\":{unit},\"bytes\":\"{bytes}\"}}\n")
}

/// Appends the object of a fault: `layer`, `fault`, `unit` and `advice`.
pub(crate) fn push_fault_object(
    text: &mut String,
    layer: &str,
    name: &str,
    unit: u32,
    advice: &str,
) -> Result<(), AllocError>
    ensures added { OnOk result (string_bytes text.new ≡ string_bytes text.old ++ fault_object layer.now name.now unit advice.now) }
{
    write!(
        text,
        "{{\"layer\":\"{layer}\",\"fault\":\"{name}\",\"unit\":{unit},\"advice\":\"{advice}\"}}\n"
    )
}

// The value of a register, or null if it must not be read.
#[derive(Clone, Copy)]
struct HeldValue<'a> {
    held: &'a Held,
    value: Abs,
}

impl fmt::Display for HeldValue<'_> {
    ghost output = { λ shown. Some (held_value shown.held.now shown.value) };

    fn fmt<W: fmt::Write>(&self, f: &mut fmt::Formatter<W>) -> fmt::Result {
        let HeldValue { held, value } = *self;
        if is_readable(value) {
            write!(f, "\"{}\"", RegisterValue { held, value })
        } else {
            f.write_str("null")
        }
    }
}

fn comma_before(number: usize) -> &'static str
    ensures { result.now ≡ objects.comma_before number }
{
    if number == 0 { "" } else { "," }
}

// Appends the field of a register.
fn push_register(text: &mut String, state: &AbsState, register: usize) -> Result<(), AllocError>
    requires { register < 11 }
    ensures added { OnOk result (string_bytes text.new ≡ string_bytes text.old ++ register_field state.now register) }
{
    let shown = HeldValue {
        held: &state.held,
        value: state.values[register],
    };
    let comma = comma_before(register);
    write!(text, "{comma}\"r{register}\":{shown}")
}

// Appends the fields of all registers.
#[tactic(auto, using(crate::proofs::Joining::joins), unfolding(crate::specs::Objects::register_fields))]
fn push_registers(text: &mut String, state: &AbsState) -> Result<(), AllocError>
    ensures added { OnOk result (string_bytes text.new ≡ string_bytes text.old ++ register_fields state.now) }
{
    for register in 0..11 {
        push_register(text, state, register)?;
    }
    Ok(())
}

// Appends the field of a place of the stack (an aligned 8-byte slot), if it may hold a pointer. `behind` counts the
// places after it.
fn push_place(text: &mut String, state: &AbsState, behind: u64) -> Result<(), AllocError>
    requires { behind < 64 }
    ensures added { OnOk result (string_bytes text.new ≡ string_bytes text.old ++ place_field state.now behind) }
{
    let value = state.places.get(63 - behind);
    let held = &state.held;
    if is_data(value) {
        text.push_str("")
    } else {
        write!(
            text,
            ",\"fp-{}\":\"{}\"",
            8 * behind + 8,
            Kept { held, value }
        )
    }
}

// Appends the fields of all places of the stack that may hold a pointer.
#[tactic(auto, using(crate::proofs::Joining::joins), unfolding(crate::specs::Objects::place_fields))]
fn push_places(text: &mut String, state: &AbsState) -> Result<(), AllocError>
    ensures added { OnOk result (string_bytes text.new ≡ string_bytes text.old ++ place_fields state.now) }
{
    for behind in 0..64 {
        push_place(text, state, behind)?;
    }
    Ok(())
}

fn truth(holds: bool) -> &'static str
    ensures { result.now ≡ objects.truth holds }
{
    if holds { "true" } else { "false" }
}

// The field of a record that must be submitted or discarded, after a comma.
#[derive(Clone, Copy)]
struct RecordField(Reference);

impl fmt::Display for RecordField {
    ghost output = { λ field. Some (record_field field.0) };

    fn fmt<W: fmt::Write>(&self, f: &mut fmt::Formatter<W>) -> fmt::Result {
        let Reference {
            id,
            ring,
            size,
            sure,
        } = self.0;
        let tested = truth(sure);
        write!(
            f,
            ",\"record {id}\":{{\"bytes\":{size},\"ring\":{ring},\"tested\":{tested}}}"
        )
    }
}

fn push_record(text: &mut String, reference: &Reference) -> Result<(), AllocError>
    ensures added { OnOk result (string_bytes text.new ≡ string_bytes text.old ++ record_field reference.now) }
{
    write!(text, "{}", RecordField(*reference))
}

// Appends the fields of all records that must be submitted or discarded.
#[tactic(auto, using(crate::proofs::Joining::joins_item))]
fn push_records(text: &mut String, held: &[Reference]) -> Result<(), AllocError>
    ensures added { OnOk result (string_bytes text.new ≡ string_bytes text.old ++ flat_map record_field held.now) }
{
    for reference in held {
        push_record(text, reference)?;
    }
    Ok(())
}

// Appends the state before an instruction, and the end of its object.
#[tactic(auto, using(crate::proofs::Joining::five))]
fn push_known(text: &mut String, state: &AbsState) -> Result<(), AllocError>
    ensures added { OnOk result (string_bytes text.new ≡ string_bytes text.old ++ known_fields state.now) }
{
    text.push_str(",\"known\":{")?;
    push_registers(text, state)?;
    push_places(text, state)?;
    push_records(text, state.held.as_slice())?;
    text.push_str("}}\n")
}
