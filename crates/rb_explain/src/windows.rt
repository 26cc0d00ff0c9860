//! The lines around a fault.

ghost use Rattle.std.specs.Prelude.{◌≡◌, ◌+◌, ◌*◌, ◌<◌, ◌≤◌, ◌%◌, ◌++◌, List, IfOk, OnOk, length, take, string_bytes};
ghost use Rattle.rb_insn.specs.declared.insn.Insn.{Insn};
ghost use Rattle.rb_program.specs.Program.{IsProgram, unit_count};
ghost use Rattle.rb_insn.specs.Spelling.{SpellsAll};
ghost use Rattle.rb_explain.specs.Joined.{joined_below};
ghost use Rattle.rb_explain.specs.Explanations.{is_near_unit, mark_under, near_line, near_text, window, raw_line, raw_text, ShowsUnits};

use crate::lines::{push_bytes, push_line};
use crate::objects::{push_bytes_object, push_unit_object};
use rb_insn::Insn;
use rb_json::LineForm;
use rb_program::{Program, decode};
use std::alloc::{AllocError, Global};

/// How many units are shown before a fault, and how many after it.
const NEAR: u32 = 4;

/// How many units are shown, from the faulty one on, for bytes that are not a program.
const RAW: u32 = 3;

fn is_near_to(at: u32, unit: u32) -> bool
    requires at { at ≤ 4096 }
    requires unit { unit ≤ 4096 }
    ensures { result ≡ is_near_unit at unit }
{
    unit <= at + NEAR && at <= unit + NEAR
}

// Returns the mark that is printed below the faulty unit.
fn mark_of(at: u32, unit: u32) -> &'static str
    ensures { result.now ≡ mark_under at unit }
{
    if unit == at { "   ^\n" } else { "" }
}

// Appends an instruction; in words, with the mark below it if it has the fault.
fn push_insn(
    alloc: Global,
    text: &mut String,
    form: LineForm,
    at: u32,
    unit: u32,
    insn: &Insn,
) -> Result<(), AllocError>
    ensures added { OnOk result (string_bytes text.new ≡ string_bytes text.old ++ near_text form at unit insn.now) }
{
    match form {
        LineForm::Words => {
            push_line(alloc, text, unit, insn)?;
            text.push_str(mark_of(at, unit))
        }
        LineForm::Json => push_unit_object(alloc, text, unit, insn),
    }
}

// Appends the instruction that begins at a unit, if one does and it is near the fault.
fn push_near(
    alloc: Global,
    text: &mut String,
    form: LineForm,
    program: &Program,
    at: u32,
    unit: u32,
) -> Result<(), AllocError>
    requires at { at ≤ 4096 }
    requires unit { unit ≤ 4096 }
    ensures added { OnOk result (string_bytes text.new ≡ string_bytes text.old ++ near_line form program.now at unit) }
{
    match program.at(unit) {
        Some(insn) if is_near_to(at, unit) => push_insn(alloc, text, form, at, unit, insn),
        _ => text.push_str(""),
    }
}

#[tactic(auto, using(crate::proofs::Joining::joins))]
/// Appends the lines around a unit; in words, with the mark below it.
pub(crate) fn push_window(
    alloc: Global,
    text: &mut String,
    form: LineForm,
    program: &Program,
    at: u32,
) -> Result<(), AllocError>
    requires { at ≤ 4096 }
    ensures added { OnOk result (string_bytes text.new ≡ string_bytes text.old ++ window form program.now at) }
{
    program.facts();
    for unit in 0..program.units() {
        push_near(alloc, text, form, program, at, unit)?;
    }
    Ok(())
}

// Appends the bytes of a unit that was not decoded; in words, with the mark below it if it has the fault.
fn push_raw(
    alloc: Global,
    text: &mut String,
    form: LineForm,
    at: u32,
    unit: u32,
    bytes: &[u8],
) -> Result<(), AllocError>
    ensures added { OnOk result (string_bytes text.new ≡ string_bytes text.old ++ raw_text form at unit bytes.now) }
{
    match form {
        LineForm::Words => {
            push_bytes(alloc, text, unit, bytes)?;
            text.push_str(mark_of(at, unit))
        }
        LineForm::Json => push_bytes_object(alloc, text, unit, bytes),
    }
}

// Appends the bytes of a unit like `push_raw`, if the unit exists.
fn push_raw_at(
    alloc: Global,
    text: &mut String,
    form: LineForm,
    bytes: &[u8],
    at: u32,
    unit: u32,
) -> Result<(), AllocError>
    requires whole { length bytes.now % 8 ≡ 0 }
    requires unit { unit ≤ 8192 }
    ensures added { OnOk result (string_bytes text.new ≡ string_bytes text.old ++ raw_line form bytes.now at unit) }
{
    let start = 8 * unit as usize;
    if start < bytes.len() {
        push_raw(alloc, text, form, at, unit, &bytes[start..start + 8])
    } else {
        text.push_str("")
    }
}

// Appends the bytes of the units from the faulty one on.
#[tactic(auto, using(crate::proofs::Joining::joins))]
fn push_raws(
    alloc: Global,
    text: &mut String,
    form: LineForm,
    bytes: &[u8],
    at: u32,
) -> Result<(), AllocError>
    requires whole { length bytes.now % 8 ≡ 0 }
    requires at { at ≤ 4096 }
    ensures added { OnOk result (string_bytes text.new ≡ string_bytes text.old ++ joined_below (λ k. raw_line form bytes.now at (at + k)) 3) }
{
    for k in 0..RAW {
        push_raw_at(alloc, text, form, bytes, at, at + k)?;
    }
    Ok(())
}

/// Returns the program that these bytes encode; the only possible error is a failed allocation.
pub(crate) fn decode_again(alloc: Global, bytes: &[u8]) -> Result<Program, AllocError>
    ensures spelled { IfOk result (λ program. SpellsAll program bytes.now) }
    ensures same { (program : List Insn) → IsProgram program → SpellsAll program bytes.now → IfOk result (λ found. found ≡ program) }
{
    match decode(alloc, bytes) {
        Ok(program) => Ok(program),
        Err(_) => Err(AllocError),
    }
}

// Appends the lines before a fault.
fn push_front(
    alloc: Global,
    text: &mut String,
    form: LineForm,
    bytes: &[u8],
    at: u32,
) -> Result<(), AllocError>
    requires inside { 8 * at ≤ length bytes.now }
    requires at { at ≤ 4096 }
    ensures added { OnOk result ((front : List Insn) × SpellsAll front (take (8 * at) bytes.now)
        × (string_bytes text.new ≡ string_bytes text.old ++ window form front at)) }
{
    if at == 0 {
        return text.push_str("");
    }
    let front = decode_again(alloc, &bytes[..8 * at as usize])?;
    push_window(alloc, text, form, &front, at)
}

/// Returns the lines before a decode fault, and the bytes of the units from the faulty one on.
pub(crate) fn units_text(
    alloc: Global,
    form: LineForm,
    bytes: &[u8],
    at: u32,
) -> Result<String, AllocError>
    requires inside { 8 * at < length bytes.now }
    requires whole { length bytes.now % 8 ≡ 0 }
    requires at { at ≤ 4096 }
    ensures shown { IfOk result (λ text. ShowsUnits form bytes.now at (string_bytes text)) }
{
    let mut text = String::new(alloc);
    push_front(alloc, &mut text, form, bytes, at)?;
    push_raws(alloc, &mut text, form, bytes, at)?;
    Ok(text)
}
