//! Verified programs, and why others are refused.

ghost use Rattle.std.specs.Prelude.{◌≤◌};

use crate::answer_text::AnswerText;
use crate::decoded::tell_text_fault;
use crate::shapes::tell_shape_fault;
use rb_program::{Program, Shape, from_text, shape};
use rb_verifier::{Refusal, Rule, Verified, verify};
use std::alloc::Global;

/// Writes the properties of a verified program, or why the program is refused, for a context of `ctx_len` bytes
/// and this many rings.
pub(crate) fn answer_verify(
    alloc: Global,
    ctx_len: u64,
    rings: u64,
    hex: &str,
    out: &mut AnswerText,
) {
    if let Some(verified) = verified(alloc, ctx_len, rings, hex, out) {
        out.field("accepted units ", &verified.program().units());
        out.field(" calls ", &verified.calls());
        out.field(" context ", &verified.ctx_len());
        out.field(" rings ", &verified.rings());
    }
}

/// Returns the verified program, or `None` after appending why it is refused.
pub(crate) fn verified(
    alloc: Global,
    ctx_len: u64,
    rings: u64,
    hex: &str,
    out: &mut AnswerText,
) -> Option<Verified> {
    if ctx_len > 65_536 || rings > 16 {
        out.push("out of bounds");
        return None;
    }
    match from_text(alloc, hex) {
        Ok(program) => verified_program(alloc, program, ctx_len as u32, rings as u32, out),
        Err(fault) => {
            tell_text_fault(fault, out);
            None
        }
    }
}

fn verified_program(
    alloc: Global,
    program: Program,
    ctx_len: u32,
    rings: u32,
    out: &mut AnswerText,
) -> Option<Verified>
    requires context { ctx_len ≤ 65536 }
    requires rings { rings ≤ 16 }
{
    match shape(alloc, program) {
        Ok(shape) => verified_shape(alloc, shape, ctx_len, rings, out),
        Err(fault) => {
            tell_shape_fault(fault, out);
            None
        }
    }
}

fn verified_shape(
    alloc: Global,
    shape: Shape,
    ctx_len: u32,
    rings: u32,
    out: &mut AnswerText,
) -> Option<Verified>
    requires context { ctx_len ≤ 65536 }
    requires rings { rings ≤ 16 }
{
    match verify(alloc, shape, ctx_len, rings) {
        Ok(verified) => Some(verified),
        Err(refusal) => {
            tell_refusal(refusal, out);
            None
        }
    }
}

fn tell_refusal(refusal: Refusal, out: &mut AnswerText) {
    match refusal {
        Refusal::Rule { unit, rule } => tell_rule(unit, rule, out),
        Refusal::Memory => out.push("refused memory"),
    }
}

/// Appends the rule that a program breaks, and the unit.
pub(crate) fn tell_rule(unit: u32, rule: Rule, out: &mut AnswerText) {
    out.field("refused verify V", &rule.number());
    out.field(" unit ", &unit);
}
