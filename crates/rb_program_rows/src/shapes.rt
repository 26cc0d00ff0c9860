//! The shapes of programs.

ghost use Rattle.std.specs.Prelude.{◌<◌, ◌^◌};

use crate::answer_text::AnswerText;
use crate::decoded::{insn_of, tell_bytes, tell_text_fault};
use rb_program::{
    Program, Shape, ShapeFault, ShapeFaultKind, from_text, jump_target, next_unit, shape,
};
use std::alloc::Global;

/// Writes the bytes of a well-shaped program, or why a program is not well-shaped.
pub(crate) fn answer_shape(alloc: Global, hex: &str, out: &mut AnswerText) {
    match from_text(alloc, hex) {
        Ok(program) => tell_shape_of(alloc, program, out),
        Err(fault) => tell_text_fault(fault, out),
    }
}

fn tell_shape_of(alloc: Global, program: Program, out: &mut AnswerText) {
    match shape(alloc, program) {
        Ok(shape) => tell_shape(alloc, &shape, out),
        Err(fault) => tell_shape_fault(fault, out),
    }
}

fn tell_shape(alloc: Global, shape: &Shape, out: &mut AnswerText) {
    out.field("shaped ", &shape.program().units());
    out.push(" units ");
    tell_bytes(alloc, shape.program(), out);
}

/// Appends why a program is not well-shaped.
pub(crate) fn tell_shape_fault(fault: ShapeFault, out: &mut AnswerText) {
    match fault.kind {
        ShapeFaultKind::Memory => out.push("refused memory"),
        kind => {
            out.push("refused shape ");
            out.debug(&kind);
            out.field(" unit ", &fault.unit);
        }
    }
}

/// Writes the next unit after an instruction and the target of its jump, or `none` for either.
pub(crate) fn answer_edges(alloc: Global, unit: u32, hex: &str, out: &mut AnswerText) {
    match insn_of(alloc, hex) {
        None => out.push("no instruction"),
        Some(_) if unit >= 1 << 31 => out.push("no unit"),
        Some(insn) => {
            out.push("next ");
            tell_target(next_unit(unit, &insn), out);
            out.push(" jump ");
            tell_target(jump_target(unit, &insn), out);
        }
    }
}

fn tell_target(unit: Option<u32>, out: &mut AnswerText) {
    match unit {
        Some(unit) => out.show(&unit),
        None => out.push("none"),
    }
}
