//! Programs as assembly.

use crate::answer_text::AnswerText;
use crate::decoded::tell_text_fault;
use rb_explain::Assembly;
use rb_program::{Program, from_text};
use std::alloc::Global;

/// Writes a program's instructions as assembly.
pub(crate) fn answer_assembly(alloc: Global, hex: &str, out: &mut AnswerText) {
    match from_text(alloc, hex) {
        Ok(program) => tell_assembly(&program, out),
        Err(fault) => tell_text_fault(fault, out),
    }
}

fn tell_assembly(program: &Program, out: &mut AnswerText) {
    let mut gap = "";
    for unit in 0..program.units() {
        if let Some(insn) = program.at(unit) {
            out.field(gap, &Assembly(*insn));
            gap = " ; ";
        }
    }
}
