//! The result of an instruction for two numbers.

use crate::answer_text::AnswerText;
use crate::decoded::insn_of;
use rb_insn::{Insn, jumps, value};
use std::alloc::Global;

/// Writes the value that an arithmetic instruction computes, or whether a conditional one jumps, if its registers
/// hold these numbers.
pub(crate) fn answer_compute(alloc: Global, dst: u64, src: u64, hex: &str, out: &mut AnswerText) {
    match insn_of(alloc, hex) {
        Some(insn) => tell_computed(&insn, dst, src, out),
        None => out.push("no instruction"),
    }
}

fn tell_computed(insn: &Insn, dst: u64, src: u64, out: &mut AnswerText) {
    match *insn {
        Insn::Move { .. }
        | Insn::MoveExtended32 { .. }
        | Insn::MoveExtended64 { .. }
        | Insn::Negate { .. }
        | Insn::Reorder { .. }
        | Insn::Division { .. }
        | Insn::Binary { .. } => out.hex(value(insn, dst, src)),
        Insn::Branch { .. } => out.push(way_of(jumps(insn, dst, src))),
        _ => out.push("computes nothing"),
    }
}

fn way_of(jumps: bool) -> &'static str {
    if jumps { "jumps" } else { "goes on" }
}
