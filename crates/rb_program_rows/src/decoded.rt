//! Decoding bytes and texts.

use crate::answer_text::AnswerText;
use crate::bytes::{bytes_of, unescaped};
use rb_insn::Insn;
use rb_program::{DecodeFault, DecodeKind, Program, TextFault, decode, encode, from_text};
use std::alloc::Global;

/// Writes the number of units of the program of these bytes, and whether it is encoded to the same bytes.
pub(crate) fn answer_units(alloc: Global, hex: &str, out: &mut AnswerText) {
    match bytes_of(alloc, hex) {
        Ok(Some(bytes)) => tell_decoded(alloc, bytes.as_slice(), out),
        Ok(None) => out.push("no hex"),
        Err(_) => out.lack(),
    }
}

fn tell_decoded(alloc: Global, bytes: &[u8], out: &mut AnswerText) {
    match decode(alloc, bytes) {
        Ok(program) => tell_units(alloc, &program, bytes, out),
        Err(fault) => tell_decode_fault(fault, out),
    }
}

// Appends the number of units of a program, and whether it is encoded to these bytes.
fn tell_units(alloc: Global, program: &Program, bytes: &[u8], out: &mut AnswerText) {
    match encode(alloc, program) {
        Ok(encoded) => {
            out.show(&program.units());
            out.push(if encoded.as_slice() == bytes {
                " units and back"
            } else {
                " units and other bytes"
            });
        }
        Err(_) => out.lack(),
    }
}

/// Writes a program's instructions, each after its unit.
pub(crate) fn answer_decode(alloc: Global, hex: &str, out: &mut AnswerText) {
    match from_text(alloc, hex) {
        Ok(program) => tell_instructions(&program, out),
        Err(fault) => tell_text_fault(fault, out),
    }
}

fn tell_instructions(program: &Program, out: &mut AnswerText) {
    let mut gap = "";
    for unit in 0..program.units() {
        if let Some(insn) = program.at(unit) {
            out.field(gap, &unit);
            out.push(": ");
            out.debug(insn);
            gap = "; ";
        }
    }
}

/// Writes the instruction that begins at a unit of a program.
pub(crate) fn answer_at(alloc: Global, unit: u32, hex: &str, out: &mut AnswerText) {
    match from_text(alloc, hex) {
        Ok(program) => tell_instruction(program.at(unit), out),
        Err(fault) => tell_text_fault(fault, out),
    }
}

fn tell_instruction(insn: Option<&Insn>, out: &mut AnswerText) {
    match insn {
        Some(insn) => out.debug(insn),
        None => out.push("none"),
    }
}

/// Writes the bytes of the program in a text with escapes.
pub(crate) fn answer_text(alloc: Global, text: &str, out: &mut AnswerText) {
    match unescaped(alloc, text) {
        Ok(bytes) => tell_program(alloc, bytes.as_slice(), out),
        Err(_) => out.lack(),
    }
}

// Appends the bytes of the program in a text.
fn tell_program(alloc: Global, bytes: &[u8], out: &mut AnswerText) {
    match str::from_utf8(bytes) {
        Ok(text) => tell_read(alloc, text, out),
        Err(_) => out.push("no text"),
    }
}

fn tell_read(alloc: Global, text: &str, out: &mut AnswerText) {
    match from_text(alloc, text) {
        Ok(program) => tell_bytes(alloc, &program, out),
        Err(fault) => tell_text_fault(fault, out),
    }
}

/// Appends the bytes of a program in hex.
pub(crate) fn tell_bytes(alloc: Global, program: &Program, out: &mut AnswerText) {
    match encode(alloc, program) {
        Ok(encoded) => tell_hex(alloc, encoded.as_slice(), out),
        Err(_) => out.lack(),
    }
}

/// Appends bytes in hex.
pub(crate) fn tell_hex(alloc: Global, bytes: &[u8], out: &mut AnswerText) {
    match hex::encode(alloc, bytes) {
        Ok(digits) => out.push(digits.as_str()),
        Err(_) => out.lack(),
    }
}

/// Appends why a text is not a program.
pub(crate) fn tell_text_fault(fault: TextFault, out: &mut AnswerText) {
    match fault {
        TextFault::NotHex => out.push("refused text"),
        TextFault::Memory => out.push("refused memory"),
        TextFault::Decode(fault) => tell_decode_fault(fault, out),
    }
}

/// Appends why bytes are not a program.
pub(crate) fn tell_decode_fault(fault: DecodeFault, out: &mut AnswerText) {
    match fault.kind {
        DecodeKind::Memory => out.push("refused memory"),
        kind => {
            out.push("refused decode ");
            out.debug(&kind);
            out.field(" unit ", &fault.unit);
        }
    }
}

/// Returns the first instruction of a text, if it is a program.
pub(crate) fn insn_of(alloc: Global, hex: &str) -> Option<Insn> {
    let program = from_text(alloc, hex).ok()?;
    program.at(0).copied()
}
