//! Explanations of programs.

ghost use Rattle.std.specs.Prelude.{◌≤◌};

use crate::answer_text::AnswerText;
use crate::decoded::{tell_decode_fault, tell_text_fault};
use crate::shapes::tell_shape_fault;
use crate::verified::tell_rule;
use rb_explain::{Reason, explain};
use rb_json::LineForm;
use rb_program::TextFault;
use std::alloc::Global;

/// The part of an explanation to report.
#[derive(Clone, Copy)]
pub(crate) enum ExplainedPart {
    /// The lines of its units, each followed by a line feed.
    Listing,
    /// The assembly of its instructions.
    Assembly,
    /// The first characters of the advice for a fault, at most this many.
    Advice(u32),
}

/// Writes whether a program is accepted or why not, and a part of its explanation, for a context of `ctx_len` bytes and
/// this many rings.
pub(crate) fn answer_explain(
    alloc: Global,
    ctx_len: u64,
    rings: u64,
    part: ExplainedPart,
    hex: &str,
    out: &mut AnswerText,
) {
    if ctx_len > 65_536 || rings > 16 {
        return out.push("out of bounds");
    }
    match explain(alloc, hex, ctx_len as u32, rings as u32, LineForm::Words) {
        Ok(explanation) => {
            tell_reason(explanation.reason, out);
            tell_part(explanation.text.as_str(), part, out);
        }
        Err(_) => out.push("refused memory"),
    }
}

fn tell_reason(reason: Option<Reason>, out: &mut AnswerText) {
    match reason {
        None => out.push("accepted"),
        Some(Reason::Text) => tell_text_fault(TextFault::NotHex, out),
        Some(Reason::Decode(fault)) => tell_decode_fault(fault, out),
        Some(Reason::Shape(fault)) => tell_shape_fault(fault, out),
        Some(Reason::Rule { unit, rule }) => tell_rule(unit, rule, out),
    }
}

fn tell_part(text: &str, part: ExplainedPart, out: &mut AnswerText) {
    match part {
        ExplainedPart::Listing => tell_listing(text, out),
        ExplainedPart::Assembly => tell_assembly(text, out),
        ExplainedPart::Advice(count) => tell_advice(text, count, out),
    }
}

// Appends the lines of units, which begin with white space.
fn tell_listing(text: &str, out: &mut AnswerText) {
    for line in text.lines() {
        if line.starts_with(' ') {
            out.push("\n");
            out.push(line);
            out.push("|");
        }
    }
}

// Appends the instruction in each line of a unit, without a helper's name.
fn tell_assembly(text: &str, out: &mut AnswerText) {
    let mut is_first = true;
    for line in text.lines() {
        if line.starts_with(' ') && !line.starts_with("      #") {
            out.push(if is_first { ": " } else { " ; " });
            out.push(insn_in(line));
            is_first = false;
        }
    }
}

// Returns the assembly in a line.
fn insn_in(line: &str) -> &str {
    let plain = match line.split_once("  # ") {
        Some((plain, _)) => plain,
        None => line,
    };
    match plain.rsplit_once("  ") {
        Some((_, insn)) => insn,
        None => plain,
    }
}

// Appends the first characters of the advice for a fault.
fn tell_advice(text: &str, count: u32, out: &mut AnswerText) {
    for line in text.lines() {
        if !line.starts_with(' ') {
            out.push(" ");
            tell_front(line, count, out);
        }
    }
}

fn tell_front(line: &str, count: u32, out: &mut AnswerText) {
    let mut left = count;
    for letter in line.chars() {
        if left > 0 {
            out.show(&letter);
            left -= 1;
        }
    }
}
