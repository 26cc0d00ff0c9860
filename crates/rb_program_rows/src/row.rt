//! The rows, and the call that answers each.
//!
//! ```text
//! units HEX                       bytes to a program and back
//! decode HEX                      the instructions of a program
//! at UNIT HEX                     the instruction that begins at a unit
//! text TEXT                       the program in a text with escapes
//! shape HEX                       the shape of a program
//! edges UNIT HEX                  the next unit after an instruction at a unit, and the target of its jump
//! verify CONTEXT RINGS HEX        verification for this context length and number of rings
//! cost CONTEXT RINGS HEX          the maximum cost of a verified program
//! forms CONTEXT RINGS HEX         how each operation of a verified program finds its operands
//! run CONTEXT RINGS BYTES ANSWERS HEX
//!                                 a run with this context (`-` if it is empty), with helpers that answer from a list
//! compute DST SRC HEX             the result of an instruction for two numbers
//! assembly HEX                    a program as assembly
//! listing CONTEXT RINGS HEX       part of a program's explanation, as in the next two
//! explained CONTEXT RINGS HEX
//! advice CONTEXT RINGS COUNT HEX
//! step CONTEXT RINGS UNIT STATE HEX
//! step-in-place CONTEXT RINGS UNIT STATE HEX
//!                                 a step of the verifier
//! join STATE STATE                what two states have in common
//! rbhost WORDS < TEXT             a command line of `rbhost` with an input, also as `rbhost WORDS : HEX`
//! helper NUMBER                   the helper with a number
//! register NUMBER                 the register with a number
//! ```

use crate::answer_text::AnswerText;
use crate::arithmetic::answer_compute;
use crate::assembly::answer_assembly;
use crate::command_lines::answer_command_line;
use crate::costs::answer_cost;
use crate::decoded::{answer_at, answer_decode, answer_text, answer_units};
use crate::explained::{ExplainedPart, answer_explain};
use crate::forms::answer_forms;
use crate::numbers::{number_of, two_numbers_and_rest, unit_and_rest};
use crate::runs::answer_run;
use crate::shapes::{answer_edges, answer_shape};
use crate::steps::{Way, answer_join, answer_step};
use crate::verified::answer_verify;
use rb_command_line::Host;
use rb_insn::Reg;
use rb_verifier::{Helper, Limits};
use std::alloc::Global;
use std::fs::File;
use std::io::Eprint;
use std::rt::Files;
use std::sync::Wait;
use std::thread::Threads;
use std::time::Clock;

/// Answers the row of a line. A line that is not a row is answered with its number.
pub(crate) fn answer<R: Threads + Wait + Sync + Files<File = File> + Clock + Eprint + Host>(
    rt: &R,
    alloc: Global,
    number: u64,
    line: &str,
    out: &mut AnswerText,
) {
    let (word, rest) = line.split_once(' ').unwrap_or(("", ""));
    if word == "rbhost" {
        answer_command_line(rt, alloc, rest, out);
    } else if !is_answered(alloc, word, rest, out) {
        out.field("line ", &number);
        out.push(": no row");
    }
}

// Answers a row that is no command line. Returns false if the words are not a row.
fn is_answered(alloc: Global, word: &str, rest: &str, out: &mut AnswerText) -> bool {
    is_program(alloc, word, rest, out)
        || is_unit(alloc, word, rest, out)
        || is_bounded(alloc, word, rest, out)
        || is_explanation(alloc, word, rest, out)
        || is_step(alloc, word, rest, out)
        || is_number(word, rest, out)
}

// Answers a row of a program alone.
fn is_program(alloc: Global, word: &str, hex: &str, out: &mut AnswerText) -> bool {
    match word {
        "units" => answer_units(alloc, hex, out),
        "decode" => answer_decode(alloc, hex, out),
        "text" => answer_text(alloc, hex, out),
        "shape" => answer_shape(alloc, hex, out),
        "assembly" => answer_assembly(alloc, hex, out),
        _ => return false,
    }
    true
}

// Answers a row of a unit and a program.
fn is_unit(alloc: Global, word: &str, rest: &str, out: &mut AnswerText) -> bool {
    match (word, unit_and_rest(rest)) {
        ("at", Some((unit, hex))) => answer_at(alloc, unit, hex, out),
        ("edges", Some((unit, hex))) => answer_edges(alloc, unit, hex, out),
        _ => return false,
    }
    true
}

// Answers a row of two numbers and a program.
fn is_bounded(alloc: Global, word: &str, rest: &str, out: &mut AnswerText) -> bool {
    let Some((first, second, rest)) = two_numbers_and_rest(rest) else {
        return false;
    };
    match word {
        "verify" => answer_verify(alloc, first, second, rest, out),
        "cost" => answer_cost(alloc, first, second, rest, out),
        "forms" => answer_forms(alloc, first, second, rest, out),
        "compute" => answer_compute(alloc, first, second, rest, out),
        "run" => return is_run(alloc, first, second, rest, out),
        _ => return false,
    }
    true
}

fn is_run(alloc: Global, ctx_len: u64, rings: u64, words: &str, out: &mut AnswerText) -> bool {
    let (context, rest) = words.split_once(' ').unwrap_or(("", ""));
    match rest.split_once(' ') {
        Some((answers, hex)) => {
            let context = if context == "-" { "" } else { context };
            answer_run(alloc, ctx_len, rings, (context, answers, hex), out);
            true
        }
        None => false,
    }
}

// Answers a row for part of an explanation.
fn is_explanation(alloc: Global, word: &str, rest: &str, out: &mut AnswerText) -> bool {
    let Some((ctx_len, rings, rest)) = two_numbers_and_rest(rest) else {
        return false;
    };
    match part_of(word, rest) {
        Some((part, hex)) => {
            answer_explain(alloc, ctx_len, rings, part, hex, out);
            true
        }
        None => false,
    }
}

// Returns the part of the explanation of a program that a row asks for, and the program.
fn part_of<'a>(word: &str, rest: &'a str) -> Option<(ExplainedPart, &'a str)> {
    match (word, unit_and_rest(rest)) {
        ("listing", _) => Some((ExplainedPart::Listing, rest)),
        ("explained", _) => Some((ExplainedPart::Assembly, rest)),
        ("advice", Some((count, hex))) => Some((ExplainedPart::Advice(count), hex)),
        _ => None,
    }
}

// Answers a row of states.
fn is_step(alloc: Global, word: &str, rest: &str, out: &mut AnswerText) -> bool {
    match word {
        "step" => is_step_of(alloc, Way::Copied, rest, out),
        "step-in-place" => is_step_of(alloc, Way::InPlace, rest, out),
        "join" => is_join(alloc, rest, out),
        _ => false,
    }
}

fn is_step_of(alloc: Global, way: Way, words: &str, out: &mut AnswerText) -> bool {
    match step_words(words) {
        Some((limits, unit, state, hex)) => {
            answer_step(alloc, (way, limits, unit), state, hex, out);
            true
        }
        None => false,
    }
}

// Returns the limits of a step, its unit, its state and its program.
fn step_words(words: &str) -> Option<(Limits, u32, &str, &str)> {
    let (ctx_len, rest) = unit_and_rest(words)?;
    let (rings, rest) = unit_and_rest(rest)?;
    let (unit, rest) = unit_and_rest(rest)?;
    let (state, hex) = rest.split_once(' ')?;
    Some((Limits { ctx_len, rings }, unit, state, hex))
}

fn is_join(alloc: Global, words: &str, out: &mut AnswerText) -> bool {
    match words.split_once(' ') {
        Some((first, second)) => {
            answer_join(alloc, first, second, out);
            true
        }
        None => false,
    }
}

// Answers a row of one number.
fn is_number(word: &str, rest: &str, out: &mut AnswerText) -> bool {
    match (word, number_of(rest)) {
        ("helper", Some(number)) => answer_helper(number, out),
        ("register", Some(number)) => answer_register(number, out),
        _ => return false,
    }
    true
}

fn answer_helper(number: u64, out: &mut AnswerText) {
    let number = u32::try_from(number).unwrap_or(u32::MAX);
    match Helper::from_number(number) {
        Some(helper) => {
            out.debug(&helper);
            out.field(" ", &helper.number());
        }
        None => out.push("none"),
    }
}

fn answer_register(number: u64, out: &mut AnswerText) {
    let number = u8::try_from(number).unwrap_or(u8::MAX);
    match Reg::new(number) {
        Some(register) => out.field("register ", &register.index()),
        None => out.push("none"),
    }
}
