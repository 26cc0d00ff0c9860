//! Runs of verified programs, with helpers that answer from a list.

use crate::answer_text::AnswerText;
use crate::bytes::bytes_of;
use crate::decoded::tell_hex;
use crate::verified::verified;
use crate::witness::Witness;
use rb_interp::{Helpers, Listed, RunFault, run};
use rb_verifier::Verified;
use std::alloc::{AllocError, Global};

/// Writes the result of a program's run, the calls that it made, and the bytes of the records that were submitted
/// or discarded. The program is verified for a context of `ctx_len` bytes and this many rings, and run with this
/// context, in hex. Each call uses the next answer of the list, `y` or `n`.
pub(crate) fn answer_run(
    alloc: Global,
    ctx_len: u64,
    rings: u64,
    words: (&str, &str, &str),
    out: &mut AnswerText,
) {
    let (context, answers, hex) = words;
    match bytes_of(alloc, context) {
        Ok(Some(context)) => {
            if let Some(program) = verified(alloc, ctx_len, rings, hex, out) {
                tell_run(alloc, &program, context.as_slice(), answers, out);
            }
        }
        Ok(None) => out.push("no context"),
        Err(_) => out.lack(),
    }
}

fn tell_run(
    alloc: Global,
    program: &Verified,
    context: &[u8],
    answers: &str,
    out: &mut AnswerText,
) {
    match helpers_of(alloc, answers) {
        Ok(mut helpers) => tell_run_with(alloc, program, context, &mut helpers, out),
        Err(_) => out.lack(),
    }
}

// Returns helpers that give these answers.
fn helpers_of(alloc: Global, answers: &str) -> Result<Witness, AllocError> {
    let answers = answers
        .as_bytes()
        .iter()
        .map(|answer| *answer == b'y')
        .collect(alloc)?;
    Ok(Witness::new(alloc, Listed::new(alloc, answers)?))
}

fn tell_run_with(
    alloc: Global,
    program: &Verified,
    context: &[u8],
    helpers: &mut Witness,
    out: &mut AnswerText,
) {
    if program.calls() > helpers.room() {
        return out.push("too few answers");
    }
    tell_result(run(program, context, helpers), out);
    for done in helpers.trace() {
        out.push("; ");
        out.debug(done);
    }
    tell_bytes(alloc, helpers.bytes(), out);
}

fn tell_result(answer: Result<u64, RunFault>, out: &mut AnswerText) {
    match answer {
        Ok(number) => {
            out.push("result ");
            out.hex(number);
        }
        Err(fault) => {
            out.push("fault ");
            out.debug(&fault);
        }
    }
}

// Appends the bytes that were submitted or discarded.
fn tell_bytes(alloc: Global, bytes: &[u8], out: &mut AnswerText) {
    if !bytes.is_empty() {
        out.push("; bytes ");
        tell_hex(alloc, bytes, out);
    }
}
