//! The export that explains a program.

ghost use Rattle.std.specs.Prelude.{◌≡◌, ◌≢◌, ◌<◌, ◌≤◌, ◌↔◌, ◌⊎◌, None, Some, length};
ghost use Rattle.rb_explain.specs.declared.explanation.Reason.{Reason};
ghost use Rattle.heskavo_c.specs.Explained.{ExplainsInto, WantsRoom};
ghost use Rattle.heskavo_c.specs.Verdicts.{AreBounds};

use crate::load::are_bounds;
use crate::outgoing::put_front;
use crate::status::{ARGUMENT, DONE, MEMORY, REFUSED, ROOM};
use rb_explain::{Explanation, explain_bytes};
use rb_json::LineForm;
use std::alloc::Global;

#[unsafe(no_mangle)]
/// Writes the explanation of a program to the front of `text`, and its length in bytes to `wanted`.
///
/// Returns `DONE` for a program that is accepted for contexts of `ctx_len` bytes and `rings` rings: the explanation is
/// each instruction after the state that is known before it, followed by the most that the program can cost. Returns
/// `REFUSED` for one that is refused: the explanation is the units around its first fault, and how to fix the program.
/// Returns `ROOM` if `text` is shorter than `wanted`. Returns `ARGUMENT` if `ctx_len` is above 65,536 or `rings` above
/// 16.
///
/// Takes memory linear in the program, and time linear in the program for each ring.
pub extern "C" fn heskavo_explain(
    alloc: Global,
    program: &[u8],
    ctx_len: u32,
    rings: u32,
    text: &mut [u8],
    wanted: &mut u64,
) -> u32
    ensures accepted { result ≡ DONE → ExplainsInto program.now ctx_len rings None text.old text.new wanted.new }
    ensures refused { result ≡ REFUSED → (reason : Reason) × ExplainsInto program.now ctx_len rings (Some reason) text.old text.new wanted.new }
    ensures room { result ≡ ROOM → WantsRoom program.now ctx_len rings text.old wanted.new }
    ensures argument { (result ≡ ARGUMENT) ↔ ¬ AreBounds ctx_len rings }
    ensures unwritten { result ≢ DONE → result ≢ REFUSED → text.new ≡ text.old }
    ensures untold { result ≢ DONE → result ≢ REFUSED → result ≢ ROOM → wanted.new ≡ wanted.old }
    ensures answers { result ≤ ROOM }
{
    if !are_bounds(ctx_len, rings) {
        return ARGUMENT;
    }
    let Ok(explanation) = explain_bytes(alloc, program, ctx_len, rings, LineForm::Words) else {
        return MEMORY;
    };
    *wanted = explanation.text.len() as u64;
    if text.len() < explanation.text.len() {
        return ROOM;
    }
    put_front(text, explanation.text.as_bytes());
    match explanation.reason {
        None => DONE,
        Some(_) => REFUSED,
    }
}
