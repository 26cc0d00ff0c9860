//! The export that verifies a program.

ghost use Rattle.std.specs.Prelude.{◌≡◌, ◌≢◌, ◌≤◌, ◌↔◌, ◌⊎◌};
ghost use Rattle.rb_verifier.specs.Subject.{Subject};
ghost use Rattle.heskavo_c.specs.Verdicts.{AreBounds, BytesAreAccepted, IsRightVerdict, verdict_of};

use crate::load::{are_bounds, load};
use crate::status::{ARGUMENT, DONE, MEMORY, REFUSED};
use crate::verdict::{Verdict, verdict_on};
use std::alloc::Global;

#[unsafe(no_mangle)]
/// Verifies a program for contexts of `ctx_len` bytes and `rings` rings.
///
/// Returns `DONE` if the program is accepted, and `REFUSED` with the verdict if not. Returns `ARGUMENT` if `ctx_len` is
/// above 65,536 or `rings` above 16.
///
/// Takes time and memory linear in the program.
pub extern "C" fn heskavo_verify(
    alloc: Global,
    program: &[u8],
    ctx_len: u32,
    rings: u32,
    verdict: &mut Verdict,
) -> u32
    ensures accepted { result ≡ DONE → (subject : Subject) × BytesAreAccepted program.now ctx_len rings subject }
    ensures refused { result ≡ REFUSED → IsRightVerdict program.now ctx_len rings verdict.new }
    ensures argument { (result ≡ ARGUMENT) ↔ ¬ AreBounds ctx_len rings }
    ensures unchanged { result ≢ REFUSED → verdict.new ≡ verdict.old }
    ensures answers { result ≤ MEMORY }
{
    if !are_bounds(ctx_len, rings) {
        return ARGUMENT;
    }
    match load(alloc, program, ctx_len, rings) {
        Ok(_) => DONE,
        Err(Some(refused)) => {
            *verdict = verdict_on(refused);
            REFUSED
        }
        Err(None) => MEMORY,
    }
}
