//! Programs as text.

ghost use Rattle.std.specs.Prelude.{◌≡◌, ◌⊎◌, ℕ, List, Ok, Err, IfOk, IfErr};
ghost use Rattle.rb_insn.specs.declared.insn.Insn.{Insn};
ghost use Rattle.rb_insn.specs.Spelling.{SpellsAll};
ghost use Rattle.rb_program.specs.declared.fault.DecodeFault.{DecodeFault};
ghost use Rattle.rb_program.specs.FirstDecodeFault.{IsFirstDecodeFault};
ghost use Rattle.rb_program.specs.Program.{IsProgram};
ghost use Rattle.rb_program.specs.Text.{IsHexOf, without_white_space};
ghost use Rattle.rb_program.specs.inner.TextFaults.{IsTextFault};

use crate::codec::decode;
use crate::fault::TextFault;
use crate::program::Program;
use std::alloc::{AllocError, Global};

/// Returns the bytes of a text without its white space.
fn digits_of(alloc: Global, text: &[u8]) -> Result<Vec<u8>, AllocError>
    ensures { IfOk result (λ digits. digits.items ≡ without_white_space text.now) }
{
    text.iter()
        .copied()
        .filter(|byte| !byte.is_ascii_whitespace())
        .collect(alloc)
}

/// Returns the program that the hex digits encode. An error is the first fault of its bytes, `NotHex`, or a failed
/// allocation.
fn decode_digits(alloc: Global, digits: &[u8]) -> Result<Program, TextFault>
    ensures bounds { IfOk result IsProgram }
    ensures spelled { IfOk result (λ program. (bytes : List ℕ) × IsHexOf digits.now bytes × SpellsAll program bytes) }
    ensures fault { IfErr result (IsTextFault digits.now) }
{
    let bytes = hex::decode(alloc, digits)?;
    let program = decode(alloc, &bytes)?;
    program.facts();
    Ok(program)
}

/// Decodes a text to a program: pairs of hex digits of either case, with ASCII white space anywhere between the digits.
///
/// White space is Rust's set: tab, line feed, form feed, carriage return, space. A failed allocation may replace any
/// other result. Makes one pass over the text and one over its bytes.
pub fn from_text(alloc: Global, text: &str) -> Result<Program, TextFault>
    // NotHex is returned if and only if the text is not hex.
    ensures not_hex { result ≡ Err TextFault.NotHex → (bytes : List ℕ) → IsHexOf (without_white_space text.now) bytes → ⊥ }
    ensures only_hex { ((bytes : List ℕ) → IsHexOf (without_white_space text.now) bytes → ⊥)
        → (result ≡ Err TextFault.NotHex) ⊎ (result ≡ Err TextFault.Memory) }

    // Otherwise the result is that of decoding the bytes.
    ensures spelled { IfOk result (λ program. (bytes : List ℕ)
        × IsHexOf (without_white_space text.now) bytes × SpellsAll program bytes) }
    ensures only_program { (bytes : List ℕ) (program : List Insn) → IsHexOf (without_white_space text.now) bytes
        → IsProgram program → SpellsAll program bytes → (result ≡ Ok program) ⊎ (result ≡ Err TextFault.Memory) }
    ensures fault { (fault : DecodeFault) → result ≡ Err (TextFault.Decode fault) → (bytes : List ℕ)
        × IsHexOf (without_white_space text.now) bytes × IsFirstDecodeFault bytes fault }
    ensures only_fault { (bytes : List ℕ) (fault : DecodeFault) → IsHexOf (without_white_space text.now) bytes
        → IsFirstDecodeFault bytes fault → (result ≡ Err (TextFault.Decode fault)) ⊎ (result ≡ Err TextFault.Memory) }
{
    let digits = digits_of(alloc, text.as_bytes())?;
    decode_digits(alloc, &digits)
}
