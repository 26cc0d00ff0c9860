//! The text of a program, read in bounded memory.

ghost use Rattle.std.specs.Prelude.{IfErr, IfOk, IfSome, string_bytes};
ghost use Rattle.rb_loader.specs.MachineFaults.{IsMachineFault};
ghost use Rattle.rb_loader.specs.StandIn.{StandsFor};

use crate::digits::Digits;
use crate::program::ProgramFault;
use std::alloc::Global;
use std::io::{ErrorKind, Read};

// How many bytes are read at a time.
const PIECE: usize = 4096;

// A text that is not pairs of hex digits.
const NO_HEX: &str = "no hex";

/// Reads a program's text, up to the end of the input or up to a piece with a byte that is neither a hex digit nor
/// ASCII white space.
///
/// Returns a text that stands for the whole input: the results of `accept` and `explain` for the one are right for the
/// other. Stores at most 65,568 digits, for an input of any length.
pub fn read_text<R: Read>(alloc: Global, input: &mut R) -> Result<String, ProgramFault>
    ensures stands { IfOk result (λ text. IfSome (R.remaining input.old) (λ unread. StandsFor unread (string_bytes text))) }
    ensures fault { IfErr result IsMachineFault }
{
    let mut digits = Digits::new(alloc);
    let mut piece = [0; PIECE];
    for _ in 0..u64::MAX {
        let count = match input.read(&mut piece) {
            Ok(count) => count,
            Err(error) if error.kind() == ErrorKind::Interrupted => continue,
            Err(_) => return Err(ProgramFault::Device),
        };
        if count == 0 {
            return Ok(digits.into_text());
        }
        if !digits.add(&piece[..count])? {
            return Ok(String::from_str(alloc, NO_HEX)?);
        }
    }
    Err(ProgramFault::Device)
}
