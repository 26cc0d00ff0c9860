//! Verified programs.

ghost use Rattle.std.specs.Prelude.{◌≤◌};

use crate::fault::TrialFault;
use rb_program::{Program, shape};
use rb_verifier::{Verified, verify};
use std::alloc::Global;

/// Returns the program, shaped and verified for a context of `ctx_len` bytes and for `rings` rings.
pub(crate) fn verified(
    alloc: Global,
    program: Program,
    context: u32,
    rings: u32,
) -> Result<Verified, TrialFault>
    requires context { context ≤ 65536 }
    requires rings { rings ≤ 16 }
{
    let Ok(shape) = shape(alloc, program) else {
        return Err(TrialFault::Refused);
    };
    match verify(alloc, shape, context, rings) {
        Ok(verified) => Ok(verified),
        Err(_) => Err(TrialFault::Refused),
    }
}
