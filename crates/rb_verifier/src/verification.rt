//! Verification.

ghost use Rattle.std.specs.Prelude.{◌≡◌, ◌≤◌, IfOk, IfErr, OnOk};
ghost use Rattle.rb_verifier.specs.Annotation.{HasValid};
ghost use Rattle.rb_verifier.specs.Refusals.{IsRightRefusal};

use crate::Limits;
use crate::operation_forms::operations_of;
use crate::refusal::Refusal;
use crate::sweep::annotate;
use crate::verified::Verified;
use rb_program::Shape;
use std::alloc::Global;

/// Verifies a program for a context of `ctx_len` bytes and for `rings` rings.
///
/// Returns the verified program if and only if the program has a valid annotation, otherwise the first rule that it
/// breaks. A failed allocation may replace either result.
///
/// Makes one pass in unit order: an abstract step for each instruction, and at most one join for each edge. Time and
/// memory are linear in the number of units; one state is stored for each.
pub fn verify(alloc: Global, shape: Shape, ctx_len: u32, rings: u32) -> Result<Verified, Refusal>
    requires context { ctx_len ≤ 65536 }
    requires rings { rings ≤ 16 }
    ensures same { IfOk result (λ verified. verified ≡ record { program = shape; ctx_len = ctx_len; rings = rings }) }
    ensures valid { OnOk result (HasValid (record { ctx_len = ctx_len; rings = rings }) shape) }
    ensures refused { IfErr result (IsRightRefusal (record { ctx_len = ctx_len; rings = rings }) shape) }
{
    let limits = Limits { ctx_len, rings };
    let annotation = annotate(alloc, limits, &shape)?;
    let Ok(operations) = operations_of(alloc, limits, shape.program(), annotation.as_slice()) else {
        return Err(Refusal::Memory);
    };
    Ok(Verified::new(shape, limits, annotation, operations))
}
