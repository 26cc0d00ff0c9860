//! Verifies a program that is given as its bytes.

ghost use Rattle.std.specs.Prelude.{◌≡◌, ◌≢◌, ◌≤◌, ◌↔◌, IsTrue, IfErr, IfOk, IfSome};
ghost use Rattle.heskavo_c.specs.Verdicts.{AreBounds, BytesAreAccepted, BytesAreRefused};
ghost use Rattle.heskavo_c.specs.inner.Loading.{refused_bytes, refused_shape};

use rb_program::{DecodeFault, DecodeKind, ShapeFault, ShapeFaultKind, decode, shape};
use rb_verifier::{Refusal, Rule, Verified, verify};
use std::alloc::Global;

/// The maximal length of a context, in bytes.
const MAX_CONTEXT: u32 = 65_536;

/// The maximal number of rings that a program may use.
const MAX_RINGS: u32 = 16;

/// Why a program is refused.
#[derive(Clone, Copy)]
pub enum Refused {
    /// The bytes are not a program.
    Bytes(DecodeFault),
    /// The program is not well shaped.
    Shape(ShapeFault),
    /// The program breaks this rule, at this unit.
    Rule { unit: u32, rule: Rule },
}

// Returns whether a program may be verified for contexts of `ctx_len` bytes and `rings` rings.
pub(crate) fn are_bounds(ctx_len: u32, rings: u32) -> bool
    ensures { IsTrue result ↔ AreBounds ctx_len rings }
{
    ctx_len <= MAX_CONTEXT && rings <= MAX_RINGS
}

// Returns the refusal for a fault of the bytes, or `None` for a failed allocation.
fn refused_for_bytes(fault: DecodeFault) -> Option<Refused>
    ensures { result ≡ refused_bytes fault }
{
    match fault.kind {
        DecodeKind::Memory => None,
        _ => Some(Refused::Bytes(fault)),
    }
}

// Returns the refusal for a fault of the shape, or `None` for a failed allocation.
fn refused_for_shape(fault: ShapeFault) -> Option<Refused>
    ensures { result ≡ refused_shape fault }
{
    match fault.kind {
        ShapeFaultKind::Memory => None,
        _ => Some(Refused::Shape(fault)),
    }
}

/// Returns the verified program of these bytes, for contexts of `ctx_len` bytes and `rings` rings.
///
/// A refusal is the first fault of the first layer that has one: the bytes, the program's shape, its verification. The
/// error is `None` if memory can't be allocated, which may take the place of any other result.
pub(crate) fn load(
    alloc: Global,
    bytes: &[u8],
    ctx_len: u32,
    rings: u32,
) -> Result<Verified, Option<Refused>>
    requires bounds { AreBounds ctx_len rings }
    ensures accepted { IfOk result (BytesAreAccepted bytes.now ctx_len rings) }
    ensures refused { IfErr result (λ found. IfSome found (BytesAreRefused bytes.now ctx_len rings)) }
{
    let program = match decode(alloc, bytes) {
        Ok(program) => program,
        Err(fault) => return Err(refused_for_bytes(fault)),
    };
    program.facts();
    let shape = match shape(alloc, program) {
        Ok(shape) => shape,
        Err(fault) => return Err(refused_for_shape(fault)),
    };
    match verify(alloc, shape, ctx_len, rings) {
        Ok(verified) => {
            verified.program().facts();
            Ok(verified)
        }
        Err(Refusal::Rule { unit, rule }) => Err(Some(Refused::Rule { unit, rule })),
        Err(Refusal::Memory) => Err(None),
    }
}
