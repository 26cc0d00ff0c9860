//! Verified programs from their text.

ghost use Rattle.std.specs.Prelude.{◌≡◌, ◌≢◌, ◌≤◌, Err, IfErr, IfOk, IfSome};
ghost use Rattle.rb_loader.specs.Acceptance.{IsAccepted, IsRightFault, fault_of_text, fault_of_shape};
ghost use Rattle.rb_loader.specs.MachineFaults.{IsMachineFault};

use crate::input_text::read_text;
use rb_program::{
    DecodeFault, DecodeKind, ShapeFault, ShapeFaultKind, TextFault, from_text, shape,
};
use rb_verifier::{Refusal, Verified, verify};
use std::alloc::{AllocError, Global};
use std::io;
use std::io::Read;
use thiserror::Error;

/// The limits that a program is verified against.
#[derive(Clone, Copy, Debug, PartialEq, Eq)]
pub struct Bounds {
    /// The length of the context in bytes, at most 65,536.
    pub ctx_len: u32,
    /// How many rings the program may use, at most 16.
    pub rings: u32,
    ghost short: { ctx_len ≤ 65536 },
    ghost few: { rings ≤ 16 },
}

/// Why a program was not accepted.
#[derive(Clone, Copy, Debug, PartialEq, Eq, Error)]
pub enum ProgramFault {
    /// The input, without its white space, is not pairs of hex digits.
    #[error("text")]
    Text,
    /// The bytes are not a program.
    #[error("decode {kind:?} unit {unit}")]
    Decode { kind: DecodeKind, unit: u32 },
    /// The program is not well shaped.
    #[error("shape {kind:?} unit {unit}")]
    Shape { kind: ShapeFaultKind, unit: u32 },
    /// The program breaks the rule with this number.
    #[error("verify V{rule} unit {unit}")]
    Verify { rule: u32, unit: u32 },
    /// An allocation failed.
    #[error("memory")]
    Memory,
    /// A read or a write failed.
    #[error("device")]
    Device,
}

impl From<AllocError> for ProgramFault {
    ghost use Rattle.std.specs.Prelude.{◌≡◌};
    ghost use Rattle.rb_loader.specs.declared.program.ProgramFault.TheVariants.{Memory};

    ghost from_gives = { λ _ made. made ≡ Memory };

    fn from(_error: AllocError) -> ProgramFault {
        ProgramFault::Memory
    }
}

/// Returns the verified program of a hex text, with ASCII white space anywhere.
///
/// An error is the first fault of the first layer that has one: the text, its bytes, the program's shape, its
/// verification. A failed allocation may replace any other result.
pub fn accept(alloc: Global, text: &str, bounds: Bounds) -> Result<Verified, ProgramFault>
    ensures accepted { IfOk result (IsAccepted text.now bounds.ctx_len bounds.rings) }
    ensures refused { IfErr result (IsRightFault text.now bounds.ctx_len bounds.rings) }
    ensures no_device { result ≢ Err ProgramFault.Device }
{
    let program = match from_text(alloc, text) {
        Ok(program) => program,
        Err(fault) => return Err(text_fault(fault)),
    };
    program.facts();
    let shape = match shape(alloc, program) {
        Ok(shape) => shape,
        Err(fault) => return Err(shape_fault(fault)),
    };
    match verify(alloc, shape, bounds.ctx_len, bounds.rings) {
        Ok(verified) => {
            verified.facts();
            verified.program().facts();
            Ok(verified)
        }
        Err(Refusal::Rule { unit, rule }) => Err(ProgramFault::Verify {
            rule: u32::from(rule.number()),
            unit,
        }),
        Err(Refusal::Memory) => Err(ProgramFault::Memory),
    }
}

/// Returns the verified program whose text is the input, like `accept`. The text is read by `read_text`.
pub fn read_program<R: Read>(
    alloc: Global,
    input: &mut R,
    bounds: Bounds,
) -> Result<Verified, ProgramFault>
    ensures accepted { IfOk result (λ program. IfSome (R.remaining input.old) (λ text. IsAccepted text bounds.ctx_len bounds.rings program)) }
    ensures rings { IfOk result (λ program. program.rings ≡ bounds.rings) }
    ensures refused { IfErr result (λ fault. IfSome (R.remaining input.old) (λ text. IsRightFault text bounds.ctx_len bounds.rings fault)) }
{
    let text = read_text(alloc, input)?;
    accept(alloc, text.as_str(), bounds)
}

/// Returns all bytes of the input.
pub fn read_all<R: Read>(alloc: Global, input: &mut R) -> Result<Vec<u8>, ProgramFault>
    ensures bytes { IfOk result (λ b. IfSome (R.remaining input.old) (λ unread. b.items ≡ unread)) }
    ensures fault { IfErr result IsMachineFault }
{
    let mut bytes = Vec::new(alloc);
    match input.read_to_end(&mut bytes) {
        Ok(_) => Ok(bytes),
        Err(error) => Err(match error.kind() {
            io::ErrorKind::OutOfMemory => ProgramFault::Memory,
            _ => ProgramFault::Device,
        }),
    }
}

fn text_fault(fault: TextFault) -> ProgramFault
    ensures { result ≡ fault_of_text fault }
{
    match fault {
        TextFault::NotHex => ProgramFault::Text,
        TextFault::Memory => ProgramFault::Memory,
        TextFault::Decode(DecodeFault { unit, kind }) => ProgramFault::Decode { kind, unit },
    }
}

/// Returns a shape fault as a `ProgramFault`.
pub(crate) fn shape_fault(fault: ShapeFault) -> ProgramFault
    ensures { result ≡ fault_of_shape fault }
{
    match fault.kind {
        ShapeFaultKind::Memory => ProgramFault::Memory,
        kind => ProgramFault::Shape {
            kind,
            unit: fault.unit,
        },
    }
}
