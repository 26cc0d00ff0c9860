//! Verdicts: why a program is refused, as numbers.

ghost use Rattle.std.specs.Prelude.{◌≡◌, ◌≢◌};
ghost use Rattle.heskavo_c.specs.Verdicts.{decode_number, shape_number, verdict_of};

use crate::load::Refused;
use rb_program::{DecodeKind, ShapeFaultKind};

/// The layer of the bytes: they are not a program.
pub const BYTES: u32 = 1;

/// The layer of the program's shape: its jumps and its end.
pub const SHAPE: u32 = 2;

/// The layer of the rules of verification.
pub const RULES: u32 = 3;

/// Why a program is refused: the first fault of the first layer that has one.
#[repr(C)]
#[derive(Clone, Copy)]
pub struct Verdict {
    /// The layer: `BYTES`, `SHAPE` or `RULES`.
    pub layer: u32,
    /// The number of the fault in that layer, counted from 1 in the order in which faults of the same unit are
    /// reported. For a rule, this is the rule's number.
    pub number: u32,
    /// The unit of eight bytes that has the fault, counted from 0.
    pub unit: u32,
}

// Returns the number of a fault of the bytes; 0 for a failed allocation, which is not one.
fn number_of_decode(kind: DecodeKind) -> u32
    ensures { result ≡ decode_number kind }
{
    match kind {
        DecodeKind::Length => 1,
        DecodeKind::TooLong => 2,
        DecodeKind::LeftOut => 3,
        DecodeKind::BadOpcode => 4,
        DecodeKind::BadRegister => 5,
        DecodeKind::UnusedField => 6,
        DecodeKind::HalfWide => 7,
        DecodeKind::Memory => 0,
    }
}

// Returns the number of a fault of the shape; 0 for a failed allocation, which is not one.
fn number_of_shape(kind: ShapeFaultKind) -> u32
    ensures { result ≡ shape_number kind }
{
    match kind {
        ShapeFaultKind::Backward => 1,
        ShapeFaultKind::OutOfProgram => 2,
        ShapeFaultKind::IntoWide => 3,
        ShapeFaultKind::FallsOff => 4,
        ShapeFaultKind::Unreachable => 5,
        ShapeFaultKind::Memory => 0,
    }
}

// Returns the verdict of a refusal.
pub(crate) fn verdict_on(refused: Refused) -> Verdict
    ensures { result ≡ verdict_of refused }
{
    match refused {
        Refused::Bytes(fault) => Verdict {
            layer: BYTES,
            number: number_of_decode(fault.kind),
            unit: fault.unit,
        },
        Refused::Shape(fault) => Verdict {
            layer: SHAPE,
            number: number_of_shape(fault.kind),
            unit: fault.unit,
        },
        Refused::Rule { unit, rule } => Verdict {
            layer: RULES,
            number: u32::from(rule.number()),
            unit,
        },
    }
}
