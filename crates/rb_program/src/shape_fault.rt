//! The faults in the shape of a program.

use std::alloc::AllocError;
use thiserror::Error;

/// The kinds of shape faults, in the order of their precedence within one unit.
#[derive(Clone, Copy, Debug, PartialEq, Eq, Error)]
pub enum ShapeFaultKind {
    /// The instruction jumps by a negative distance.
    #[error("jump backward")]
    Backward,
    /// The instruction jumps to a unit outside the program.
    #[error("jump out of the program")]
    OutOfProgram,
    /// The instruction jumps to the second unit of a wide instruction.
    #[error("jump into a wide instruction")]
    IntoWide,
    /// The instruction is neither an exit nor an unconditional jump, and the program ends after it.
    #[error("falls off the end")]
    FallsOff,
    /// No path leads to the instruction from unit 0.
    #[error("unreachable")]
    Unreachable,
    /// Memory for the check could not be allocated; this says nothing about the program.
    #[error("out of memory")]
    Memory,
}

/// The first fault in the shape of a program: the first kind at the lowest unit that has a fault.
///
/// A failed allocation is reported at unit 0.
#[derive(Clone, Copy, Debug, PartialEq, Eq, Error)]
#[error("unit {unit}: {kind}")]
pub struct ShapeFault {
    /// The unit of the instruction, counted from 0.
    pub unit: u32,
    /// The kind of the fault.
    pub kind: ShapeFaultKind,
}

impl From<AllocError> for ShapeFault {
    ghost use Rattle.std.specs.Prelude.{◌≡◌};
    ghost use Rattle.rb_program.specs.ShapeFaults.{shape_no_memory};

    ghost from_gives = { λ _ fault. fault ≡ shape_no_memory };

    fn from(_error: AllocError) -> ShapeFault {
        ShapeFault {
            unit: 0,
            kind: ShapeFaultKind::Memory,
        }
    }
}
