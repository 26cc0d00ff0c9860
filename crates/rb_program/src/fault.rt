//! Why bytes or text are not a program.

use hex::FromHexError;
use std::alloc::{AllocError, AllocFailed};
use thiserror::Error;

/// The kinds of decode faults, in the order of their precedence within one unit.
#[derive(Clone, Copy, Debug, PartialEq, Eq, Error)]
pub enum DecodeKind {
    /// There are no bytes, or their number is not a multiple of 8.
    #[error("bad length")]
    Length,
    /// There are more than 4096 units.
    #[error("too long")]
    TooLong,
    /// An instruction that this project does not support: packet access, atomics, calls by register, program-local
    /// calls, calls by BTF number, and loads of addresses other than a map by its index.
    #[error("instruction not supported")]
    LeftOut,
    /// An opcode that belongs to no instruction.
    #[error("bad opcode")]
    BadOpcode,
    /// A register number above 10.
    #[error("bad register")]
    BadRegister,
    /// A field that the instruction does not use is not zero, or a field has a value that the instruction does not
    /// allow.
    #[error("unused field is not zero")]
    UnusedField,
    /// A wide instruction whose second unit is missing.
    #[error("wide instruction without its second unit")]
    HalfWide,
    /// Memory for the program could not be allocated.
    #[error("out of memory")]
    Memory,
}

/// The first fault of bytes that are not a program: the first kind at the lowest unit that has a fault.
///
/// A failed allocation is reported at unit 0.
#[derive(Clone, Copy, Debug, PartialEq, Eq, Error)]
#[error("unit {unit}: {kind}")]
pub struct DecodeFault {
    /// The unit of the fault, counted from 0.
    pub unit: u32,
    /// The kind of the fault.
    pub kind: DecodeKind,
}

impl DecodeFault {
    /// A failed allocation, at unit 0.
    pub const NO_MEMORY: DecodeFault = DecodeFault {
        unit: 0,
        kind: DecodeKind::Memory,
    };
}

impl From<AllocError> for DecodeFault {
    ghost use Rattle.std.specs.Prelude.{◌≡◌};
    ghost use Rattle.rb_program.specs.FirstDecodeFault.{decode_no_memory};

    ghost from_gives = { λ _ fault. fault ≡ decode_no_memory };

    fn from(_error: AllocError) -> DecodeFault {
        DecodeFault::NO_MEMORY
    }
}

impl<T: Drop> From<AllocFailed<T>> for DecodeFault {
    ghost use Rattle.std.specs.Prelude.{◌≡◌};
    ghost use Rattle.rb_program.specs.FirstDecodeFault.{decode_no_memory};

    ghost from_gives = { λ _ fault. fault ≡ decode_no_memory };

    fn from(_error: AllocFailed<T>) -> DecodeFault {
        DecodeFault::NO_MEMORY
    }
}

/// The reason why a text is not a program.
#[derive(Clone, Copy, Debug, PartialEq, Eq, Error)]
pub enum TextFault {
    /// The text, without its white space, is not a sequence of pairs of hex digits.
    #[error("not pairs of hex digits")]
    NotHex,
    /// Memory for the bytes or the program could not be allocated.
    #[error("out of memory")]
    Memory,
    /// The bytes are not a program.
    #[error("{0}")]
    Decode(DecodeFault),
}

impl From<AllocError> for TextFault {
    ghost use Rattle.std.specs.Prelude.{◌≡◌};
    ghost use Rattle.rb_program.specs.declared.fault.TextFault.TheVariants.{Memory};

    ghost from_gives = { λ _ fault. fault ≡ Memory };

    fn from(_error: AllocError) -> TextFault {
        TextFault::Memory
    }
}

impl From<FromHexError> for TextFault {
    ghost use Rattle.std.specs.Prelude.{◌≡◌};
    ghost use Rattle.rb_program.specs.TextFaults.{hex_fault_of};

    ghost from_gives = { λ error fault. fault ≡ hex_fault_of error };

    fn from(error: FromHexError) -> TextFault {
        match error {
            FromHexError::OutOfMemory => TextFault::Memory,
            _ => TextFault::NotHex,
        }
    }
}

impl From<DecodeFault> for TextFault {
    ghost use Rattle.std.specs.Prelude.{◌≡◌};
    ghost use Rattle.rb_program.specs.TextFaults.{text_fault_of};

    ghost from_gives = { λ error fault. fault ≡ text_fault_of error };

    fn from(error: DecodeFault) -> TextFault {
        match error.kind {
            DecodeKind::Memory => TextFault::Memory,
            _ => TextFault::Decode(error),
        }
    }
}
