//! The eBPF instructions of the profile as values, with their encoding and their arithmetic (RFC 9669), for programs
//! that read, write or run eBPF.
//!
//! The profile is the base set of 64-bit and 32-bit instructions with division. It excludes atomics, calls of local
//! functions and the packet instructions.
//!
//! Each value of `Insn` has one encoding: `Insn::spell` writes its 8 or 16 bytes. By `spelling_laws`, the encoding is
//! prefix-free, so bytes encode at most one list of instructions. `opcodes` has the numbers from the RFC's tables:
//! classes, codes, modes and sizes.
//!
//! `value` returns the result of an arithmetic instruction, and `jumps` whether a conditional jump is taken (RFC 9669,
//! section 4). The interpreter uses both, and so does the verifier, to fold constants. A result wraps at the
//! instruction's width, shift counts are taken modulo that width, and division by zero has the results that the RFC
//! specifies. The RFC leaves open the quotient of the least number and -1; here it is the least number itself. Both
//! functions are total and take constant time.
#![tactic(auto)]

mod arithmetic;
mod conditions;
mod insn;
pub mod opcodes;
mod operands;
mod reg;
mod spelling;

pub use arithmetic::{sign_extended, value};
pub use conditions::jumps;
pub use insn::{
    BinaryOp, ByteOrder, Condition, DivisionOp, Extend32, Extend64, Insn, Operand, SignedSize,
    Signedness, Size, SwapWidth, Width,
};
pub use reg::Reg;
pub use spelling::spelling_laws;
