//! eBPF programs: decodes bytes or hex text to a list of instructions and encodes it again (RFC 9669), and checks the
//! shape of its control flow. For hosts that load programs.
//!
//! `decode` returns the only program that the bytes encode, or their first fault: the first kind of `DecodeKind` at the
//! lowest unit that has a fault. `encode` returns the bytes of a program, and `from_text` reads pairs of hex digits
//! with white space between them. `specs/OpcodeTable.antt` lists the opcodes and the fields that each may use. A
//! `Program` has 1 to 4096 units of 8 bytes, by its type invariant.
//!
//! `shape` returns a `Shape` if every jump leads forward to an instruction, every instruction is reachable from the
//! first, and none falls off the end; otherwise it returns the first fault by unit and kind. A well-shaped program
//! therefore terminates. `next_unit` and `jump_target` return the two edges of an instruction; jump distances count
//! from the unit after it (RFC 9669, section 4.3). The rules on shape are those of the kernel's first verifier, which
//! allowed no loops.
#![tactic(auto)]

mod checks;
mod codec;
mod edges;
mod fault;
mod fields;
mod insn_at;
mod opcode_meaning;
mod program;
mod reach;
mod shape_check;
mod shape_fault;
mod shape_type;
mod text;

pub use codec::{decode, decoding_laws, encode};
pub use edges::{jump_target, next_unit};
pub use fault::{DecodeFault, DecodeKind, TextFault};
pub use program::{Code, MAX_UNITS, Program};
pub use shape_check::shape;
pub use shape_fault::{ShapeFault, ShapeFaultKind};
pub use shape_type::Shape;
pub use text::from_text;
