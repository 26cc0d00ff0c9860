//! Explanations of programs, for the people who write them.
//!
//! `explain` takes a program as hex text. For an accepted program, it returns what the verifier knows before each
//! instruction, and the most that the program can cost. For a refused one, it returns the units around its first fault,
//! the rule, what the rule requires, and how to fix the program. Instructions are in the syntax of LLVM's disassembler,
//! with the names of bpf-helpers(7).
//!
//! `Assembly(insn)` displays one instruction in that syntax, with a ring as in RFC 9669 (section 5.4: `map_by_idx`).
//! The displayed text is proved to be that of `specs/Assembly.antt`.
//!
//! ```text
//! let explanation = explain(alloc, "b700000000000000 9500000000000000", 16, 1)?;
//! assert!(rt; explanation.reason.is_none());
//! assert_eq!(rt; explanation.text.as_str(), "      #  r1 = context+0  r10 = stack+0\n   0: b700000000000000 ..");
//! let insn = Insn::Call { helper: 131 };
//! assert_eq!(rt; Assembly(insn).to_string(alloc)?.as_str(), "call 131");
//! ```
#![tactic(auto)]

mod advice;
mod assembly;
mod explanation;
mod fault_messages;
mod forms;
mod lines;
mod listing;
mod objects;
mod parts;
mod program_explanation;
mod state_lines;
mod symbols;
mod windows;

pub use assembly::Assembly;
pub use explanation::{Explanation, Reason};
pub use program_explanation::{explain, explain_bytes};
