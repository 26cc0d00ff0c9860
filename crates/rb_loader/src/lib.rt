//! Loads programs from text: decodes, shapes and verifies them (RFC 9669), or refuses them with the first fault. Also
//! has the command `explain`, which prints the reason, and the command `cost`, which prints the most that an accepted
//! program can cost.
//!
//! For the commands that take a program. It is proved that a text is accepted if and only if it is the hex encoding of
//! a program that has a valid annotation, unless an allocation fails, and that a refusal names the first fault of the
//! first layer that has one.
#![tactic(auto)]

mod cost_command;
mod digits;
mod explain_command;
mod input_text;
mod portable_findings;
mod program;

pub use cost_command::cost;
pub use explain_command::explain;
pub use input_text::read_text;
pub use portable_findings::requested_findings;
pub use program::{Bounds, ProgramFault, accept, read_all, read_program};
