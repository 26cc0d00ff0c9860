//! Scripts of worlds: rings, workers with their programs, and the turns that they take, one per line.
//!
//! A script is read as a whole. Then its programs are verified and its turns are run in a `World`. Each take and each
//! chapter writes a line, and at the end each worker and each ring does: in words, or as a JSON object. The command
//! `sim` does this from a reader to a writer. Records follow Linux Documentation/bpf/ringbuf.rst, and calls follow
//! bpf-helpers(7).
//!
//! ```text
//! ring 4096 0          a ring: its size, its start, and the room of its chapters (default: 65536)
//! worker 1851..        a worker: its program in hex, and optionally its context in hex
//! w 0 4                four turns of worker 0
//! k 0                  the keeper of ring 0 hands out its chapter
//! c 0                  one take of ring 0: `take 0 busy`
//! ```
#![tactic(auto)]

mod drawings;
mod line_fields;
mod output_lines;
mod programs;
mod reasons;
mod script;
mod script_fault;
mod script_line;
mod sim_command;
mod simulation;
mod turn_watch;

pub use reasons::line_reason;
pub use script::{Script, ScriptWorker};
pub use script_fault::ScriptFault;
pub use sim_command::{SimFault, sim};
pub use turn_watch::{NoWatch, TurnWatch};
