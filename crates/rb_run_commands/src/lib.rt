//! The commands that run a verified program. `check` runs it once over fresh rings and prints the records that it left.
//! `run` runs it as jobs on threads over a fresh ring, and on request writes what the ring's consumer took as a tape.
//! Both are runs over a sink: `PlannedRun` runs the jobs over any.
//!
//! For `rbhost`, and for embedding over other readers and writers. The contracts promise that each result follows from
//! the program's semantics (RFC 9669) and the answers of these rings, that the records that `check` prints are those
//! that the rings handed out, up to their producer positions, that the report's lines of `run` are those of closed
//! rings, and that the tape is that of the records taken.
//!
//! ```text
//! let bounds = Bounds { ctx_len: 0, rings: 1 };
//! // The input is the hex of a program that submits 42 and exits with 0.
//! check(rt, alloc, &mut input, &mut out, bounds, LineForm::Words, false, &OpenGate)?;
//! // accepted
//! // result 0
//! // ring 0 pos 0 worker 0 serial 0 len 8 2a00000000000000
//! ```
#![tactic(auto)]

mod check_command;
mod check_lines;
mod drained_rings;
mod fresh_rings;
mod jobs_fault;
mod jobs_request;
mod planned_run;
mod record_json;
mod record_lines;
mod report;
mod report_json;
mod report_lines;
mod run_command;
mod tape_sink;
mod tape_watch;
mod worker_jobs;
mod written_tape;

pub use check_command::{Checked, check, check_text};
pub use jobs_fault::JobsFault;
pub use jobs_request::JobsRequest;
pub use planned_run::PlannedRun;
pub use report_lines::push_records;
pub use run_command::{TapeFile, TapeFileFault, run};
pub use tape_sink::TapeSink;
pub use tape_watch::TapeWatch;
pub use written_tape::{WrittenTape, finish_tape};
