//! Jobs on threads over shared BPF ring buffers: one thread for each worker, which runs the worker's jobs in order, and
//! one for each ring, which consumes its records.
//!
//! `run_jobs` runs many verified programs concurrently. Proved: each result is one that the program's semantics (RFC
//! 9669) gives. Each worker's seats counted exactly the calls of the worker's own jobs. Each ring was closed with all
//! its seats, so the law of closed rings holds for its whole history: the entries of the chapters that it handed out
//! and of its last one (rb_ledger). Each ring's sink was given exactly the records that were taken, in order and with
//! their bytes, and exactly the chapters that were handed out meanwhile, each once and in order, so that they can be
//! bound with the last one. After an error everything is returned and may be run again.
//!
//! Records are taken many at a time, and the sheets (byte buffers) of long records are reused. A ring's memory does not
//! grow: its consumer's thread looks at the ring's chapter between batches and hands it out when it is due. With the
//! room and the margin for the ring's size, no chapter is full before the ring was, if the keeper looks often enough
//! (`chapters_follow_their_ring`).
//!
//! What holds for every interleaving of the same programs in turns, without threads, is compared with this in
//! docs/PROOF_STATUS.md, "Every interleaving, and running threads".
//!
//! The test `example_of_run_jobs` of `rb_stream_tests` runs these lines:
//!
//! ```text
//! let alloc = rt.alloc();
//! // outputs the first eight bytes of the context to ring 0, and returns the answer
//! let text = "bf12000000000000 1851000000000000 0000000000000000
//!     b703000008000000 b704000000000000 8500000082000000 9500000000000000";
//! let program = verify(alloc, shape(alloc, from_text(alloc, text)?)?, 16, 1)?;
//! // tag 0, 4,096 bytes, start 0, two workers
//! let (room, margin) = (chapter_room(4096), chapter_margin(4096));
//! let sink = NullSink { position: 0 };
//! let ring = Opened::open(&rt, alloc, 0, 4096, 0, 2, room, margin, sink)?;
//! let jobs = [
//!     Job {
//!         worker: 0,
//!         program: &program,
//!         ctx: &[1; 16],
//!     },
//!     Job {
//!         worker: 1,
//!         program: &program,
//!         ctx: &[2; 16],
//!     },
//! ];
//! let Ok(report) = run_jobs(&rt, alloc, vec![in alloc; ring]?, &jobs, &OpenGate) else {
//!     return Err(Fail::from("no report"));
//! };
//! assert_eq!(rt; report.answers.as_slice(), [Ok(0), Ok(0)].as_slice());
//! for ended in &report.rings {
//!     assert_eq!(rt; ended.closing.counts().consumed, 2);
//! }
//! ```
//!
//! Waiting, fairness and time are outside of the proofs: whether a run ends, whether work is done in separate threads,
//! how often a keeper looks, when a record reaches its sink, and what a gate does.
#![tactic(auto)]

mod chapter_sizes;
mod consumer_task;
mod distribution;
mod job_answers;
mod jobs_run;
mod null_sink;
mod opened;
mod pace;
mod rest;
mod ring_close;
mod run_buffers;
pub mod run_parts;
mod sink;
mod stored_answer;
mod threads;
pub mod used_sheets;
mod workers;

pub use chapter_sizes::{chapter_margin, chapter_room, chapters_follow_their_ring};
pub use jobs_run::run_jobs;
pub use null_sink::NullSink;
pub use opened::{Ended, JobFault, JobsReport, Opened};
pub use rb_chapter_ring::Chapter;
pub use rb_consumer::Keeper;
pub use rb_jobs::{Gate, Job, OpenGate};
pub use rb_tape::{Event, Item};
pub use sink::Sink;
