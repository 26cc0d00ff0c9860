//! A worker of a stream: it runs every program over every context that it is given, in order, and counts the results of
//! the runs.
//!
//! `StreamWorker` implements `rb_dealing::Work`, so `run_lanes` gives it the pieces that were dealt to it. Its contract
//! (`WorkerRuns` in `specs/ContextRuns.antt`) states that each context is run exactly once by each program, or counted
//! as left if an allocation for a run failed; that each run follows the program's semantics (RFC 9669) with the answers
//! of its helper calls, and returned a number; and that the counts are those of these runs.
//!
//! A worker may wait for room (`WhenFull::Wait`). Then it runs its contexts in turns, and before each turn it queries
//! every ring for its untaken bytes until they are within the ring's limit (`specs/Turns.antt`). How long it waits is
//! outside of the proofs.
//!
//! A run allocates nothing that is kept: a worker's tables are allocated once, and the memory of a run is reused for
//! the next.
#![tactic(auto)]

mod context_runs;
mod live_counts;
mod looks;
mod result_counts;
mod stream_counts;
mod stream_worker;
mod turns;
mod when_full;
mod work_impl;

pub use live_counts::{CountOptions, LiveCounts};
pub use result_counts::ResultCounts;
pub use stream_counts::StreamCounts;
pub use stream_worker::StreamWorker;
pub use when_full::{Turns, WhenFull};
