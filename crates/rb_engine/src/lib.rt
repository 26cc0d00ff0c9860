//! An engine: rings and verified programs that persist between calls, for one thread and without a lock.
//!
//! Each ring of an engine is a `RingState` of `rb_chapter_ring`. Programs run over the rings one after another; between
//! the runs, the caller puts records into the rings and takes records from them. Each call continues with the rings as
//! the previous call left them.
#![tactic(auto)]

mod engine;
mod engine_ring;
mod engine_rings;

pub use engine::{Engine, NoRun};
pub use engine_ring::NotSent;
