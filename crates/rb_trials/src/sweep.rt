//! Calls of the library that allocate, one after the other, each repeated once if it reports a failed allocation. It
//! prints the state after each call. `tools/trials sweep` runs it with each allocation failing in turn, and compares
//! the output.
//!
//! The argument names the calls: `ring`, `list`, `seats`, `shared` or `jobs`. A call that succeeded prints a line
//! `CALL: STATE`, and one whose allocation failed a line `CALL memory: STATE`, with the state after it, or
//! `CALL memory` if it was to make something new.

mod closed_rings;
mod jobs;
mod list_rings;
mod memory;
mod programs;
mod rings;
mod seats;
mod shared_rings;
mod sheets;
mod snapshot;

use crate::fault::TrialFault;
pub(crate) use memory::{TRIES, tell_memory};
use std::alloc::Global;
use std::io::Print;
use std::sync::Wait;
use std::thread::Threads;

/// Makes the calls that the argument names.
pub(crate) fn run<R: Threads + Wait + Sync + Print>(
    rt: &R,
    alloc: Global,
    words: &[String],
) -> Result<(), TrialFault> {
    let [word] = words else {
        return Err(TrialFault::Usage);
    };
    match word.as_str() {
        "ring" => rings::run(rt, alloc),
        "list" => list_rings::run(rt, alloc),
        "seats" => seats::run(rt, alloc),
        "shared" => shared_rings::run(rt, alloc),
        "jobs" => jobs::run(rt, alloc),
        _ => Err(TrialFault::Usage),
    }
}
