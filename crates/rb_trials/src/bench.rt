//! A benchmark of the rings, of verification, of the interpreter, of whole jobs and of streams. `tools/bench` runs it.
//!
//! Without arguments it makes one small run of each workload and prints the results, which are the same each time. With
//! the argument `time`, a workload's name and its numbers, it runs that workload, and prints for each of three rounds
//! its nanoseconds and how many records or jobs were refused. With the argument `payloads` it writes the input for the
//! measurement of `rbhost feed`.

mod interpreter;
mod jobs;
mod one_thread;
mod payloads;
mod programs;
mod repeated_context;
mod stored_run;
mod streams;
mod threads;
mod timing;
mod workload;

use crate::fault::TrialFault;
use std::alloc::Global;
use std::io::{Print, Write};
use std::sync::Wait;
use std::thread::Threads;
use std::time::Clock;
use workload::Workload;

/// Makes the runs that the arguments name.
pub(crate) fn run<R: Threads + Wait + Sync + Print + Clock, W: Write>(
    rt: &R,
    alloc: Global,
    words: &[String],
    out: &mut W,
) -> Result<(), TrialFault> {
    let [word, numbers @ ..] = words else {
        return stored_run::run(rt, alloc);
    };
    match word.as_str() {
        "time" => timing::run(rt, alloc, Workload::read(numbers)?),
        "payloads" => payloads::write(alloc, out),
        _ => Err(TrialFault::Usage),
    }
}
