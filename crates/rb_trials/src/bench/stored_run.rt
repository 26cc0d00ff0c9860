//! The stored run: a small run of each workload, with the same output each time.

use super::interpreter::{loaded, run_rounds};
use super::jobs::{reserving_program, run_over};
use super::one_thread::{output_and_take, reserve_and_submit};
use super::programs::Body;
use super::repeated_context::{ContextLen, RepeatedContext};
use super::streams::{Start, stream_over};
use super::threads::share;
use crate::fault::TrialFault;
use std::alloc::Global;
use std::io::Print;
use std::sync::Wait;
use std::thread::Threads;

/// Runs each workload once, small, and prints its result.
pub(crate) fn run<R: Threads + Wait + Sync + Print>(
    rt: &R,
    alloc: Global,
) -> Result<(), TrialFault> {
    let told = [
        (
            "output and take, sum of first bytes",
            output_and_take(alloc, 1000, 8)?,
        ),
        (
            "reserve and submit, sum of first bytes",
            reserve_and_submit(alloc, 1000, 256)?,
        ),
        (
            "records through a shared ring",
            share(rt, alloc, 2, 500)?.consumed,
        ),
        ("arithmetic ends with", end_of(alloc, Body::Arithmetic)?),
        (
            "loads and stores of the stack end with",
            end_of(alloc, Body::Stack)?,
        ),
        (
            "loads and stores of each part end with",
            end_of(alloc, Body::Memory)?,
        ),
        ("jobs refused", jobs_refused(rt, alloc)?),
        (
            "contexts of a stream without a record",
            stream_refused(rt, alloc, 16, Start::AtOnce)?,
        ),
        (
            "contexts of a stream that waits for room without a record",
            stream_refused(rt, alloc, 128, Start::WithRoom)?,
        ),
    ];
    for (what, value) in told {
        println!(rt; "{what}: {value}")?;
    }
    Ok(())
}

// Returns the result of a program of 1,000 units.
fn end_of(alloc: Global, body: Body) -> Result<u64, TrialFault> {
    let program = loaded(alloc, body, 1000)?;
    run_rounds(alloc, &program, 1)
}

// Returns how many of 1,000 jobs got no record.
fn jobs_refused<R: Threads + Wait + Sync>(rt: &R, alloc: Global) -> Result<u64, TrialFault> {
    let len = ContextLen::or_short(16);
    let program = reserving_program(alloc, len)?;
    run_over(rt, alloc, &program, 2, 500, len)
}

// Returns how many of 1,000 contexts of a stream got no record.
fn stream_refused<R: Threads + Wait + Sync>(
    rt: &R,
    alloc: Global,
    bytes: u32,
    start: Start,
) -> Result<u64, TrialFault> {
    let len = ContextLen::or_short(bytes);
    let program = reserving_program(alloc, len)?;
    let source = RepeatedContext { len, left: 1000 };
    stream_over(rt, alloc, program, 2, source, start)
}
