//! Streams of contexts on threads over one ring, and how many of them got no record.

ghost use Rattle.rb_workers.specs.Opened.{AreOpened};

use super::jobs::opened;
use super::repeated_context::RepeatedContext;
use crate::fault::TrialFault;
use rb_stream::{Late, StreamReport, run_stream};
use rb_stream_worker::{CountOptions, LiveCounts};
use rb_verifier::Verified;
use rb_waiting::{plan_turns, run_waiting_stream};
use rb_workers::{NullSink, Opened};
use std::alloc::Global;
use std::sync::Wait;
use std::thread::Threads;

// Results below this number are counted individually.
const RESULTS: u32 = 16;

/// What workers do before they run contexts.
#[derive(Clone, Copy)]
pub(crate) enum Start {
    /// They run them at once.
    AtOnce,
    /// They wait until there is room for the records of a turn.
    WithRoom,
}

/// Runs the programs over the contexts of the source, and returns how many got no record from the first program.
pub(crate) fn stream_all<R: Threads + Wait + Sync>(
    rt: &R,
    alloc: Global,
    rings: Vec<Opened<NullSink>>,
    programs: &[Verified],
    source: &mut RepeatedContext,
    start: Start,
) -> Result<u64, TrialFault>
    requires { AreOpened (λ s. s.position) rings.items }
{
    let workers = match rings.first() {
        Some(one) => u32::try_from(one.seats.len()).unwrap_or(0),
        None => 0,
    };
    let live = LiveCounts::new(alloc, workers, programs.len(), rings.len(), RESULTS)?;
    let options = CountOptions {
        bound: RESULTS,
        live: &live,
    };
    let report = match start {
        Start::AtOnce => stream_at_once(rt, alloc, rings, programs, source, options)?,
        Start::WithRoom => stream_with_room(rt, alloc, rings, programs, source, options)?,
    };
    Ok(without_record(&report))
}

fn stream_at_once<R: Threads + Wait + Sync>(
    rt: &R,
    alloc: Global,
    rings: Vec<Opened<NullSink>>,
    programs: &[Verified],
    source: &mut RepeatedContext,
    options: CountOptions<'_>,
) -> Result<StreamReport<NullSink>, TrialFault>
    requires { AreOpened (λ s. s.position) rings.items }
{
    match run_stream(rt, alloc, rings, programs, source, Late::Block, options) {
        Ok(report) => Ok(report),
        Err(_) => Err(TrialFault::Memory),
    }
}

fn stream_with_room<R: Threads + Wait + Sync>(
    rt: &R,
    alloc: Global,
    rings: Vec<Opened<NullSink>>,
    programs: &[Verified],
    source: &mut RepeatedContext,
    options: CountOptions<'_>,
) -> Result<StreamReport<NullSink>, TrialFault>
    requires { AreOpened (λ s. s.position) rings.items }
{
    let Ok(turns) = plan_turns(alloc, rings.as_slice(), programs) else {
        return Err(TrialFault::Ring);
    };
    match run_waiting_stream(
        rt,
        alloc,
        rings,
        programs,
        source,
        Late::Block,
        options,
        turns,
    ) {
        Ok(report) => Ok(report),
        Err(_) => Err(TrialFault::Memory),
    }
}

// Returns how many runs of the first program had another result than 0.
fn without_record(report: &StreamReport<NullSink>) -> u64 {
    let Some(counts) = report.results.first() else {
        return report.ran;
    };
    let with_record = counts.below.first().copied().unwrap_or(0);
    report.ran.saturating_sub(with_record)
}

/// Opens a ring, runs a program over the contexts of the source, and returns how many got no record.
pub(crate) fn stream_over<R: Threads + Wait + Sync>(
    rt: &R,
    alloc: Global,
    program: Verified,
    workers: u32,
    mut source: RepeatedContext,
    start: Start,
) -> Result<u64, TrialFault> {
    let programs = vec![in alloc; program]?;
    let rings = opened(rt, alloc, workers)?;
    stream_all(rt, alloc, rings, programs.as_slice(), &mut source, start)
}
