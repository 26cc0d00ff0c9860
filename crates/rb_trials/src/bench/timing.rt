//! The duration of the rounds of a workload.

ghost use Rattle.rb_workers.specs.Opened.{AreOpened};

use super::interpreter::{load_often, loaded, run_rounds};
use super::jobs::{jobs_of, opened, reserving_program, run_all};
use super::one_thread::{output_and_take, reserve_and_submit};
use super::programs::{Body, program_of};
use super::repeated_context::{ContextLen, RepeatedContext};
use super::streams::{Start, stream_all};
use super::threads::share;
use super::workload::Workload;
use crate::fault::TrialFault;
use rb_verifier::Verified;
use rb_workers::{Job, NullSink, Opened};
use std::alloc::Global;
use std::io::Print;
use std::sync::Wait;
use std::thread::Threads;
use std::time::{Clock, Instant};

// How often a workload runs and is reported, after one run that is not.
const ROUNDS: u32 = 3;

// How often a program of 4,000 units is loaded in each round, and how often it runs.
const LOADS: u32 = 20;

const RUNS: u32 = 250;

/// The result of a round.
#[derive(Clone, Copy)]
struct Round {
    nanos: u64,
    refused: u64,
}

/// Runs a workload once, and then prints for each of three rounds a line with its nanoseconds and with how many records
/// or jobs were refused.
pub(crate) fn run<R: Threads + Wait + Sync + Print + Clock>(
    rt: &R,
    alloc: Global,
    workload: Workload,
) -> Result<(), TrialFault> {
    let _warm = one_round(rt, alloc, workload)?;
    for _ in 0..ROUNDS {
        let Round { nanos, refused } = one_round(rt, alloc, workload)?;
        println!(rt; "{nanos} {refused}")?;
    }
    Ok(())
}

// Runs one round of a workload; its data are made before the clock starts.
fn one_round<R: Threads + Wait + Sync + Clock>(
    rt: &R,
    alloc: Global,
    workload: Workload,
) -> Result<Round, TrialFault> {
    match workload {
        Workload::OutputTake { len, records } => outputs(rt, alloc, records, len),
        Workload::ReserveSubmitTake { len, records } => submits(rt, alloc, records, len),
        Workload::Shared { producers, each } => shares(rt, alloc, producers, each),
        Workload::Load { units } => loads(rt, alloc, Body::Arithmetic, units),
        Workload::Spill => loads(rt, alloc, Body::Spilling, 4095),
        Workload::Arithmetic => runs(rt, alloc, Body::Arithmetic),
        Workload::Stack => runs(rt, alloc, Body::Stack),
        Workload::Memory => runs(rt, alloc, Body::Memory),
        Workload::Jobs { workers, each, len } => jobs(rt, alloc, workers, each, len),
        Workload::Stream {
            workers,
            each,
            len,
            start,
        } => streams(rt, alloc, workers, each, len, start),
    }
}

fn outputs<R: Clock>(rt: &R, alloc: Global, records: u32, len: u32) -> Result<Round, TrialFault> {
    let start = Instant::now(rt)?;
    let _sum = output_and_take(alloc, records, len)?;
    ended(rt, start, 0)
}

fn submits<R: Clock>(rt: &R, alloc: Global, records: u32, len: u32) -> Result<Round, TrialFault> {
    let start = Instant::now(rt)?;
    let _sum = reserve_and_submit(alloc, records, len)?;
    ended(rt, start, 0)
}

fn shares<R: Threads + Wait + Sync + Clock>(
    rt: &R,
    alloc: Global,
    producers: u32,
    each: u32,
) -> Result<Round, TrialFault> {
    let start = Instant::now(rt)?;
    let shared = share(rt, alloc, producers, each)?;
    ended(rt, start, shared.refused)
}

fn loads<R: Clock>(rt: &R, alloc: Global, body: Body, units: u32) -> Result<Round, TrialFault> {
    let bytes = program_of(alloc, body, units)?;
    timed_loads(rt, alloc, bytes.as_slice())
}

fn timed_loads<R: Clock>(rt: &R, alloc: Global, bytes: &[u8]) -> Result<Round, TrialFault> {
    let start = Instant::now(rt)?;
    let _units = load_often(alloc, bytes, LOADS)?;
    ended(rt, start, 0)
}

fn runs<R: Clock>(rt: &R, alloc: Global, body: Body) -> Result<Round, TrialFault> {
    let program = loaded(alloc, body, 4000)?;
    timed_runs(rt, alloc, &program)
}

fn timed_runs<R: Clock>(rt: &R, alloc: Global, program: &Verified) -> Result<Round, TrialFault> {
    let start = Instant::now(rt)?;
    let _sum = run_rounds(alloc, program, RUNS)?;
    ended(rt, start, 0)
}

fn jobs<R: Threads + Wait + Sync + Clock>(
    rt: &R,
    alloc: Global,
    workers: u32,
    each: u32,
    len: ContextLen,
) -> Result<Round, TrialFault> {
    let program = reserving_program(alloc, len)?;
    jobs_over(rt, alloc, &program, workers, each, len)
}

fn jobs_over<R: Threads + Wait + Sync + Clock>(
    rt: &R,
    alloc: Global,
    program: &Verified,
    workers: u32,
    each: u32,
    len: ContextLen,
) -> Result<Round, TrialFault> {
    let jobs = jobs_of(alloc, program, workers, each, len)?;
    let rings = opened(rt, alloc, workers)?;
    timed_jobs(rt, alloc, rings, jobs.as_slice())
}

// Measures the time from the threads' start to their end.
fn timed_jobs<R: Threads + Wait + Sync + Clock>(
    rt: &R,
    alloc: Global,
    rings: Vec<Opened<NullSink>>,
    jobs: &[Job<'_>],
) -> Result<Round, TrialFault>
    requires { AreOpened (λ s. s.position) rings.items }
{
    let start = Instant::now(rt)?;
    let refused = run_all(rt, alloc, rings, jobs)?;
    ended(rt, start, refused)
}

fn streams<R: Threads + Wait + Sync + Clock>(
    rt: &R,
    alloc: Global,
    workers: u32,
    each: u32,
    len: ContextLen,
    start: Start,
) -> Result<Round, TrialFault> {
    let programs = vec![in alloc; reserving_program(alloc, len)?]?;
    let left = u64::from(workers).saturating_mul(u64::from(each));
    let rings = opened(rt, alloc, workers)?;
    timed_stream(
        rt,
        alloc,
        rings,
        programs.as_slice(),
        RepeatedContext { len, left },
        start,
    )
}

// Measures the time from the threads' start to their end.
fn timed_stream<R: Threads + Wait + Sync + Clock>(
    rt: &R,
    alloc: Global,
    rings: Vec<Opened<NullSink>>,
    programs: &[Verified],
    mut source: RepeatedContext,
    start: Start,
) -> Result<Round, TrialFault>
    requires { AreOpened (λ s. s.position) rings.items }
{
    let begun = Instant::now(rt)?;
    let refused = stream_all(rt, alloc, rings, programs, &mut source, start)?;
    ended(rt, begun, refused)
}

// Returns a round that began at `start` and ends now.
fn ended<R: Clock>(rt: &R, start: Instant, refused: u64) -> Result<Round, TrialFault> {
    let elapsed = start.elapsed(rt)?;
    let nanos = u64::try_from(elapsed.as_nanos()).unwrap_or(u64::MAX);
    Ok(Round { nanos, refused })
}
