//! The memory for a whole run, allocated before anything moves.

ghost use Rattle.std.specs.Prelude.{ℕ, All, ◌≡◌, ◌<◌, ◌≤◌, [], IfOk, length, slice_index_or, vec_capacity, vec_len};
ghost use Rattle.rb_workers.specs.inner.RunBuffers.{IsEmptyFor, HasRoomForRun};
ghost use Rattle.rb_workers.specs.inner.WorkerRuns.{IsNew};

use crate::consumer_task::ConsumerTask;
use crate::opened::{Ended, Opened};
use crate::pace::BATCH;
use crate::used_sheets::PLACES;
use crate::workers::Worker;
use crossbeam_queue::ArrayQueue;
use rb_consumer::Batch;
use rb_history::Tally;
use rb_interp::RunFault;
use rb_lend::Sheet;
use rb_shared_ring::SharedRing;
use std::alloc::{AllocError, Global};

/// Empty buffers for everything that a run moves and makes, and the workers, which have no seats yet.
#[derive(Drop)]
pub struct RunBuffers<S> {
    /// For the rings.
    pub rings: Vec<SharedRing>,
    /// For what each ring's thread owns.
    pub consumers: Vec<ConsumerTask<S>>,
    /// One for each ring.
    pub batches: Vec<Batch>,
    /// For what is left in the rings at the end.
    pub rest: Batch,
    /// For used sheets.
    pub sheets: ArrayQueue<Sheet>,
    /// For the merged rings.
    pub merged: Vec<Opened<S>>,
    /// The workers.
    pub workers: Vec<Worker>,
    /// A row of counts for each ring.
    pub tallies: Vec<Vec<Tally>>,
    /// For the closed rings.
    pub ended: Vec<Ended<S>>,
    /// For the results of the jobs.
    pub results: Vec<Result<u64, RunFault>>,
}

/// Returns `count` zeros, one for each worker, or none if the allocation fails.
pub(crate) fn zero_counts(alloc: Global, count: u32) -> Vec<usize> {
    match vec![in alloc; 0; count as usize] {
        Ok(counts) => counts,
        Err(_) => Vec::new(alloc),
    }
}

// Returns workers, each with room for a seat at each ring and for as many answers as the number of its jobs in
// `counts`. A worker without a count allocates while its jobs run.
fn new_workers(
    alloc: Global,
    count: u32,
    counts: &[usize],
    rings: usize,
) -> Result<Vec<Worker>, AllocError>
    ensures len { IfOk result (λ v. vec_len v ≡ count) }
    ensures each { IfOk result (λ v. (k : ℕ) (d : _) → k < count → IsNew k rings (slice_index_or v.items k d)) }
{
    let mut workers = Vec::with_capacity(alloc, count as usize)?;
    for number in 0..count {
        let seats = Vec::with_capacity(alloc, rings)?;
        let own = counts.get(number as usize).copied().unwrap_or(0);
        let answers = Vec::with_capacity(alloc, own)?;
        workers.push_reserved(Worker {
            number,
            calls: 0,
            short: false,
            seats,
            answers,
        });
    }
    Ok(workers)
}

// Returns an empty row for each ring, with room for each worker's counts.
fn new_tallies(alloc: Global, count: u32, rings: usize) -> Result<Vec<Vec<Tally>>, AllocError>
    ensures len { IfOk result (λ v. vec_len v ≡ rings) }
    ensures each { IfOk result (λ v. All (IsEmptyFor count) v.items) }
{
    let mut rows = Vec::with_capacity(alloc, rings)?;
    for _ in 0..rings {
        let row = Vec::with_capacity(alloc, count as usize)?;
        rows.push_reserved(row);
    }
    Ok(rows)
}

// Returns an empty batch for each ring.
fn new_batches(alloc: Global, rings: usize) -> Result<Vec<Batch>, AllocError>
    ensures len { IfOk result (λ v. vec_len v ≡ rings) }
{
    let mut batches = Vec::with_capacity(alloc, rings)?;
    for _ in 0..rings {
        batches.push_reserved(Batch::with_capacity(alloc, BATCH)?);
    }
    Ok(batches)
}

/// Allocates all memory that a run over these rings, workers and jobs needs before its first job. `counts` has the
/// number of each worker's jobs.
pub fn make_buffers<S: Drop>(
    alloc: Global,
    count: u32,
    counts: &[usize],
    rings: usize,
    jobs: usize,
) -> Result<RunBuffers<S>, AllocError>
    ensures roomy { IfOk result (HasRoomForRun count rings jobs) }
{
    let workers = new_workers(alloc, count, counts, rings)?;
    let tallies = new_tallies(alloc, count, rings)?;
    let batches = new_batches(alloc, rings)?;
    let rest = Batch::with_capacity(alloc, BATCH)?;
    let sheets = ArrayQueue::new(alloc, PLACES)?;
    let consumers = Vec::with_capacity(alloc, rings)?;
    let merged = Vec::with_capacity(alloc, rings)?;
    let ended = Vec::with_capacity(alloc, rings)?;
    let rings = Vec::with_capacity(alloc, rings)?;
    let results = Vec::with_capacity(alloc, jobs)?;
    Ok(RunBuffers {
        rings,
        consumers,
        batches,
        rest,
        sheets,
        merged,
        workers,
        tallies,
        ended,
        results,
    })
}
