//! The lanes of a stream: each has a worker, which gets its seats before the stream and returns them after it.

ghost use Rattle.std.specs.Prelude.{ℕ, ◌≡◌, ◌<◌, IfOk, length, map, slice_index_or};
ghost use Rattle.std.specs.List.{All};
ghost use Rattle.rb_stream.specs.inner.Counts.{AddsCounts, SameTables};
ghost use Rattle.rb_stream.specs.inner.Lanes.{AreNewLanes, SwapsSeats};

use crate::totals::add_counts;
use rb_dealing::{Lane, LaneFeed, add_lane};
use rb_shared_ring::SharedRing;
use rb_stream_worker::{CountOptions, StreamCounts, StreamWorker, WhenFull};
use rb_verifier::Verified;
use rb_workers::run_parts::Worker;
use std::alloc::{AllocError, Global};
use std::mem;
use std::sync::Wait;

/// The lanes of a stream, and the reader's ends of their queues.
#[derive(Drop)]
pub(crate) struct Lanes<'w, R, K> {
    pub(crate) feeds: Vec<LaneFeed>,
    pub(crate) lanes: Vec<Lane<StreamWorker<'w, R, K>>>,
}

/// Returns a lane for each worker, with empty queues. The workers in them have no seats yet.
pub(crate) fn make_lanes<'w, R, K>(
    rt: &'w R,
    alloc: Global,
    rings: &'w [SharedRing],
    programs: &'w [Verified],
    full: &'w WhenFull,
    ctx_len: u32,
    options: CountOptions<'w>,
    stock: &'w K,
    workers: &[Worker],
) -> Result<Lanes<'w, R, K>, AllocError>
    requires numbered { (k : ℕ) (d : _) → k < length workers.now → (slice_index_or workers.now k d).number ≡ k }
    ensures new { IfOk result (AreNewLanes (length workers.now) rings.now programs.now full.now ctx_len options.entry.bound) }
{
    let mut feeds = Vec::new(alloc);
    let mut lanes = Vec::new(alloc);
    for at in 0..workers.len() {
        let number = workers[at].number;
        let worker = StreamWorker::new(
            rt, alloc, number, rings, programs, full, ctx_len, stock, options,
        )?;
        add_lane(alloc, worker, &mut feeds, &mut lanes)?;
    }
    Ok(Lanes { feeds, lanes })
}

/// Exchanges the seats of each worker with those of the worker in its lane.
pub(crate) fn swap_seats<R, K>(workers: &mut [Worker], lanes: &mut [Lane<StreamWorker<'_, R, K>>])
    requires pairs { length workers.old ≡ length lanes.old }
    ensures swapped { SwapsSeats workers.old workers.new lanes.old lanes.new }
{
    for at in 0..lanes.len() {
        mem::swap(&mut workers[at].seats, &mut lanes[at].worker.seats);
    }
}

/// Adds up the counts of the workers in the lanes.
pub(crate) fn add_up<R, K>(lanes: &[Lane<StreamWorker<'_, R, K>>], total: &mut StreamCounts)
    requires tables { All (λ lane. SameTables lane.worker.counts total.old) lanes.now }
    ensures added { AddsCounts (map (λ lane. lane.worker.counts) lanes.now) total.old total.new }
{
    for lane in lanes {
        add_counts(total, &lane.worker.counts);
    }
}
