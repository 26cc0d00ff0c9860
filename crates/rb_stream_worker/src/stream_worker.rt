//! A worker of a stream.

ghost use Rattle.std.specs.Prelude.{◌≡◌, ◌≤◌, [], IfOk, length, vec_capacity};
ghost use Rattle.rb_stream_worker.specs.ContextRuns.{IsNewWorker};

use crate::live_counts::{CountOptions, LiveCounts};
use crate::stream_counts::StreamCounts;
use crate::when_full::WhenFull;
use rb_shared_ring::{Seat, SharedRing};
use rb_verifier::Verified;
use std::alloc::{AllocError, Global};

/// A worker that runs every program over every context of the pieces that it is given, over its seats: one at each of
/// the rings, in the rings' order.
#[derive(Drop)]
pub struct StreamWorker<'w, R, K> {
    /// The runtime for waits.
    pub rt: &'w R,
    /// The allocator for the memory of runs.
    pub alloc: Global,
    /// Its number.
    pub number: u32,
    /// The rings.
    pub rings: &'w [SharedRing],
    /// The programs.
    pub programs: &'w [Verified],
    /// What it does before it runs contexts, in case a ring is full.
    pub full: &'w WhenFull,
    /// The length of the contexts, for which all programs were verified.
    pub ctx_len: u32,
    /// The stock of used sheets, which its records reuse.
    pub stock: &'w K,
    /// Its seats, in the order of the rings.
    pub seats: Vec<Seat>,
    /// Its counts.
    pub counts: StreamCounts,
    /// Where it publishes its counts after each piece.
    pub live: &'w LiveCounts,
}

impl<'w, R, K> StreamWorker<'w, R, K> {
    /// Returns a worker that has counted nothing, and has no seats yet but room for one at each ring. It has a separate
    /// count for each result below the bound. Returns `AllocError` if its tables and the vector for its seats can't be
    /// allocated.
    pub fn new(
        rt: &'w R,
        alloc: Global,
        number: u32,
        rings: &'w [SharedRing],
        programs: &'w [Verified],
        full: &'w WhenFull,
        ctx_len: u32,
        stock: &'w K,
        options: CountOptions<'w>,
    ) -> Result<StreamWorker<'w, R, K>, AllocError>
        ensures new { IfOk result (IsNewWorker number rings.now programs.now full.now ctx_len options.entry.bound) }
    {
        let seats = Vec::with_capacity(alloc, rings.len())?;
        let counts = StreamCounts::new(alloc, programs.len(), options.bound)?;
        Ok(StreamWorker {
            rt,
            alloc,
            number,
            rings,
            programs,
            full,
            ctx_len,
            stock,
            seats,
            counts,
            live: options.live,
        })
    }
}
