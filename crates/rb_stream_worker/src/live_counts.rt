//! The counts of a stream's workers while the stream runs.

use crate::result_counts::ResultCounts;
use crate::stream_counts::StreamCounts;
use rb_shared_ring::Seat;
use std::alloc::{AllocError, Global};
use std::sync::atomic::{AtomicU64, Ordering};

/// The counts of a stream's workers while the stream runs, which every thread can read.
///
/// Each worker publishes its own counts after each piece, so a reader sees all but the pieces that are being run. Once
/// the stream has ended, the counts are those of its report.
///
/// The value of an atomic is outside of the proofs, so no contract speaks of these counts: tests do.
#[derive(Drop)]
pub struct LiveCounts {
    /// The number of contexts that the reader dropped.
    pub dropped: AtomicU64,
    workers: Vec<LiveWorker>,
    programs: usize,
    bound: u32,
}

/// How a stream counts.
#[derive(Clone, Copy)]
pub struct CountOptions<'c> {
    /// Results below this bound are counted individually.
    pub bound: u32,
    /// Where workers publish their counts while the stream runs.
    pub live: &'c LiveCounts,
}

// The counts of a worker.
#[derive(Drop)]
struct LiveWorker {
    contexts: AtomicU64,
    unlogged: AtomicU64,
    // Those of each program's runs.
    results: Vec<LiveResults>,
    // Those of its seat at each ring.
    seats: Vec<LiveSeat>,
}

// The counts of a program's results.
#[derive(Drop)]
struct LiveResults {
    below: Vec<AtomicU64>,
    other: AtomicU64,
}

// The counts of a seat.
#[derive(Drop)]
struct LiveSeat {
    made: AtomicU64,
    refused: AtomicU64,
}

// Stores a count. Returns how much it is above the one that was stored before. A count that has not changed is not
// stored, since a store takes longer than a load.
fn publish_count(live: &AtomicU64, count: u64) -> u64 {
    let before = live.load(Ordering::SeqCst);
    if before != count {
        live.store(count, Ordering::SeqCst);
    }
    count.saturating_sub(before)
}

impl LiveResults {
    fn new(alloc: Global, bound: u32) -> Result<LiveResults, AllocError> {
        let mut below = Vec::with_capacity(alloc, bound as usize)?;
        for _ in 0..bound {
            below.push(AtomicU64::new(0))?;
        }
        Ok(LiveResults {
            below,
            other: AtomicU64::new(0),
        })
    }

    // Publishes the counts of a program, of which this many runs are new. Ends once it has found all of them, so the
    // time does not grow with the number of results that are counted individually, if low ones are frequent.
    fn publish(&self, counts: &ResultCounts, new: u64) {
        let mut left = new.saturating_sub(publish_count(&self.other, counts.other));
        for at in 0..self.below.len().min(counts.below.len()) {
            if left == 0 {
                return;
            }
            left = left.saturating_sub(publish_count(&self.below[at], counts.below[at]));
        }
    }

    // Adds these counts to a total.
    fn add_to(&self, total: &mut ResultCounts) {
        for at in 0..self.below.len().min(total.below.len()) {
            let count = self.below[at].load(Ordering::SeqCst);
            total.below[at] = total.below[at].saturating_add(count);
        }
        let other = self.other.load(Ordering::SeqCst);
        total.other = total.other.saturating_add(other);
    }
}

impl LiveWorker {
    fn new(
        alloc: Global,
        programs: usize,
        rings: usize,
        bound: u32,
    ) -> Result<LiveWorker, AllocError> {
        let mut results = Vec::with_capacity(alloc, programs)?;
        for _ in 0..programs {
            results.push(LiveResults::new(alloc, bound)?)?;
        }
        let mut seats = Vec::with_capacity(alloc, rings)?;
        for _ in 0..rings {
            seats.push(LiveSeat {
                made: AtomicU64::new(0),
                refused: AtomicU64::new(0),
            })?;
        }
        Ok(LiveWorker {
            contexts: AtomicU64::new(0),
            unlogged: AtomicU64::new(0),
            results,
            seats,
        })
    }

    // Publishes the counts of this worker. The contexts come last, so that a reader that has seen a context sees its
    // runs.
    fn publish(&self, counts: &StreamCounts, seats: &[Seat]) {
        for at in 0..self.seats.len().min(seats.len()) {
            publish_count(&self.seats[at].made, seats[at].made());
            publish_count(&self.seats[at].refused, seats[at].refused());
        }
        let mut new = counts
            .contexts
            .saturating_sub(self.contexts.load(Ordering::SeqCst));
        if counts.stopped {
            // Some programs ran over the context at which the worker stopped.
            new = u64::MAX;
        }
        for at in 0..self.results.len().min(counts.results.len()) {
            self.results[at].publish(&counts.results[at], new);
        }
        publish_count(&self.unlogged, counts.unlogged);
        publish_count(&self.contexts, counts.contexts);
    }
}

impl LiveCounts {
    /// Returns counts of 0 for this many workers, each of which runs `programs` programs over `rings` rings and counts
    /// results below `bound` individually. Returns `AllocError` if the tables can't be allocated.
    ///
    /// Without workers nothing is published except the number of dropped contexts.
    pub fn new(
        alloc: Global,
        workers: u32,
        programs: usize,
        rings: usize,
        bound: u32,
    ) -> Result<LiveCounts, AllocError> {
        let mut all = Vec::with_capacity(alloc, workers as usize)?;
        for _ in 0..workers {
            all.push(LiveWorker::new(alloc, programs, rings, bound)?)?;
        }
        Ok(LiveCounts {
            dropped: AtomicU64::new(0),
            workers: all,
            programs,
            bound,
        })
    }

    /// Publishes the counts of the worker with this number, and those of its seats. Workers, programs, results and
    /// rings for which there is no count are left out.
    pub(crate) fn publish(&self, worker: u32, counts: &StreamCounts, seats: &[Seat]) {
        if let Some(own) = self.workers.get(worker as usize) {
            own.publish(counts, seats);
        }
    }

    /// Returns the number of contexts that were run. Saturates at `u64::MAX`, as all sums over workers do.
    pub fn run(&self) -> u64 {
        let mut sum: u64 = 0;
        for worker in &self.workers {
            sum = sum.saturating_add(worker.contexts.load(Ordering::SeqCst));
        }
        sum
    }

    /// Returns the number of helper calls that failed without an entry in a ring's history that explains it.
    pub fn unlogged(&self) -> u64 {
        let mut sum: u64 = 0;
        for worker in &self.workers {
            sum = sum.saturating_add(worker.unlogged.load(Ordering::SeqCst));
        }
        sum
    }

    /// Returns how many reservations and outputs the ring with this number granted, and how many it refused for lack of
    /// room.
    pub fn requests(&self, ring: usize) -> (u64, u64) {
        let (mut made, mut refused): (u64, u64) = (0, 0);
        for worker in &self.workers {
            if let Some(seat) = worker.seats.get(ring) {
                made = made.saturating_add(seat.made.load(Ordering::SeqCst));
                refused = refused.saturating_add(seat.refused.load(Ordering::SeqCst));
            }
        }
        (made, refused)
    }

    /// Returns how many runs of each program had which result, or `AllocError` if the tables can't be allocated.
    pub fn results(&self, alloc: Global) -> Result<Vec<ResultCounts>, AllocError> {
        let mut all = Vec::with_capacity(alloc, self.programs)?;
        for program in 0..self.programs {
            let mut total = ResultCounts::new(alloc, self.bound)?;
            for worker in &self.workers {
                if let Some(results) = worker.results.get(program) {
                    results.add_to(&mut total);
                }
            }
            all.push(total)?;
        }
        Ok(all)
    }
}
