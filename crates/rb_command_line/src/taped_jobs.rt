//! Counts the jobs of a run that have ended and whose records have all been written to the tape. Tests show it; no
//! contract mentions it.

use std::alloc::{AllocError, Global};
use std::sync::atomic::{AtomicBool, AtomicU64, Ordering};

/// The number of jobs of a worker after which they are counted.
pub(crate) const JOBS: u64 = 256;

/// The maximal number of workers of a run.
const WORKERS: usize = 256;

#[derive(Drop)]
// The jobs that a worker has ended.
struct EndedJobs {
    // Their number, counted after every 256 jobs and after the last one. The worker's thread writes it.
    count: AtomicU64,
    // Their number at the last mark. The consumer's thread writes it.
    marked: AtomicU64,
}

#[derive(Drop)]
/// Counts the jobs of a run whose records have all been written to its tape.
///
/// The consumer's thread makes a *mark*: it notes how many jobs each worker has ended. All records of these jobs are
/// then in the ring, or were taken before, so they are on the tape as soon as one of these holds:
///
/// - The tape is written out up to a ring's size after the position of the mark. A ring never has more bytes in use
///   than its size.
/// - Each worker has ended a job since the mark, and a batch that began after that took everything that it could. A
///   record that stops such a batch belongs to a job that began after the mark, and records are taken in order.
///
/// Then the jobs of the mark may be reported, and the next mark is made.
pub(crate) struct TapedJobs {
    // The number of jobs that each worker runs.
    each: u64,
    ended: Vec<EndedJobs>,
    // The number of jobs that had ended at the mark.
    marked: AtomicU64,
    // A position: the jobs of the mark are on the tape once it is written out that far.
    goal: AtomicU64,
    // Whether each worker was seen to have ended a job since the mark.
    is_passed: AtomicBool,
    // The number of jobs that may be reported.
    written: AtomicU64,
}

impl TapedJobs {
    /// Returns a counter without jobs, for `workers` workers that run `each` jobs each. Fails if memory can't be
    /// allocated.
    pub(crate) fn new(alloc: Global, workers: u64, each: u64) -> Result<TapedJobs, AllocError> {
        let count = usize::try_from(workers).unwrap_or(WORKERS).min(WORKERS);
        let mut ended = Vec::with_capacity(alloc, count)?;
        for _ in 0..count {
            ended.push(EndedJobs {
                count: AtomicU64::new(0),
                marked: AtomicU64::new(0),
            })?;
        }
        Ok(TapedJobs {
            each,
            ended,
            marked: AtomicU64::new(0),
            goal: AtomicU64::new(0),
            is_passed: AtomicBool::new(false),
            written: AtomicU64::new(0),
        })
    }

    #[inline]
    /// Counts the jobs that the worker has ended. Called after each job.
    pub(crate) fn count(&self, worker: u32, jobs: u64) {
        if jobs % JOBS != 0 && jobs != self.each {
            return;
        }
        if let Some(ended) = self.ended.get(worker as usize) {
            ended.count.store(jobs, Ordering::SeqCst);
        }
    }

    /// Returns how many jobs have ended whose records are all on the tape.
    pub(crate) fn written(&self) -> u64 {
        self.written.load(Ordering::SeqCst)
    }

    /// Notes that the tape of a ring of `size` bytes is written out up to this position, which is the consumer
    /// position, and whether the consumer had just taken everything that it could. Called only on the consumer's
    /// thread.
    pub(crate) fn written_out(&self, position: u64, size: u64, caught_up: bool) {
        if position >= self.goal.load(Ordering::SeqCst)
            || (caught_up && self.is_passed.load(Ordering::SeqCst))
        {
            let marked = self.marked.load(Ordering::SeqCst);
            self.written.store(marked, Ordering::SeqCst);
            self.mark(position, size);
        } else {
            self.is_passed
                .store(self.has_each_passed(), Ordering::SeqCst);
        }
    }

    // Makes a mark at this position.
    fn mark(&self, position: u64, size: u64) {
        let mut all = 0u64;
        for ended in &self.ended {
            let count = ended.count.load(Ordering::SeqCst);
            ended.marked.store(count, Ordering::SeqCst);
            all = all.saturating_add(count);
        }
        self.marked.store(all, Ordering::SeqCst);
        self.goal
            .store(position.saturating_add(size), Ordering::SeqCst);
        self.is_passed.store(false, Ordering::SeqCst);
    }

    // Returns whether each worker has ended a job since the mark, or all of its jobs.
    fn has_each_passed(&self) -> bool {
        for ended in &self.ended {
            let count = ended.count.load(Ordering::SeqCst);
            if count == ended.marked.load(Ordering::SeqCst) && count != self.each {
                return false;
            }
        }
        true
    }
}
