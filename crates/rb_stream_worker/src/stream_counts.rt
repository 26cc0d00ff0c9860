//! The counts of a worker of a stream.

ghost use Rattle.std.specs.Prelude.{◌≡◌, ◌<◌, ◌∷◌, [], IfOk, length, true};
ghost use Rattle.rb_stream_worker.specs.ContextRuns.{CountsRuns, IsNewCounts};
ghost use Rattle.rb_stream_worker.specs.Results.{raised};
ghost use Rattle.rb_stream_worker.specs.Tasks.{TaskRun};
ghost use Rattle.rb_stream_worker.specs.inner.RanTasks.{SameContexts};

use crate::result_counts::ResultCounts;
use std::alloc::{AllocError, Global};

/// The counts of a worker of a stream. Each number saturates at `u64::MAX`.
#[derive(Drop)]
pub struct StreamCounts {
    /// The results of each program's runs.
    pub results: Vec<ResultCounts>,
    /// The number of contexts that were run.
    pub contexts: u64,
    /// The number of contexts that were left because the worker had stopped.
    pub left: u64,
    /// The number of helper calls that returned null for flags 0, or `-EAGAIN`, without an entry in a ring's history
    /// that explains it.
    pub unlogged: u64,
    /// Whether the worker stopped because an allocation for a run failed.
    pub stopped: bool,
}

impl StreamCounts {
    /// Returns counts of 0 for this many programs, each with a table for the results below `bound`.
    pub fn new(alloc: Global, programs: usize, bound: u32) -> Result<StreamCounts, AllocError>
        ensures zero { IfOk result (IsNewCounts programs bound) }
    {
        let mut results = Vec::with_capacity(alloc, programs)?;
        for _ in 0..programs {
            results.push_reserved(ResultCounts::new(alloc, bound)?);
        }
        Ok(StreamCounts {
            results,
            contexts: 0,
            left: 0,
            unlogged: 0,
            stopped: false,
        })
    }

    /// Counts a run of program `index` that returned this number.
    pub(crate) fn count_run(&mut self, index: usize, number: u64, unlogged: u64)
        requires index { index < length self.old.results.items }
        ensures counted { (run : TaskRun) → run.task.program ≡ index → run.result ≡ number → run.unlogged ≡ unlogged → CountsRuns (run ∷ []) self.old self.new }
        ensures same { SameContexts self.old self.new }
    {
        self.results[index].count(number);
        self.unlogged = self.unlogged.saturating_add(unlogged);
    }

    /// Counts this many contexts as left, because the worker stops or has stopped.
    pub(crate) fn leave(&mut self, count: usize)
        ensures { self.new ≡ record self.old { left = raised self.old.left count; stopped = true } }
    {
        self.stopped = true;
        self.left = self.left.saturating_add(count as u64);
    }
}
