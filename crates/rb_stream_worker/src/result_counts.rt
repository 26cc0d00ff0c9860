//! Counts of a program's results.

ghost use Rattle.std.specs.Prelude.{◌≡◌, ◌<◌, ◌∷◌, [], IfOk, length, slice_index_or, vec_len};
ghost use Rattle.rb_stream_worker.specs.Results.{CountsResults, IsNewResults};

use std::alloc::{AllocError, Global};

/// Counts of results: a separate count for each result below a bound, and one for all others together. Each count
/// saturates at `u64::MAX`.
///
/// `new` allocates the table, and no other call allocates.
#[derive(Drop)]
pub struct ResultCounts {
    /// How often each result below the bound was counted.
    pub below: Vec<u64>,
    /// How often another result was counted.
    pub other: u64,
}

impl ResultCounts {
    /// Returns counts of 0 for the results below `bound` and for all others, or `AllocError` if the table can't be
    /// allocated.
    pub fn new(alloc: Global, bound: u32) -> Result<ResultCounts, AllocError>
        ensures zero { IfOk result (IsNewResults bound) }
    {
        Ok(ResultCounts {
            below: vec![in alloc; 0; bound as usize]?,
            other: 0,
        })
    }

    /// Counts a result.
    pub fn count(&mut self, number: u64)
        ensures counted { CountsResults (number ∷ []) self.old self.new }
    {
        if number < self.below.len() as u64 {
            let at = number as usize;
            self.below[at] = self.below[at].saturating_add(1);
        } else {
            self.other = self.other.saturating_add(1);
        }
    }
}
