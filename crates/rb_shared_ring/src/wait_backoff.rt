//! How long a thread waits for others.

ghost use Rattle.std.specs.Prelude.{◌≡◌, ◌*◌, min};

use crossbeam_utils::Backoff;

// The number of back-off steps of a first wait, 7 + 4: as many as crossbeam's `Backoff` makes until it is completed.
// The first seven spin 1, 2, 4 .. 64 times, 127 in all, and the other four yield the processor.
const FIRST: u32 = 11;

/// The number of back-off steps of the longest wait, after three doublings: some thirty microseconds.
pub(crate) const LONGEST: u32 = 8 * FIRST;

/// The waiting time of a thread that finds nothing to do: a microsecond or two at first, and twice as long each time,
/// up to some thirty.
///
/// Long waits make threads that share a ring faster. Threads that pass the ring back and forth with each record move
/// all data that a call touches from one core's cache to another's each time, while a thread that finds the data in its
/// own cache makes many calls in the same time.
#[derive(Clone, Copy, Debug, PartialEq, Eq)]
pub struct WaitBackoff {
    /// The number of back-off steps of the next wait. From the eighth on, a step yields the processor.
    pub backoffs: u32,
}

impl WaitBackoff {
    /// Returns the first wait of a thread.
    pub fn new() -> WaitBackoff
        ensures first { result.backoffs ≡ 11 }
    {
        WaitBackoff { backoffs: FIRST }
    }

    /// Waits, and doubles the next wait.
    pub fn wait(&mut self)
        ensures twice { self.new.backoffs ≡ min (2 * self.old.backoffs) 88 }
    {
        let backoff = Backoff::new();
        for _ in 0..self.backoffs {
            backoff.snooze();
        }
        self.backoffs = self.backoffs.saturating_mul(2).min(LONGEST);
    }
}
