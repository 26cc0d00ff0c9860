//! A flag by which a ring's consumer signals to the workers that a batch is in progress.

use crate::wait_backoff::LONGEST;
use crossbeam_utils::Backoff;
use std::sync::atomic::{AtomicBool, Ordering};

/// Whether the consumer holds the ring's state for a batch of records. It holds the state longer for a batch than a
/// worker does for a call, so a worker that finds the lock taken polls this flag, instead of backing off for long as it
/// does when another worker holds the state. The flag is a hint: a worker that polls too early or too late waits as it
/// does for another worker.
#[derive(Drop)]
pub(crate) struct BatchFlag {
    is_up: AtomicBool,
}

impl BatchFlag {
    /// Returns a flag that is down: no batch is in progress.
    pub(crate) fn new() -> BatchFlag {
        BatchFlag {
            is_up: AtomicBool::new(false),
        }
    }

    /// Raises the flag when a batch begins, and lowers it when the batch ends.
    pub(crate) fn set(&self, is_up: bool) {
        self.is_up.store(is_up, Ordering::SeqCst);
    }

    /// If a batch is in progress, waits for it to end, for at most `LONGEST` back-off steps. Returns whether a batch
    /// was in progress.
    pub(crate) fn wait_out(&self) -> bool {
        let backoff = Backoff::new();
        for count in 0..LONGEST {
            if !self.is_up.load(Ordering::SeqCst) {
                return count > 0;
            }
            backoff.snooze();
        }
        true
    }
}
