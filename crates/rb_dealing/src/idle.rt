//! How long an idle thread waits.

use crossbeam_utils::Backoff;
use std::sync::Wait;
use std::thread::Parker;
use std::time::Duration;

// The number of times that a thread backs off before it sleeps: for about 0.8 milliseconds.
const LOOKS: u32 = 256;

// The length of a sleep, in milliseconds.
const SLEEP: u64 = 2;

// The number of times that a thread backs off before it parks: for about 0.1 milliseconds, a few times as long as a
// wake-up takes.
const LOOKS_BEFORE_PARKING: u32 = 32;

// The maximal length of a sleep from which another thread wakes this one up, in milliseconds.
const PARK: u64 = 10;

/// The consecutive waits of an idle thread: it backs off at first, and then sleeps. It never sleeps without a timeout,
/// so no wake-up can be lost.
#[derive(Clone, Copy, Debug)]
pub struct Idle {
    looks: u32,
}

impl Idle {
    /// Returns the waits of a thread that has just been busy.
    pub fn new() -> Idle {
        Idle { looks: 0 }
    }

    /// Waits once.
    pub fn wait<R: Wait>(&mut self, rt: &R) {
        if self.backs_off(LOOKS) {
            return;
        }
        Parker::new().park_timeout(rt, Duration::from_millis(SLEEP));
    }

    /// Waits once. Another thread can end the sleep by unparking the parker.
    pub(crate) fn wait_parked<R: Wait>(&mut self, rt: &R, parker: &Parker) {
        if self.backs_off(LOOKS_BEFORE_PARKING) {
            return;
        }
        parker.park_timeout(rt, Duration::from_millis(PARK));
    }

    // Backs off, or returns false if it already did so `looks` times.
    fn backs_off(&mut self, looks: u32) -> bool {
        if self.looks >= looks {
            return false;
        }
        let backoff = Backoff::new();
        for _ in 0..self.looks.min(11) {
            backoff.snooze();
        }
        self.looks += 1;
        true
    }
}
