//! How long a ring's consumer waits between its batches, and when its keeper looks at the ring's chapter.

use crate::chapter_sizes::look_after;
use rb_shared_ring::WaitBackoff;
use std::sync::Wait;
use std::sync::atomic::{AtomicBool, Ordering};
use std::thread::Parker;
use std::time::Duration;

/// The maximal number of records that a consumer takes under one acquisition of its ring's lock.
pub(crate) const BATCH: usize = 512;

// A batch with this number of records is large.
const MANY: usize = BATCH / 2;

// If a chapter has little room, a batch is large with this fraction of the room in records: with three entries each
// they fill a quarter.
const PART_OF_CHAPTER: usize = 12;

// A batch is large if it has this fraction of the ring's bytes.
const PART_OF_RING: u64 = 4;

// How often a consumer that found a few records polls whether the workers have ended before it takes the next batch:
// about a microsecond at least, and about sixty at most.
const SHORTEST: u32 = 1_024;

const LONGEST: u32 = 65_536;

// The number of consecutive empty batches after which a consumer sleeps: about eight milliseconds.
const IDLE: u32 = 256;

// How long it then sleeps at a time, in milliseconds. It always sleeps with a timeout, so no wake-up can be lost.
const SLEEP: u64 = 1;

// A keeper looks at its ring's chapter again after the number of records for the ring's size (`look_after`), or, if the
// chapter's room is small, after this fraction of the room. A record has three entries. So between two looks fewer
// records are taken than those and a batch, which is what `chapters_follow_their_ring` requires.
const PART_OF_ROOM: usize = 32;

/// The pace of a ring's consumer. Each batch takes the ring's lock, and a worker that finds the lock taken waits longer
/// than the consumer holds it. So the consumer takes batches rarely, but before too much has accumulated.
#[derive(Clone, Copy)]
pub(crate) struct Pace {
    // The number of records of a large batch.
    many: usize,
    // The number of the ring's bytes of a large batch.
    many_bytes: u64,
    // How often it polls before the next batch.
    pause: u32,
    // How long it waits after an empty batch.
    backoff: WaitBackoff,
    // The number of consecutive empty batches, up to the number at which it sleeps.
    idle: u32,
    // The number of records after which the keeper looks.
    look_after: usize,
    // The number of records that were taken since the keeper looked.
    unlooked: usize,
}

impl Pace {
    /// Returns the initial pace for the consumer of a ring of `size` bytes whose chapters have room for `room` entries.
    /// The keeper looks first.
    pub(crate) fn new(size: u64, room: u32) -> Pace {
        Pace {
            many: MANY.min(room as usize / PART_OF_CHAPTER),
            many_bytes: size / PART_OF_RING,
            look_after: (look_after(size) as usize).min(room as usize / PART_OF_ROOM),
            pause: SHORTEST,
            backoff: WaitBackoff::new(),
            idle: 0,
            unlooked: usize::MAX,
        }
    }

    /// Returns whether the keeper is to look at the chapter.
    pub(crate) fn is_look_due(&self) -> bool {
        self.unlooked >= self.look_after
    }

    /// Waits after a batch of `count` records and `bytes` bytes; `looked` says whether the keeper looked before it.
    ///
    /// After a full batch it does not wait. After a large one it waits half as long as the last time, after a small one
    /// twice as long, and it stops waiting when the workers have ended. After an empty batch it yields the processor,
    /// and after many empty batches it sleeps; then the keeper looks the next time, since refused reservations add
    /// entries, too.
    pub(crate) fn wait<R: Wait>(
        &mut self,
        rt: &R,
        ended: &AtomicBool,
        looked: bool,
        count: usize,
        bytes: u64,
    ) {
        if count == 0 {
            self.unlooked = usize::MAX;
            self.wait_idle(rt);
            return;
        }
        self.idle = 0;
        let before = if looked { 0 } else { self.unlooked };
        self.unlooked = before.saturating_add(count);
        self.backoff = WaitBackoff::new();
        self.pause = pause_after(self.pause, count >= self.many || bytes >= self.many_bytes);
        if count < BATCH {
            watch(ended, self.pause);
        }
    }

    // Yields the processor, or sleeps after many empty batches.
    fn wait_idle<R: Wait>(&mut self, rt: &R) {
        if self.idle < IDLE {
            self.idle += 1;
            self.backoff.wait();
            return;
        }
        Parker::new().park_timeout(rt, Duration::from_millis(SLEEP));
    }
}

// Returns the wait after a large or a small batch, given the last wait.
fn pause_after(pause: u32, is_many: bool) -> u32 {
    if is_many {
        (pause / 2).max(SHORTEST)
    } else {
        pause.saturating_mul(2).min(LONGEST)
    }
}

// Polls at most `times` times whether the workers have ended.
fn watch(ended: &AtomicBool, times: u32) {
    for _ in 0..times {
        if ended.load(Ordering::SeqCst) {
            break;
        }
    }
}
