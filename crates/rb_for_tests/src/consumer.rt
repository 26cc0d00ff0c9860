//! The consumer of a ring.

ghost use Rattle.std.specs.Prelude.{◌≡◌, ◌<◌, ◌≤◌, ◌↔◌};
ghost use Rattle.rb_shared_ring.specs.SharedSeats.{IsSameChapterConsumer};

use rb_shared_ring::{ConsumerSeat, SharedRing, WaitBackoff};
use std::sync::Wait;
use std::sync::atomic::{AtomicBool, Ordering};

/// The outcome of a check for records.
#[derive(Clone, Copy, Debug, PartialEq, Eq)]
pub enum Found {
    /// There was no record to take.
    Nothing,
    /// All available records were taken.
    All,
    /// As many records were taken as one check takes, and there may be more.
    Part,
}

impl Found {
    /// Returns the outcome of a check that took `count` records, if one takes at most `most`.
    pub fn of(count: usize, most: usize) -> Found
        ensures nothing { (result ≡ Found.Nothing) ↔ (count ≡ 0) }
        ensures part { (result ≡ Found.Part) ↔ ((0 < count) × (most ≤ count)) }
    {
        if count == 0 {
            return Found::Nothing;
        }
        if count < most {
            return Found::All;
        }
        Found::Part
    }
}

/// What a thread does with the consumer's seat.
pub trait Consumer {
    /// Checks for records once, and takes those that it finds.
    fn look<R: Wait>(&mut self, rt: &R, ring: &SharedRing, seat: &mut ConsumerSeat) -> Found
        requires ring { seat.old.ring ≡ ring.now.ring }
        ensures seat { IsSameChapterConsumer seat.old seat.new };
}

// Checks for records until the producers have ended and a check that began after that finds none. Waits after a check
// that leaves no record to take; the wait grows with each check that finds nothing.
pub(crate) fn consume<R: Wait, C: Consumer>(
    rt: &R,
    ring: &SharedRing,
    ended: &AtomicBool,
    seat: &mut ConsumerSeat,
    consumer: &mut C,
)
    requires { seat.old.ring ≡ ring.now.ring }
    ensures { IsSameChapterConsumer seat.old seat.new }
{
    let mut backoff = WaitBackoff::new();
    for _ in rt.forever() {
        let over = ended.load(Ordering::SeqCst);
        match consumer.look(rt, ring, seat) {
            Found::Part => continue,
            Found::All => backoff = WaitBackoff::new(),
            Found::Nothing => {
                if over {
                    return;
                }
            }
        }
        backoff.wait();
    }
}
