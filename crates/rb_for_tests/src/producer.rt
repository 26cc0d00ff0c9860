//! The producers at a ring's seats.

ghost use Rattle.std.specs.Prelude.{◌≡◌, All};
ghost use Rattle.rb_ledger.specs.Seats.{WorkerSeat, IsSameSeat};

use rb_shared_ring::{Seat, SharedRing};
use std::sync::Wait;
use std::thread;
use std::thread::Threads;

/// What a thread does with a worker's seat.
pub trait Producer {
    /// The property of a seat after all of its calls are made.
    ghost is_done: { Self → WorkerSeat → Type 0 };

    /// Makes all of the worker's calls at the ring.
    fn produce<R: Wait>(&self, rt: &R, ring: &SharedRing, seat: &mut Seat)
        requires ring { seat.old.ring ≡ ring.now.ring }
        ensures seat { IsSameSeat seat.old seat.new }
        ensures done { is_done self.now seat.new };
}

// Runs the producer at each seat, in a thread of its own, or on this thread if none can be created.
pub(crate) fn produce_all<R: Threads + Wait + Sync, P: Producer + Sync>(
    rt: &R,
    ring: &SharedRing,
    seats: &mut [Seat],
    producer: &P,
)
    requires { All (λ s. s.ring ≡ ring.now.ring) seats.old }
    ensures own { All (λ s. s.ring ≡ ring.now.ring) seats.new }
    ensures done { All (P.is_done producer.now) seats.new }
{
    let threads = seats.len().max(1);
    let work = move |_: usize, seat: &mut Seat|
        requires { seat.now.ring ≡ ring.now.ring }
        ensures { (seat.exit.now.ring ≡ ring.entry.now.ring) × P.is_done producer.entry.now seat.exit.now }
    { producer.produce(rt, ring, seat) };
    thread::for_each_mut(rt, seats, threads, &work);
}
