//! A shared ring and its seats, from its opening to its end.

ghost use Rattle.std.specs.Prelude.{◌≡◌, ◌↔◌, All, IsOk, IfOk, IfErr, IsErrOf, true};
ghost use Rattle.rb_history.specs.RingModel.{IsRingSize, IsWorkerCount};
ghost use Rattle.rb_chapter_ring.specs.Chapters.{IsChapterRoom};
ghost use Rattle.rb_ledger.specs.Seats.{HasAll, are_tagged, fresh_book, fresh_seats};
ghost use Rattle.rb_ledger.specs.ChapterSeats.{fresh_chapter_consumer};
ghost use Rattle.rb_ledger.specs.ChapterClosing.{IsClosedByChapters};
ghost use Rattle.rb_shared_ring.specs.SharedSeats.{IsSameChapterConsumer};
ghost use Rattle.rb_for_tests.specs.OwnSeats.{HasOwnSeats};

use crate::consumer::{Consumer, consume};
use crate::producer::{Producer, produce_all};
use rb_shared_ring::{Closing, ConsumerSeat, NotAll, OpenFault, Seat, SharedRing, open};
use std::alloc::Global;
use std::sync::Wait;
use std::sync::atomic::{AtomicBool, Ordering};
use std::thread::{Threads, join_mut};

/// A shared ring with all its seats (the handles of its workers and its consumer).
#[derive(Drop)]
pub struct OpenRing {
    /// The ring.
    pub ring: SharedRing,
    /// A seat for each worker. The first is worker 0's.
    pub seats: Vec<Seat>,
    /// The consumer's seat.
    pub consumer: ConsumerSeat,
}

impl OpenRing {
    /// Opens a ring whose positions start at 0, as `rb_shared_ring::open` does.
    pub fn open<R: Wait>(
        rt: &R,
        alloc: Global,
        tag: u64,
        size: u64,
        workers: u32,
        room: u32,
    ) -> Result<OpenRing, OpenFault>
        ensures own { IfOk result HasOwnSeats }
        ensures tag { IfOk result (λ o. o.ring.tag ≡ tag) }
        ensures seats { IfOk result (λ o. o.seats.items ≡ fresh_seats tag o.ring.ring room (fresh_book size 0 workers) 0 workers) }
        ensures consumer { IfOk result (λ o. o.consumer ≡ fresh_chapter_consumer tag o.ring.ring room (fresh_book size 0 workers)) }
        ensures size { IsErrOf result OpenFault.Size ↔ ¬ IsRingSize size }
        ensures workers { IsErrOf result OpenFault.Workers ↔ (IsRingSize size × ¬ IsWorkerCount workers) }
        ensures chapter { IsErrOf result OpenFault.Chapter ↔ (IsRingSize size × IsWorkerCount workers × ¬ IsChapterRoom room) }
    {
        let (ring, seats, consumer) = open(rt, alloc, tag, size, 0, workers, room)?;
        Ok(OpenRing {
            ring,
            seats,
            consumer,
        })
    }

    /// Runs the producer at each seat and the consumer, each in its own thread, or all of them on this thread if no
    /// threads can be created. The consumer ends once the producers have ended and a check after that finds nothing.
    pub fn run<R: Threads + Wait + Sync, P: Producer + Sync, C: Consumer + Send>(
        &mut self,
        rt: &R,
        producer: &P,
        consumer: &mut C,
    )
        requires own { HasOwnSeats self.old }
        ensures own { HasOwnSeats self.new }
        ensures done { All (P.is_done producer.now) self.new.seats.items }
        ensures ring { self.new.ring ≡ self.old.ring }
        ensures consumer { IsSameChapterConsumer self.old.consumer self.new.consumer }
    {
        run_threads(
            rt,
            &self.ring,
            self.seats.as_mut_slice(),
            &mut self.consumer,
            producer,
            consumer,
        );
    }

    /// Closes the ring with its seats, as `SharedRing::close` does. If one of them was taken out, the ring is not
    /// closed, and everything is handed back.
    pub fn close<R: Wait>(self, rt: &R) -> Result<Closing, NotAll>
        requires own { HasOwnSeats self }
        ensures all { IsOk result ↔ ((self.consumer.tag ≡ self.ring.tag) × (are_tagged self.ring.tag self.seats.items ≡ true) × HasAll self.consumer.seen.setup.workers self.seats.items) }
        ensures back { IfErr result (λ e. (e.ring ≡ self.ring) × (e.seats.items ≡ self.seats.items) × (e.consumer ≡ self.consumer)) }
        ensures which { IfOk result (λ c. c.shared ≡ self.ring) }
        ensures closed { IfOk result (λ c. IsClosedByChapters c.at_end self.seats.items self.consumer) }
    {
        self.ring.close(rt, self.seats, self.consumer)
    }
}

// Runs the producers and the consumer in threads of their own.
fn run_threads<R: Threads + Wait + Sync, P: Producer + Sync, C: Consumer + Send>(
    rt: &R,
    ring: &SharedRing,
    seats: &mut [Seat],
    seat: &mut ConsumerSeat,
    producer: &P,
    consumer: &mut C,
)
    requires seats { All (λ s. s.ring ≡ ring.now.ring) seats.old }
    requires consumer { seat.old.ring ≡ ring.now.ring }
    ensures seats { All (λ s. s.ring ≡ ring.now.ring) seats.new }
    ensures done { All (P.is_done producer.now) seats.new }
    ensures consumer { IsSameChapterConsumer seat.old seat.new }
{
    let ended = AtomicBool::new(false);
    let shared = &ended;
    join_mut(
        rt,
        &mut ||
            requires { seat.now.ring ≡ ring.now.ring }
            ensures { IsSameChapterConsumer seat.entry.now seat.exit.now }
        { consume(rt, ring, shared, seat, consumer) },
        &mut ||
            requires { All (λ s. s.ring ≡ ring.now.ring) seats.now }
            ensures { All (λ s. s.ring ≡ ring.entry.now.ring) seats.exit.now × All (P.is_done producer.entry.now) seats.exit.now }
        {
            produce_all(rt, ring, seats, producer);
            shared.store(true, Ordering::SeqCst);
        },
    );
}
