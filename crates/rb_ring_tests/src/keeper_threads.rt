//! Real threads: four producers, and a consumer that takes batches and checks chapters. All loops end once the records
//! are there.

ghost use Rattle.std.specs.Prelude.{◌≡◌};
ghost use Rattle.rb_shared_ring.specs.SharedSeats.{IsSameChapterConsumer};

use super::expected::same;
use super::threads::{counts_of, places_of};
use rb_chapter_ring::Chapter;
use rb_consumer::{Batch, Keeper};
use rb_for_tests::{Consumer, Found, OpenRing, Outputs};
use rb_shared_ring::{Closing, ConsumerSeat, SharedRing};
use rb_tape::Event;
use std::alloc::Global;
use std::process::Abort;
use std::sync::Wait;
use std::thread::Threads;

const WORKERS: u32 = 4;

const RECORDS: u32 = 2_500;

const BATCH: usize = 64;

// The consumer's state: its batch and its keeper; for each worker the number of events; the number of chapters that
// were lent; and the number of events or chapters that were out of order, or of events with other bytes than the worker
// sent.
#[derive(Drop)]
struct Desk {
    batch: Batch,
    keeper: Keeper,
    events: [u64; 4],
    chapters: u64,
    wrong: u64,
}

// Counts an event of a worker, and whether it is the one that the worker sent next.
fn count_event(events: &mut [u64; 4], wrong: &mut u64, event: &Event<'_>) {
    let w = (event.worker % WORKERS) as usize;
    let bytes = [(event.serial % 256) as u8; 8];
    if event.serial != events[w] || event.bytes != bytes.as_slice() {
        *wrong = wrong.saturating_add(1);
    }
    events[w] = events[w].saturating_add(1);
}

// Hands out the ring's chapter if it is due.
fn turn<R: Wait>(rt: &R, ring: &SharedRing, consumer: &mut ConsumerSeat, desk: &mut Desk)
    requires { consumer.old.ring ≡ ring.now.ring }
    ensures { IsSameChapterConsumer consumer.old consumer.new }
{
    let number = match desk.keeper.turn(rt, ring, consumer) {
        Ok(Some(chapter)) => chapter.number(),
        Ok(None) => return,
        Err(_) => u64::MAX,
    };
    if number != desk.chapters {
        desk.wrong = desk.wrong.saturating_add(1);
    }
    desk.chapters = desk.chapters.saturating_add(1);
}

impl Consumer for Desk {
    // Hands out the ring's chapter if it is due, and takes a batch.
    fn look<R: Wait>(&mut self, rt: &R, ring: &SharedRing, seat: &mut ConsumerSeat) -> Found {
        turn(rt, ring, seat, self);
        let count = self.batch.fill(rt, ring, seat).unwrap_or(0);
        for event in self.batch.events() {
            count_event(&mut self.events, &mut self.wrong, &event);
        }
        Found::of(count, BATCH)
    }
}

fn sends<T: Send>(_x: &T) -> bool {
    true
}

fn new_desk(rt: &impl Abort, alloc: Global) -> Desk {
    let chapter = Chapter::new(alloc, 64, WORKERS).expect(rt, "memory");
    Desk {
        batch: Batch::with_capacity(alloc, BATCH).expect(rt, "memory"),
        keeper: Keeper::with_margin(chapter, 16),
        events: [0; 4],
        chapters: 0,
        wrong: 0,
    }
}

// Runs four producers and the consumer in threads. Returns the closed ring.
fn ran<R: Threads + Wait + Sync + Abort>(rt: &R, alloc: Global, desk: &mut Desk) -> Closing {
    let mut open = OpenRing::open(rt, alloc, 3, 4096, WORKERS, 64).expect(rt, "a ring");
    let outputs = Outputs {
        alloc,
        records: RECORDS,
        len: 8,
    };
    open.run(rt, &outputs, desk);
    open.close(rt).ok().expect(rt, "closed")
}

#[test]
fn four_producers_and_a_keeper(rt: HostRuntime) {
    let mut desk = new_desk(&rt, rt.alloc());
    same(&rt, &sends(&desk), &true);
    let closing = ran(&rt, rt.alloc(), &mut desk);
    same(
        &rt,
        &(desk.events, desk.wrong, desk.chapters > 300),
        &([2_500; 4], 0, true),
    );
    same(
        &rt,
        &places_of(&closing),
        &(160_000, 160_000, desk.chapters),
    );
    same(&rt, &counts_of(&closing), &(10_000, 10_000, 0, 0, 0));
    drop((desk, closing));
}
