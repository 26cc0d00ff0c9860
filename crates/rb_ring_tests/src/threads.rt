//! Real threads: four producers and a consumer, which takes records one by one and has a chapter handed out before it
//! is full. All loops end once the records are there.

ghost use Rattle.std.specs.Prelude.{◌≡◌};
ghost use Rattle.rb_shared_ring.specs.SharedSeats.{IsSameChapterConsumer};

use super::expected::same;
use super::rings_with_seats::ROOM;
use rb_chapter_ring::Chapter;
use rb_for_tests::{Consumer, Found, OpenRing, Outputs};
use rb_history::Taken;
use rb_lend::Lent;
use rb_shared_ring::{Closing, ConsumerSeat, SharedRing};
use std::alloc::Global;
use std::process::Abort;
use std::sync::Wait;
use std::thread::Threads;

const WORKERS: u32 = 4;

const RECORDS: u32 = 10_000;

// The number of entries at which a chapter is handed out.
const HANDED_OUT_AT: u32 = 50_000;

// The consumer's totals: for each worker the events and the sum of their first bytes, how often a serial was out of
// order, and how often the bytes were not those that the worker sent with that serial.
#[derive(Drop)]
struct Sums {
    alloc: Global,
    events: [u64; 4],
    bytes: [u64; 4],
    out_of_order: u64,
    other_bytes: u64,
}

fn add(sums: &mut Sums, worker: u32, serial: u64, bytes: &[u8]) {
    let w = (worker % WORKERS) as usize;
    if serial != sums.events[w] {
        sums.out_of_order = sums.out_of_order.saturating_add(1);
    }
    if bytes != [(serial % 256) as u8; 8].as_slice() {
        sums.other_bytes = sums.other_bytes.saturating_add(1);
    }
    let byte = bytes.first().copied().unwrap_or(0);
    sums.events[w] = sums.events[w].saturating_add(1);
    sums.bytes[w] = sums.bytes[w].saturating_add(u64::from(byte));
}

// Hands out the ring's chapter if it has this many entries.
fn hand_out<R: Wait>(rt: &R, alloc: Global, ring: &SharedRing, seat: &mut ConsumerSeat)
    requires { seat.old.ring ≡ ring.now.ring }
    ensures { IsSameChapterConsumer seat.old seat.new }
{
    if let Ok((used, _)) = ring.used(rt, seat) {
        if used >= HANDED_OUT_AT {
            if let Ok(empty) = Chapter::new(alloc, ROOM, WORKERS) {
                let _ = ring.hand_out(rt, seat, empty);
            }
        }
    }
}

impl Consumer for Sums {
    // Takes one record.
    fn look<R: Wait>(&mut self, rt: &R, ring: &SharedRing, seat: &mut ConsumerSeat) -> Found {
        hand_out(rt, self.alloc, ring, seat);
        match ring.take(rt, seat) {
            Ok(Taken::Event(_, worker, serial, sheet)) => {
                add(self, worker, serial, sheet.bytes());
                Found::Part
            }
            _ => Found::Nothing,
        }
    }
}

fn no_sums(alloc: Global) -> Sums {
    Sums {
        alloc,
        events: [0; 4],
        bytes: [0; 4],
        out_of_order: 0,
        other_bytes: 0,
    }
}

fn syncs<T: Sync>(_x: &T) -> bool {
    true
}

fn sends<T: Send>(_x: &T) -> bool {
    true
}

// Returns the numbers of records that a consumer has taken and skipped, its position, and whether it received more than
// one chapter.
fn numbers_of(consumer: &ConsumerSeat) -> (u64, u64, u64, bool) {
    (
        consumer.consumed(),
        consumer.skipped(),
        consumer.position(),
        consumer.chapters() > 1,
    )
}

/// Returns the counts of a closed ring: made, consumed, discarded, waiting and busy.
pub(super) fn counts_of(closing: &Closing) -> (u64, u64, u64, u64, u64) {
    let counts = closing.counts();
    (
        counts.made,
        counts.consumed,
        counts.discarded,
        counts.waiting,
        counts.busy,
    )
}

/// Returns the producer and consumer positions of a closed ring, and the number of its last chapter.
pub(super) fn places_of(closing: &Closing) -> (u64, u64, u64) {
    (
        closing.producer(),
        closing.consumer(),
        closing.chapter().number(),
    )
}

// Runs four producers and the consumer in threads, and checks their seats. Returns the closed ring, and how many
// chapters were handed out.
fn ran<R: Threads + Wait + Sync + Abort>(rt: &R, alloc: Global, sums: &mut Sums) -> (Closing, u64) {
    let mut open = OpenRing::open(rt, alloc, 3, 4096, WORKERS, ROOM).expect(rt, "a ring");
    let goes_between_threads = syncs(&open.ring) && sends(&open.seats) && sends(&open.consumer);
    same(rt, &goes_between_threads, &true);
    let outputs = Outputs {
        alloc,
        records: RECORDS,
        len: 8,
    };
    open.run(rt, &outputs, sums);
    for seat in &open.seats {
        same(rt, &(seat.made(), seat.submitted()), &(10_000, 10_000));
    }
    same(rt, &numbers_of(&open.consumer), &(40_000, 0, 640_000, true));
    let chapters = open.consumer.chapters();
    (open.close(rt).ok().expect(rt, "closed"), chapters)
}

#[test]
fn four_producers_and_a_consumer(rt: HostRuntime) {
    let mut sums = no_sums(rt.alloc());
    let (closing, chapters) = ran(&rt, rt.alloc(), &mut sums);
    same(
        &rt,
        &(sums.events, sums.bytes, sums.out_of_order, sums.other_bytes),
        &([10_000; 4], [1_273_080; 4], 0, 0),
    );
    same(&rt, &sends(&closing), &true);
    same(&rt, &counts_of(&closing), &(40_000, 40_000, 0, 0, 0));
    same(&rt, &places_of(&closing), &(640_000, 640_000, chapters));
    drop(closing);
}
