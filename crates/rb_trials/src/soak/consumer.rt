//! A ring's consumer, which takes batches and turns the ring's chapters.

ghost use Rattle.std.specs.Prelude.{◌≡◌};
ghost use Rattle.rb_shared_ring.specs.SharedSeats.{IsSameChapterConsumer};

use super::seen_records::SeenRecords;
use rb_chapter_ring::Chapter;
use rb_consumer::{Batch, Keeper};
use rb_for_tests::{Consumer, Found};
use rb_shared_ring::{ConsumerSeat, SharedRing};
use std::alloc::Global;
use std::sync::Wait;

/// The maximal number of records that are taken under one acquisition of the lock.
pub(crate) const BATCH: usize = 64;

/// The consumer's state besides its seat.
#[derive(Drop)]
pub(crate) struct SoakDesk {
    pub(crate) alloc: Global,
    pub(crate) batch: Batch,
    pub(crate) keeper: Keeper,
    pub(crate) seen: SeenRecords,
    /// Whether each chapter is copied.
    pub(crate) is_bound: bool,
    /// The copies of the chapters.
    pub(crate) chapters: Vec<Chapter>,
}

impl Consumer for SoakDesk {
    // Turns the ring's chapter, takes a batch, and checks each of its records.
    fn look<R: Wait>(&mut self, rt: &R, ring: &SharedRing, seat: &mut ConsumerSeat) -> Found {
        self.turn(rt, ring, seat);
        let count = self.batch.fill(rt, ring, seat).unwrap_or(0);
        for item in self.batch.items() {
            self.seen.look(&item);
        }
        Found::of(count, BATCH)
    }
}

impl SoakDesk {
    // Hands out the ring's chapter if it is due, and keeps a copy if the chapters are to be bound, which checks their
    // numbers.
    fn turn<R: Wait>(&mut self, rt: &R, ring: &SharedRing, seat: &mut ConsumerSeat)
        requires { seat.old.ring ≡ ring.now.ring }
        ensures { IsSameChapterConsumer seat.old seat.new }
    {
        let (alloc, is_bound) = (self.alloc, self.is_bound);
        let copy = match self.keeper.turn(rt, ring, seat) {
            Ok(Some(chapter)) if is_bound => chapter.try_clone(alloc).ok(),
            Ok(_) => return,
            Err(_) => None,
        };
        let is_kept = match copy {
            Some(chapter) => self.chapters.push(chapter).is_ok(),
            None => false,
        };
        self.seen.expect(is_kept);
    }
}
