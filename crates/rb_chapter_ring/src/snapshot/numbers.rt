//! The numbers of an opening.

ghost use Rattle.std.specs.Prelude.{◌≡◌, ◌+◌, ◌<◌, ◌^◌, ◌↔◌, IsTrue};
ghost use Rattle.rb_chapter_ring.specs.UntakenRecords.{status_shown};
ghost use Rattle.rb_chapter_ring.specs.inner.SnapshotNumbers.{first_numbers};
ghost use Rattle.rb_chapter_ring.specs.inner.SnapshotSteps.{events_by, skips_by};

use crate::{Snapshot, UntakenStatus};

/// The numbers of an opening: the parameters of the ring, both positions, and the totals of takes.
#[derive(Clone, Copy, PartialEq, Eq)]
pub struct SnapshotNumbers {
    /// The ring's size in bytes; 0 if the chapter belongs to no ring.
    pub size: u64,
    /// The ring's first position, in bytes.
    pub start: u64,
    /// The number of workers of the ring.
    pub workers: u32,
    /// The position of the next record that is granted, in bytes.
    pub producer: u64,
    /// The position of the next record that is taken, in bytes.
    pub consumer: u64,
    /// The number of submitted records that were taken.
    pub consumed: u64,
    /// The number of discarded records that were skipped.
    pub skipped: u64,
}

impl SnapshotNumbers {
    /// Returns the numbers of a new ring.
    pub(crate) fn of_ring(size: u64, start: u64, workers: u32) -> SnapshotNumbers
        ensures first { result ≡ first_numbers size start workers }
    {
        SnapshotNumbers {
            size,
            start,
            workers,
            producer: start,
            consumer: start,
            consumed: 0,
            skipped: 0,
        }
    }

    #[inline(always)]
    /// Counts a record that was taken, by its status.
    pub(crate) fn count_take(&mut self, status: UntakenStatus)
        requires totals { self.old.consumed + self.old.skipped < 2 ^ 62 }
        ensures counted { self.new ≡ record self.old { consumed = self.old.consumed + events_by (status_shown status); skipped = self.old.skipped + skips_by (status_shown status) } }
    {
        match status {
            UntakenStatus::Busy => {}
            UntakenStatus::Waiting => self.consumed += 1,
            UntakenStatus::Discarded => self.skipped += 1,
        }
    }

    /// Returns whether all numbers are equal.
    pub(crate) fn is_same(&self, other: &SnapshotNumbers) -> bool
        ensures exact { IsTrue result ↔ (self.now ≡ other.now) }
    {
        *self == *other
    }
}

impl Snapshot {
    #[inline(always)]
    /// Returns the numbers, of which the totals are those before the chapter. Takes constant time.
    pub fn numbers(&self) -> SnapshotNumbers
        ensures size { result.size ≡ self.now.opening.setup.size }
        ensures start { result.start ≡ self.now.opening.setup.start }
        ensures workers { result.workers ≡ self.now.opening.setup.workers }
        ensures producer { result.producer ≡ self.now.opening.producer }
        ensures consumer { result.consumer ≡ self.now.opening.consumer }
        ensures consumed { result.consumed ≡ self.now.opening.consumed }
        ensures skipped { result.skipped ≡ self.now.opening.skipped }
    {
        self.numbers
    }
}
