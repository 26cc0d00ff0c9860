//! The opening of a chapter.

ghost use Rattle.std.specs.Prelude.{◌≡◌, ◌+◌, ◌<◌, ◌≤◌, ◌^◌, ◌↔◌, IfOk, IsTrue, drop, length, map, replicate, slice_index_or, slice_set};
ghost use Rattle.rb_history.specs.Span.{span};
ghost use Rattle.rb_chapter_ring.specs.Snapshot.{no_record, no_tally, record_in, tally_at};
ghost use Rattle.rb_chapter_ring.specs.SnapshotValue.{SnapshotValue};
ghost use Rattle.rb_chapter_ring.specs.Chapters.{empty_ring};
ghost use Rattle.rb_chapter_ring.specs.UntakenRecords.{untaken_shown};
ghost use Rattle.rb_chapter_ring.specs.inner.SnapshotSteps.{with_refusal, with_grant, with_end, with_take};

mod numbers;

use crate::record_end::RecordEnd;
use crate::snapshot_lists::{
    are_same_records, are_same_tallies, count_end, count_made, front_of, remove_front, set_end,
};
pub use numbers::SnapshotNumbers;
use rb_history::{Tally, span};
use std::alloc::{AllocError, Global};
use std::marker::Model;

// The number of taken records from which on `compact` reuses their memory, 32 KiB.
const LEAST_TAKEN: usize = 1_024;

// The largest number of records that `compact` moves.
const MOST_MOVED: usize = 4_096;

/// The status of a record that was not taken.
#[derive(Clone, Copy, Debug, PartialEq, Eq)]
pub enum UntakenStatus {
    /// It was neither submitted nor discarded.
    Busy,
    /// It was submitted.
    Waiting,
    /// It was discarded, and is still to be skipped.
    Discarded,
}

/// A record that was granted and not taken when a chapter was opened.
#[derive(Clone, Copy, Debug, PartialEq, Eq)]
pub struct UntakenRecord {
    /// The position, in bytes.
    pub pos: u64,
    /// The length, in bytes.
    pub len: u32,
    /// The number of the worker to which it was granted.
    pub worker: u32,
    /// The number of records that were granted to that worker before.
    pub serial: u64,
    /// The status.
    pub status: UntakenStatus,
}

/// An opening: a summary of a ring's history where a chapter begins. It has the ring's parameters, both positions, the
/// records that were not taken, and the totals of all entries before. Only its chapter creates and changes it.
#[derive(Drop)]
pub struct Snapshot {
    numbers: SnapshotNumbers,
    records: Vec<UntakenRecord>,
    // The index of the first untaken record; those before it were taken.
    first: usize,
    // One for each worker, by its number.
    tallies: Vec<Tally>,
}

impl Model for Snapshot {
    ghost use Rattle.std.specs.Coded.{codes};
    ghost use Rattle.rb_history.specs.contracts.tally.Tally as tally_row;
    ghost use Rattle.rb_chapter_ring.specs.SnapshotValue.{SnapshotValue};
    ghost use Rattle.rb_chapter_ring.specs.inner.SnapshotBody.{opening_value, OpeningInvariant};

    ghost Value = { SnapshotValue };

    ghost coded = { Prim.hlevel (codes, tally_row.the_row.coded) };

    ghost view = { opening_value };

    ghost invariant = { OpeningInvariant };
}

impl Snapshot {
    // Returns an opening of zeros, with room for `room` records.
    pub(crate) fn of_zeros(alloc: Global, room: u32, workers: u32) -> Result<Snapshot, AllocError>
        ensures zeros { IfOk result (λ o. o.opening ≡ empty_ring (record { size = 0; start = 0; workers = workers })) }
        ensures room { IfOk result (λ o. o.room ≡ room) }
        ensures passed { IfOk result (λ o. o.passed ≡ 0) }
    {
        Ok(Snapshot {
            numbers: SnapshotNumbers::of_ring(0, 0, workers),
            records: Vec::with_capacity(alloc, room as usize)?,
            first: 0,
            tallies: vec![in alloc; Tally::none(); workers as usize]?,
        })
    }

    // Resets it to the opening of a new ring with the same number of workers.
    pub(crate) fn begin(&mut self, size: u64, start: u64)
        ensures first { self.new.opening ≡ empty_ring (record { size = size; start = start; workers = self.old.opening.setup.workers }) }
        ensures room { self.new.room ≡ self.old.room }
        ensures passed { self.new.passed ≡ 0 }
    {
        self.numbers = SnapshotNumbers::of_ring(size, start, self.numbers.workers);
        self.records.clear();
        self.first = 0;
        self.tallies.as_mut_slice().fill(Tally::none());
    }

    // Copies the contents of another opening. Does not allocate.
    pub(crate) fn copy_from(&mut self, other: &Snapshot)
        requires room { length other.now.opening.records ≤ self.old.room }
        requires workers { self.old.opening.setup.workers ≡ other.now.opening.setup.workers }
        ensures same { self.new.opening ≡ other.now.opening }
        ensures room { self.old.room ≤ self.new.room }
        ensures passed { self.new.passed ≡ 0 }
    {
        self.numbers = other.numbers;
        self.records.clear();
        self.first = 0;
        let _within = self.records.extend_from_slice(other.records());
        let tallies = self.tallies.as_mut_slice();
        tallies.copy_from_slice(other.tallies.as_slice());
    }

    // Returns a copy, with room for at least `room` records.
    pub(crate) fn try_clone(&self, alloc: Global, room: u32) -> Result<Snapshot, AllocError>
        ensures same { IfOk result (λ o. o.opening ≡ self.now.opening) }
        ensures room { IfOk result (λ o. room ≤ o.room) }
        ensures passed { IfOk result (λ o. o.passed ≡ 0) }
    {
        let mut records = Vec::with_capacity(alloc, room as usize)?;
        records.extend_from_slice(self.records())?;
        let mut tallies = Vec::with_capacity(alloc, self.tallies.len())?;
        tallies.extend_from_slice(self.tallies())?;
        Ok(Snapshot {
            numbers: self.numbers,
            records,
            first: 0,
            tallies,
        })
    }

    // Counts a refusal of the worker.
    pub(crate) fn add_refusal(&mut self, worker: u32)
        requires worker { worker < self.old.opening.setup.workers }
        requires total { (tally_at self.old.opening worker).refused < 2 ^ 62 }
        ensures added { self.new.opening ≡ with_refusal worker self.old.opening }
        ensures room { self.new.room ≡ self.old.room }
        ensures passed { self.new.passed ≡ self.old.passed }
    {
        self.tallies[worker as usize].refused += 1;
    }

    // Adds the record of `len` bytes that the worker is granted next, and returns its serial.
    pub(crate) fn add_grant(&mut self, worker: u32, len: u32) -> u64
        requires worker { worker < self.old.opening.setup.workers }
        requires total { (tally_at self.old.opening worker).made < 2 ^ 62 }
        requires limit { self.old.opening.producer + span len ≤ 2 ^ 62 }
        requires room { self.old.passed + length self.old.opening.records < self.old.room }
        ensures added { self.new.opening ≡ with_grant worker len self.old.opening }
        ensures room { self.old.room ≤ self.new.room }
        ensures passed { self.new.passed ≡ self.old.passed }
        ensures serial { result ≡ (tally_at self.old.opening worker).made }
    {
        let serial = count_made(self.tallies.as_mut_slice(), worker);
        self.records.push_reserved(UntakenRecord {
            pos: self.numbers.producer,
            len,
            worker,
            serial,
            status: UntakenStatus::Busy,
        });
        self.numbers.producer += span(len);
        serial
    }

    #[inline(always)]
    // Applies the commit of the record at an index, counted from the front. Returns its position.
    pub(crate) fn add_end(&mut self, index: usize, end: RecordEnd) -> u64
        requires within { index < length self.old.opening.records }
        requires worker { (record_in self.old.opening index).worker < self.old.opening.setup.workers }
        requires total { (tally_at self.old.opening (record_in self.old.opening index).worker).submitted + (tally_at self.old.opening (record_in self.old.opening index).worker).discarded < 2 ^ 62 }
        ensures added { self.new.opening ≡ with_end end index self.old.opening }
        ensures room { self.new.room ≡ self.old.room }
        ensures passed { self.new.passed ≡ self.old.passed }
        ensures position { result ≡ (record_in self.old.opening index).pos }
    {
        let record = set_end(self.records.as_mut_slice(), self.first, index, end);
        count_end(self.tallies.as_mut_slice(), record.worker, end);
        record.pos
    }

    // Moves the untaken records to the front of their memory, if they are few and at least twice as many were taken
    // since the last move. So a list whose records are taken in time uses little of its memory, and a record is moved
    // once at most for every two that are taken.
    pub(crate) fn compact(&mut self)
        ensures same { self.new.opening ≡ self.old.opening }
        ensures room { self.new.room ≡ self.old.room }
        ensures passed { self.new.passed ≤ self.old.passed }
    {
        let left = self.records.len() - self.first;
        if self.first >= LEAST_TAKEN && left <= MOST_MOVED && left <= self.first / 2 {
            remove_front(&mut self.records, self.first);
            self.first = 0;
        }
    }

    // Applies a take of the record at the front. Returns the consumer position before it.
    pub(crate) fn add_take(&mut self) -> u64
        requires some { 0 < length self.old.opening.records }
        requires limit { self.old.opening.consumer + span (record_in self.old.opening 0).len ≤ 2 ^ 62 }
        requires totals { self.old.opening.consumed + self.old.opening.skipped < 2 ^ 62 }
        ensures taken { self.new.opening ≡ with_take self.old.opening }
        ensures room { self.new.room ≡ self.old.room }
        ensures passed { self.new.passed ≡ self.old.passed + 1 }
        ensures position { result ≡ self.old.opening.consumer }
    {
        let record = front_of(self.records.as_slice(), self.first);
        let position = self.numbers.consumer;
        self.first += 1;
        self.numbers.consumer += span(record.len);
        self.numbers.count_take(record.status);
        position
    }

    #[inline(always)]
    // Returns the number of records that were granted to the worker.
    pub(crate) fn made(&self, worker: u32) -> u64
        requires worker { worker < self.now.opening.setup.workers }
        ensures made { result ≡ (tally_at self.now.opening worker).made }
    {
        self.tallies[worker as usize].made
    }

    // Returns the worker's totals.
    pub(crate) fn tally(&self, worker: u32) -> Tally
        requires worker { worker < self.now.opening.setup.workers }
        ensures tally { result ≡ tally_at self.now.opening worker }
    {
        self.tallies[worker as usize]
    }

    // Returns whether both have the same contents. Takes time linear in the numbers of records and of workers.
    pub(crate) fn is_same(&self, other: &Snapshot) -> bool
        ensures exact { IsTrue result ↔ (self.now.opening ≡ other.now.opening) }
    {
        if !self.numbers.is_same(&other.numbers) {
            return false;
        }
        if !are_same_records(self.records(), other.records()) {
            return false;
        }
        are_same_tallies(self.tallies.as_slice(), other.tallies.as_slice())
    }

    /// Returns the records that were granted and not taken, in the order of their grants. Takes constant time.
    pub fn records(&self) -> &[UntakenRecord]
        ensures records { map untaken_shown result.now ≡ self.now.opening.records }
    {
        &self.records.as_slice()[self.first..]
    }

    /// Returns each worker's totals before the chapter, by its number. Takes constant time.
    pub fn tallies(&self) -> &[Tally]
        ensures tallies { result.now ≡ self.now.opening.tallies }
    {
        self.tallies.as_slice()
    }
}
