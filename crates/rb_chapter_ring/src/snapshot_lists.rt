//! The lists of an opening: its records, and its workers' totals.

ghost use Rattle.std.specs.Prelude.{◌≡◌, ◌+◌, ◌<◌, ◌≤◌, ◌^◌, ◌↔◌, IsTrue, drop, length, map, replicate, slice_index_or, slice_set, vec_len, vec_capacity};
ghost use Rattle.rb_chapter_ring.specs.Snapshot.{no_record, no_tally};
ghost use Rattle.rb_chapter_ring.specs.UntakenRecords.{untaken_shown};
ghost use Rattle.rb_chapter_ring.specs.RecordEnds.{status_of_end, tally_with_end};

use crate::record_end::RecordEnd;
use crate::snapshot::UntakenRecord;
use rb_history::Tally;

/// Returns whether the records are the same.
pub(crate) fn are_same_records(records: &[UntakenRecord], others: &[UntakenRecord]) -> bool
    ensures exact { IsTrue result ↔ (map untaken_shown records.now ≡ map untaken_shown others.now) }
{
    records == others
}

/// Returns whether the totals are the same.
pub(crate) fn are_same_tallies(tallies: &[Tally], others: &[Tally]) -> bool
    ensures exact { IsTrue result ↔ (tallies.now ≡ others.now) }
{
    tallies == others
}

#[inline(always)]
/// Counts a record that was granted to the worker, and returns how many had been granted to it before.
pub(crate) fn count_made(tallies: &mut [Tally], worker: u32) -> u64
    requires worker { worker < length tallies.old }
    requires total { (slice_index_or tallies.old worker no_tally).made < 2 ^ 62 }
    ensures counted { tallies.new ≡ slice_set tallies.old worker (record (slice_index_or tallies.old worker no_tally) { made = (slice_index_or tallies.old worker no_tally).made + 1 }) }
    ensures before { result ≡ (slice_index_or tallies.old worker no_tally).made }
{
    let tally = &mut tallies[worker as usize];
    let before = tally.made;
    tally.made = before + 1;
    before
}

#[inline(always)]
/// Counts the commit of a record of the worker.
pub(crate) fn count_end(tallies: &mut [Tally], worker: u32, end: RecordEnd)
    requires worker { worker < length tallies.old }
    requires total { (slice_index_or tallies.old worker no_tally).submitted + (slice_index_or tallies.old worker no_tally).discarded < 2 ^ 62 }
    ensures counted { tallies.new ≡ slice_set tallies.old worker (tally_with_end end (slice_index_or tallies.old worker no_tally)) }
{
    let tally = &mut tallies[worker as usize];
    match end {
        RecordEnd::Submit => tally.submitted += 1,
        RecordEnd::Discard => tally.discarded += 1,
    }
}

#[inline(always)]
/// Applies the commit of the record at an index, counted from `first`. Returns the record as it was before.
pub(crate) fn set_end(
    records: &mut [UntakenRecord],
    first: usize,
    index: usize,
    end: RecordEnd,
) -> UntakenRecord
    requires within { first + index < length records.old }
    ensures settled { map untaken_shown (drop first records.new) ≡ slice_set (map untaken_shown (drop first records.old)) index (record (slice_index_or (map untaken_shown (drop first records.old)) index no_record) { status = status_of_end end }) }
    ensures long { length records.new ≡ length records.old }
    ensures record { untaken_shown result ≡ slice_index_or (map untaken_shown (drop first records.old)) index no_record }
{
    let place = first + index;
    let record = records[place];
    let status = end.status();
    records[place] = UntakenRecord { status, ..record };
    record
}

/// Removes the first records. The others move to the front of the memory.
pub(crate) fn remove_front(records: &mut Vec<UntakenRecord>, many: usize)
    requires within { many ≤ vec_len records.old }
    ensures left { records.new.items ≡ drop many records.old.items }
    ensures capacity { vec_capacity records.new ≡ vec_capacity records.old }
{
    let left = records.len() - many;
    records.copy_within(many.., 0);
    records.truncate(left);
}

/// Returns the first untaken record.
pub(crate) fn front_of(records: &[UntakenRecord], first: usize) -> UntakenRecord
    requires within { first < length records.now }
    ensures record { untaken_shown result ≡ slice_index_or (map untaken_shown (drop first records.now)) 0 no_record }
{
    records[first]
}
