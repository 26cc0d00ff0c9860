//! The slots of records, which hold their bytes.

ghost use Rattle.std.specs.Prelude.{◌≡◌, ◌<◌, ◌%◌, IfSome, IfNone, length, map, slice_index_or};
ghost use Rattle.std.specs.Int.{IsPowerOfTwo};
ghost use Rattle.rb_chapter_ring.specs.Snapshot.{no_record};
ghost use Rattle.rb_chapter_ring.specs.UntakenRecords.{untaken_shown};
ghost use Rattle.rb_chapter_ring.specs.inner.EndSteps.{slots_with_end};

use crate::UntakenRecord;
use crate::record_end::RecordEnd;
use rb_lend::Sheet;

#[inline(always)]
/// Returns the slot of the record with this ordinal.
pub(crate) fn slot_in(slots: usize, ordinal: u64) -> usize
    requires slots { IsPowerOfTwo slots }
    ensures value { result ≡ ordinal % slots }
    ensures within { result < slots }
{
    ordinal as usize & (slots - 1)
}

#[inline(always)]
/// Returns the record at the front, if there is one.
pub(crate) fn find_front(records: &[UntakenRecord]) -> Option<UntakenRecord>
    ensures front { IfSome result (λ r. (0 < length records.now) × (untaken_shown r ≡ slice_index_or (map untaken_shown records.now) 0 no_record)) }
    ensures none { IfNone result (length records.now ≡ 0) }
{
    if records.is_empty() {
        return None;
    }
    Some(records[0])
}

#[inline(always)]
/// Stores the bytes of a record in its slot if it is submitted.
pub(crate) fn keep_bytes(sheets: &mut Vec<Sheet>, slot: usize, sheet: Sheet, end: RecordEnd)
    requires slot { slot < length sheets.old.items }
    ensures kept { sheets.new.items ≡ slots_with_end end slot sheet sheets.old.items }
{
    match end {
        RecordEnd::Submit => sheets[slot] = sheet,
        RecordEnd::Discard => {}
    }
}
