//! The counts of a ring that are maintained from call to call.

ghost use Rattle.std.specs.Prelude.{◌≡◌, ◌+◌, ◌<◌, ◌^◌};
ghost use Rattle.rb_chapter_ring.specs.OpenedRing.{capped};
ghost use Rattle.rb_chapter_ring.specs.inner.EndSteps.{discards_by_end};

use crate::record_end::RecordEnd;

/// Counts a refusal; the count saturates at `u64::MAX`.
pub(crate) fn count_refusal(refused: &mut u64)
    ensures counted { refused.new ≡ capped (refused.old + 1) }
{
    if *refused < u64::MAX {
        *refused += 1;
    }
}

#[inline(always)]
/// Counts the commit of a record if it is a discard.
pub(crate) fn count_discard(discarded: &mut u64, end: RecordEnd)
    requires total { discarded.old < 2 ^ 62 }
    ensures counted { discarded.new ≡ discarded.old + discards_by_end end }
{
    match end {
        RecordEnd::Submit => {}
        RecordEnd::Discard => *discarded += 1,
    }
}
