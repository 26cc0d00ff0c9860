//! The hands of one worker.

ghost use Rattle.std.specs.Prelude.{◌≡◌, IfNone, IfSome, length};
ghost use Rattle.rb_chapter_ring.specs.Hands.{AreAllOut, IsLowestFree};

use crate::out_record::OutRecord;

/// Returns the lowest free one of a worker's four hands, if one is free.
pub fn lowest_free(hands: &[Option<OutRecord>]) -> Option<u32>
    requires four { length hands.now ≡ 4 }
    ensures free { IfSome result (λ h. IsLowestFree hands.now h) }
    ensures all_out { IfNone result (AreAllOut hands.now) }
{
    if hands[0].is_none() {
        return Some(0);
    }
    if hands[1].is_none() {
        return Some(1);
    }
    if hands[2].is_none() {
        return Some(2);
    }
    if hands[3].is_none() {
        return Some(3);
    }
    None
}
