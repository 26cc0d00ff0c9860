//! The answers of one ring to the calls of a program.

ghost use Rattle.std.specs.Prelude.{◌<◌, ◌≤◌, ◌≡◌, neg_ℤ, IfNone, IfSome, option_map, length};
ghost use Rattle.rb_interp.specs.ErrorNumbers.{EAGAIN};
ghost use Rattle.rb_chapter_ring.specs.ChapterCalls.{IsSameChapter};
ghost use Rattle.rb_chapter_ring.specs.ChapterRing.{StandsForChapter};
ghost use Rattle.rb_chapter_ring.specs.HandRing.{HasInHand};
ghost use Rattle.rb_world.specs.inner.HeldInHands.{StaysOut};
ghost use Rattle.rb_world.specs.RecordReasons.{OutputsOrHasReason, ReservesOrHasReason};
ghost use Rattle.rb_world.specs.inner.RingAnswers.{IsReserved, IsOutput, IsWholeAnswer};

use rb_chapter_ring::{Reservation, ReserveFault, RingState};
use rb_history::KNOWN_FLAGS;
use rb_interp::{EAGAIN, EINVAL};
use rb_lend::{Lent, Sheet};
use std::alloc::Global;

// Reserves a record of `len` bytes in the worker's lowest free hand. Returns `None` if the flags are not 0, no hand is
// free, the ring or its chapter has no room, or no memory can be allocated.
pub(crate) fn reserve(
    ring: &mut RingState,
    alloc: Global,
    worker: u32,
    len: u32,
    flags: u64,
) -> Option<Reservation>
    requires worker { worker < ring.old.state.ring.chapter.opening.setup.workers }
    ensures reserved { IsWholeAnswer (λ old new. IsReserved old new worker len flags (option_map (λ r. r.granted) result)) ring.old.state.ring ring.new.state.ring }
    ensures same_tag { ring.new.tag ≡ ring.old.tag }
    ensures same_chapter { IsSameChapter ring.old.state.ring ring.new.state.ring }
    ensures in_hand { IfSome result (λ r. HasInHand ring.new.state r.hand r.granted) }
    ensures others { StaysOut ring.old.state.hands ring.new.state.hands }
    ensures reason { flags ≡ 0 → ReservesOrHasReason worker len ring.old.state ring.new.state }
{
    if flags != 0 {
        return None;
    }
    let Some(hand) = ring.free_hand(worker) else {
        return None;
    };
    let Ok(sheet) = Sheet::new(alloc, len) else {
        return None;
    };
    let answer = ring.reserve(worker, hand, len, sheet);
    ring.facts();
    match answer {
        Ok(reservation) => Some(reservation),
        Err(_) => None,
    }
}

// Puts a copy of `bytes` into the ring. Returns 0, `-EINVAL` for flags above 3, or `-EAGAIN` if no record was made.
pub(crate) fn output(
    ring: &mut RingState,
    alloc: Global,
    worker: u32,
    bytes: &[u8],
    flags: u64,
) -> i64
    requires worker { worker < ring.old.state.ring.chapter.opening.setup.workers }
    ensures given { IsWholeAnswer (λ old new. IsOutput old new worker bytes.now flags result) ring.old.state.ring ring.new.state.ring }
    ensures same_tag { ring.new.tag ≡ ring.old.tag }
    ensures same_chapter { IsSameChapter ring.old.state.ring ring.new.state.ring }
    ensures same_hands { ring.new.state.hands ≡ ring.old.state.hands }
    ensures reason { flags ≤ 3 → OutputsOrHasReason worker bytes.now ring.old.state ring.new.state }
{
    if flags > KNOWN_FLAGS {
        return -EINVAL;
    }
    let Some(sheet) = copy_of(alloc, bytes) else {
        return -EAGAIN;
    };
    match ring.output(worker, sheet, flags) {
        Ok(_) => {
            ring.facts();
            return 0;
        }
        Err((fault, _)) => {
            let code = code_of_refusal(ring, fault);
            return code;
        }
    }
}

// Returns the return code of an output that the ring refused.
fn code_of_refusal(ring: &RingState, fault: ReserveFault) -> i64
    ensures code { result ≡ neg_ℤ EAGAIN }
    ensures stands { StandsForChapter ring.now.state.ring }
{
    let _ = fault;
    ring.facts();
    -EAGAIN
}

// Returns a sheet (the byte buffer of a record) with a copy of `bytes`, or `None` if they exceed a sheet's maximum
// length or no memory can be allocated.
fn copy_of(alloc: Global, bytes: &[u8]) -> Option<Sheet>
    ensures copied { IfSome result (λ s. s ≡ bytes.now) }
    ensures long { IfNone result (16 < length bytes.now) }
{
    if bytes.len() > u32::MAX as usize {
        return None;
    }
    let Ok(mut sheet) = Sheet::new(alloc, bytes.len() as u32) else {
        return None;
    };
    sheet.bytes_mut().copy_from_slice(bytes);
    Some(sheet)
}
