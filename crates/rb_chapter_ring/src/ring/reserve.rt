//! A grant into a hand.

ghost use Rattle.std.specs.Prelude.{◌≡◌, ◌≢◌, ◌<◌, IfOk, IfErr, length, replicate};
ghost use Rattle.rb_chapter_ring.specs.ChapterCalls.{IsSameChapter};
ghost use Rattle.rb_chapter_ring.specs.declared.faults.ReserveFault.TheVariants.{Flags};
ghost use Rattle.rb_chapter_ring.specs.RingFaults.{RefusesInChapter};
ghost use Rattle.rb_chapter_ring.specs.Hands.{IsFree, hands_of};
ghost use Rattle.rb_chapter_ring.specs.HandRing.{HasInHand, GrantsToHand};

use crate::hand_table::{set_hand, set_ordinal};
use crate::{OutRecord, Reservation, ReserveFault, RingState};
use rb_lend::Sheet;

impl RingState {
    #[inline(always)]
    /// Grants worker `worker` a record of `n` bytes, all zeros, at the producer position into this hand, if the ring
    /// has room for it and the chapter for all entries that it will log. The record uses `sheet`, which must have `n`
    /// bytes and is cleared. (bpf-helpers(7), bpf_ringbuf_reserve.)
    ///
    /// `Full` is logged: the ring has no room. `ChapterFull` changes nothing: the chapter has no room for the entries
    /// that would be logged. A refusal returns the sheet. Takes constant time, except for clearing the bytes, and does
    /// not allocate.
    pub fn reserve(
        &mut self,
        worker: u32,
        hand: u32,
        n: u32,
        sheet: Sheet,
    ) -> Result<Reservation, (ReserveFault, Sheet)>
        requires worker { worker < self.old.state.ring.chapter.opening.setup.workers }
        requires hand { IsFree (hands_of self.old.state.hands worker) hand }
        requires sized { length sheet ≡ n }
        ensures same_tag { self.new.tag ≡ self.old.tag }
        ensures same_chapter { IsSameChapter self.old.state.ring self.new.state.ring }
        ensures granted { IfOk result (λ r. GrantsToHand self.old.state self.new.state worker hand n r.granted.pos r.granted.serial) }
        ensures tag { IfOk result (λ r. r.tag ≡ self.old.tag) }
        ensures hand { IfOk result (λ r. r.hand ≡ hand) }
        ensures worker { IfOk result (λ r. r.granted.worker ≡ worker) }
        ensures zeros { IfOk result (λ r. r.granted.bytes ≡ replicate n 0) }
        ensures out { IfOk result (λ r. HasInHand self.new.state r.hand r.granted) }
        ensures refused { IfErr result (λ e. RefusesInChapter self.old.state.ring self.new.state.ring worker n e.0) }
        ensures same_hands { IfErr result (λ e. self.new.state.hands ≡ self.old.state.hands) }
        ensures known_flags { IfErr result (λ e. e.0 ≢ Flags) }
        ensures handed_back { IfErr result (λ e. e.1 ≡ sheet) }
    {
        let mut sheet = sheet;
        let closing = self.chapter.closing();
        let numbers = closing.numbers();
        let ordinal = numbers.consumed + numbers.skipped + closing.records().len() as u64;
        match self.chapter.grant(worker, n, &mut self.refused) {
            Err(fault) => Err((fault, sheet)),
            Ok((pos, serial)) => {
                let out = OutRecord {
                    pos,
                    serial,
                    len: n,
                };
                set_hand(&mut self.hands, worker, hand, Some(out));
                set_ordinal(&mut self.ordinals, worker, hand, ordinal);
                sheet.clear();
                Ok(Reservation {
                    tag: self.tag,
                    hand,
                    pos,
                    worker,
                    serial,
                    sheet,
                })
            }
        }
    }
}
