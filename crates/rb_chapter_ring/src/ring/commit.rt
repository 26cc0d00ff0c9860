//! The commit of a record, which is its submit or its discard.

ghost use Rattle.std.specs.Prelude.{◌≡◌, ◌↔◌};
ghost use Rattle.rb_history.specs.declared.answers.Notice.TheVariants.{Due};
ghost use Rattle.rb_history.specs.NoticesAndQueries.{IsDue};
ghost use Rattle.rb_chapter_ring.specs.ChapterCalls.{IsSameChapter, consumer_by_chapter};
ghost use Rattle.rb_chapter_ring.specs.RecordEnds.{EndsFromHand};
ghost use Rattle.rb_chapter_ring.specs.HandRing.{HasInHand, SubmitsFromHand, DiscardsFromHand};

use crate::hand_table::set_hand;
use crate::record_slots::{keep_bytes, slot_in};
use crate::ring_counts::count_discard;
use crate::{RecordEnd, Reservation, RingState};
use rb_history::{Notice, notice_for};

impl RingState {
    #[inline(always)]
    /// Submits the reservation's record, so that the consumer can take it with its bytes, and frees its hand. The
    /// record is in that hand, so it is busy and never refused. (bpf-helpers(7), bpf_ringbuf_submit.)
    ///
    /// Only bits 0 and 1 of the flags are used. Takes constant time and does not allocate.
    pub fn submit(&mut self, reservation: Reservation, flags: u64) -> Notice
        requires out { HasInHand self.old.state reservation.hand reservation.granted }
        ensures same_tag { self.new.tag ≡ self.old.tag }
        ensures same_chapter { IsSameChapter self.old.state.ring self.new.state.ring }
        ensures submitted { SubmitsFromHand self.old.state self.new.state reservation.hand reservation.granted }
        ensures notice { (result ≡ Due) ↔ IsDue (consumer_by_chapter self.old.state.ring) reservation.granted.pos flags }
    {
        self.settle(reservation, RecordEnd::Submit, flags)
    }

    #[inline(always)]
    /// Discards the reservation's record, so that the consumer skips it, and frees its hand. The record is in that
    /// hand, so it is busy and never refused. (bpf-helpers(7), bpf_ringbuf_discard.)
    ///
    /// Only bits 0 and 1 of the flags are used. Takes constant time and does not allocate.
    pub fn discard(&mut self, reservation: Reservation, flags: u64) -> Notice
        requires out { HasInHand self.old.state reservation.hand reservation.granted }
        ensures same_tag { self.new.tag ≡ self.old.tag }
        ensures same_chapter { IsSameChapter self.old.state.ring self.new.state.ring }
        ensures discarded { DiscardsFromHand self.old.state self.new.state reservation.hand reservation.granted }
        ensures notice { (result ≡ Due) ↔ IsDue (consumer_by_chapter self.old.state.ring) reservation.granted.pos flags }
    {
        self.settle(reservation, RecordEnd::Discard, flags)
    }

    #[inline(always)]
    /// Submits or discards the reservation's record, as `end` says, and frees its hand. The record is in that hand, so
    /// it is busy and never refused. (Linux kernel/bpf/ringbuf.c, bpf_ringbuf_commit.)
    ///
    /// Only bits 0 and 1 of the flags are used. Takes constant time and does not allocate.
    pub fn settle(&mut self, reservation: Reservation, end: RecordEnd, flags: u64) -> Notice
        requires out { HasInHand self.old.state reservation.hand reservation.granted }
        ensures same_tag { self.new.tag ≡ self.old.tag }
        ensures same_chapter { IsSameChapter self.old.state.ring self.new.state.ring }
        ensures ended { EndsFromHand end reservation.hand reservation.granted self.old.state self.new.state }
        ensures notice { (result ≡ Due) ↔ IsDue (consumer_by_chapter self.old.state.ring) reservation.granted.pos flags }
    {
        let Reservation {
            pos,
            worker,
            hand,
            sheet,
            ..
        } = reservation;
        let numbers = self.chapter.closing().numbers();
        let notice = notice_for(numbers.consumer, pos, flags);
        let ordinal = self.ordinals[worker as usize][hand as usize];
        let index = (ordinal - (numbers.consumed + numbers.skipped)) as usize;
        let slot = slot_in(self.sheets.len(), ordinal);
        keep_bytes(&mut self.sheets, slot, sheet, end);
        count_discard(&mut self.discarded, end);
        self.chapter.log_end(index, end);
        set_hand(&mut self.hands, worker, hand, None);
        notice
    }
}
