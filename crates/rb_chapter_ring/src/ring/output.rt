//! A grant and a submit in one call.

ghost use Rattle.std.specs.Prelude.{◌≡◌, ◌<◌, ◌≤◌, ◌↔◌, IfOk, IfErr, OnOk, length};
ghost use Rattle.rb_history.specs.declared.answers.Notice.TheVariants.{Due};
ghost use Rattle.rb_history.specs.NoticesAndQueries.{IsDue};
ghost use Rattle.rb_chapter_ring.specs.ChapterCalls.{IsSameChapter, OutputsByChapter, consumer_by_chapter, producer_by_chapter};
ghost use Rattle.rb_chapter_ring.specs.declared.faults.ReserveFault.TheVariants.{Flags};
ghost use Rattle.rb_chapter_ring.specs.RingFaults.{RefusesInChapter};

use crate::record_slots::{keep_bytes, slot_in};
use crate::{RecordEnd, ReserveFault, RingState};
use rb_history::{KNOWN_FLAGS, Notice, notice_for};
use rb_lend::Sheet;

impl RingState {
    #[inline(always)]
    /// Grants worker `worker` a record with the sheet's bytes and submits it in the same call. It needs no hand.
    /// (bpf-helpers(7), bpf_ringbuf_output.)
    ///
    /// Refuses unknown flags first, which is not logged; otherwise it refuses as `reserve` does. A refusal returns the
    /// sheet. Takes constant time and does not allocate.
    pub fn output(
        &mut self,
        worker: u32,
        sheet: Sheet,
        flags: u64,
    ) -> Result<Notice, (ReserveFault, Sheet)>
        requires worker { worker < self.old.state.ring.chapter.opening.setup.workers }
        ensures same_tag { self.new.tag ≡ self.old.tag }
        ensures same_chapter { IsSameChapter self.old.state.ring self.new.state.ring }
        ensures granted { OnOk result (OutputsByChapter self.old.state.ring self.new.state.ring worker sheet) }
        ensures notice { IfOk result (λ n. (n ≡ Due) ↔ IsDue (consumer_by_chapter self.old.state.ring) (producer_by_chapter self.old.state.ring) flags) }
        ensures known_flags { OnOk result (flags ≤ 3) }
        ensures flags { IfErr result (λ e. (e.0 ≡ Flags) ↔ (3 < flags)) }
        ensures refused { IfErr result (λ e. RefusesInChapter self.old.state.ring self.new.state.ring worker (length sheet) e.0) }
        ensures same_hands { self.new.state.hands ≡ self.old.state.hands }
        ensures handed_back { IfErr result (λ e. e.1 ≡ sheet) }
    {
        if flags > KNOWN_FLAGS {
            return Err((ReserveFault::Flags, sheet));
        }
        let numbers = self.chapter.closing().numbers();
        let notice = notice_for(numbers.consumer, numbers.producer, flags);
        match self.chapter.grant(worker, sheet.len(), &mut self.refused) {
            Err(fault) => Err((fault, sheet)),
            Ok(_) => {
                let closing = self.chapter.closing();
                let index = closing.records().len() - 1;
                let numbers = closing.numbers();
                let ordinal = numbers.consumed + numbers.skipped + index as u64;
                let slot = slot_in(self.sheets.len(), ordinal);
                keep_bytes(&mut self.sheets, slot, sheet, RecordEnd::Submit);
                self.chapter.log_end(index, RecordEnd::Submit);
                Ok(notice)
            }
        }
    }
}
