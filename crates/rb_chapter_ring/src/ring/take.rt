//! Takes, one at a time and many.

ghost use Rattle.std.specs.Prelude.{◌≡◌, ◌+◌, ◌≤◌, ◌++◌, ◌↔◌, length, vec_len, vec_capacity};
ghost use Rattle.rb_history.specs.ManyTakes.{pushed};
ghost use Rattle.rb_history.specs.declared.answers.Taken.TheVariants.{BusyFront, Empty};
ghost use Rattle.rb_chapter_ring.specs.ChapterCalls.{AllTakenByChapter, HasBusyFrontByChapter, IsSameChapter, TakesByChapter};
ghost use Rattle.rb_chapter_ring.specs.ManyTakes.{TakesManyInChapter};

use crate::record_slots::{find_front, slot_in};
use crate::{RingState, UntakenStatus};
use rb_history::Taken;

impl RingState {
    #[inline(always)]
    /// Takes the record at the consumer position: returns a submitted one, or skips a discarded one. A busy record
    /// stops it, whatever waits after that record. (Linux Documentation/bpf/ringbuf.rst: records are consumed in the
    /// order of their reservation.)
    ///
    /// Takes constant time and does not allocate.
    pub fn take(&mut self) -> Taken
        ensures same_tag { self.new.tag ≡ self.old.tag }
        ensures same_chapter { IsSameChapter self.old.state.ring self.new.state.ring }
        ensures takes { TakesByChapter self.old.state.ring self.new.state.ring result }
        ensures busy_front { (result ≡ BusyFront) ↔ HasBusyFrontByChapter self.old.state.ring }
        ensures empty { (result ≡ Empty) ↔ AllTakenByChapter self.old.state.ring }
        ensures same_hands { self.new.state.hands ≡ self.old.state.hands }
    {
        let closing = self.chapter.closing();
        let Some(front) = find_front(closing.records()) else {
            return Taken::Empty;
        };
        match front.status {
            UntakenStatus::Busy => Taken::BusyFront,
            UntakenStatus::Waiting => {
                let numbers = closing.numbers();
                let slot = slot_in(self.sheets.len(), numbers.consumed + numbers.skipped);
                let sheet = self.sheets[slot].hand_out();
                self.chapter.log_take();
                Taken::Event(front.pos, front.worker, front.serial, sheet)
            }
            UntakenStatus::Discarded => {
                self.chapter.log_take();
                Taken::Skipped(front.pos, front.len)
            }
        }
    }

    /// Takes up to `n` records, as `n` calls of `take`, and pushes each that was returned or skipped onto `out`.
    /// Returns how many these are. (Linux Documentation/bpf/ringbuf.rst: records are consumed in the order of their
    /// reservation.)
    ///
    /// It stops before the first take that finds a busy record or no record, so it pushes neither `BusyFront` nor
    /// `Empty`. Takes constant time for each record, after it has moved up to 4,096 untaken records in memory. Does not
    /// allocate.
    pub fn take_many(&mut self, n: usize, out: &mut Vec<Taken>) -> usize
        requires room { vec_len out.old + n ≤ vec_capacity out.old }
        ensures same_tag { self.new.tag ≡ self.old.tag }
        ensures same_chapter { IsSameChapter self.old.state.ring self.new.state.ring }
        ensures takes { TakesManyInChapter n (pushed out.old.items out.new.items) self.old.state.ring self.new.state.ring }
        ensures same_hands { self.new.state.hands ≡ self.old.state.hands }
        ensures kept { out.new.items ≡ out.old.items ++ pushed out.old.items out.new.items }
        ensures count { result ≡ length (pushed out.old.items out.new.items) }
        ensures capacity { vec_capacity out.new ≡ vec_capacity out.old }
    {
        self.compact();
        for count in 0..n {
            match self.take() {
                Taken::BusyFront | Taken::Empty => return count,
                record => out.push_reserved(record),
            }
        }
        n
    }

    // Reuses memory of records that were taken, if few are left.
    fn compact(&mut self)
        ensures same { self.new ≡ self.old }
    {
        self.chapter.compact();
    }
}
