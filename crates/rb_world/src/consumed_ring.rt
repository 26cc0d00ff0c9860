//! A ring of a world, with the chapters that it handed out and the records that its consumer took.

use crate::ring_answers;
use crate::turn_done::TurnDone;
use rb_chapter_ring::{Chapter, RecordEnd, RingRecord, RingState};
use rb_history::Taken;
use rb_interp::{Answer, Machine};
use std::alloc::{AllocError, Global};
use std::marker::Model;

// A ring, the chapters that it handed out (oldest first), and what its consumer took, in order.
#[derive(Drop)]
pub(crate) struct ConsumedRing {
    pub(crate) ring: RingState,
    pub(crate) chapters: Vec<Chapter>,
    pub(crate) taken: Vec<Taken>,
}

impl Model for ConsumedRing {
    ghost use Rattle.std.specs.Coded.{codes};
    ghost use Rattle.rb_history.specs.RingModel.{contents_code};
    ghost use Rattle.rb_history.specs.contracts.entries.Entry as entry;
    ghost use Rattle.rb_history.specs.contracts.tally.Tally as tally_row;
    ghost use Rattle.rb_chapter_ring.specs.contracts.out_record.OutRecord as out_row;
    ghost use Rattle.rb_world.specs.WorldValue.{KeptRing};
    ghost use Rattle.rb_world.specs.inner.KeptChapters.{KeepsChapters};

    ghost Value = { KeptRing };

    ghost coded = { Prim.hlevel (codes, contents_code, entry.the_row.coded, tally_row.the_row.coded, out_row.the_row.coded) };

    ghost view = { λ s. record { ring = s.ring; chapters = s.chapters.items; taken = s.taken.items } };

    ghost invariant = { λ s. KeepsChapters (record { ring = s.ring; chapters = s.chapters.items; taken = s.taken.items }) };
}

impl ConsumedRing {
    ghost use Rattle.std.specs.Prelude.{◌≡◌, ◌<◌, ◌≤◌, ℕ, List, Some};
    ghost use Rattle.rb_chapter_ring.specs.Chapters.{joined};
    ghost use Rattle.rb_chapter_ring.specs.WholeHistory.{Binds, IsKept};
    ghost use Rattle.rb_chapter_ring.specs.HandRing.{HasInHand};
    ghost use Rattle.rb_interp.specs.declared.step.Phase.TheVariants as phase;
    ghost use Rattle.rb_semantics.specs.declared.pending_call.PendingCall.TheVariants as asked;
    ghost use Rattle.rb_world.specs.RecordReasons.{OutputsOrHasReason, ReservesOrHasReason};
    ghost use Rattle.rb_world.specs.inner.WorkerTurn.{TakesOnce, KeepsChapter, AnswersReserve, AnswersOutput, AnswersGivenBack, AnswersQuery};
    ghost use Rattle.rb_world.specs.inner.RecordEnds.{WorkerEnds};
    ghost use Rattle.rb_world.specs.inner.FittingWorlds.{AreOwn};
    ghost use Rattle.rb_world.specs.inner.HeldInHands.{HoldsOldOrOut, KeepsInHand, hands_shown};
    ghost use Rattle.rb_world.specs.TurnsDone.{chapters_of};
    ghost use Rattle.rb_world.specs.WorldValue.{world_ring};

    // The invariant of every ring: its chapters are consecutive and form one history.
    pub(crate) fn facts(&self)
        ensures binds { Binds self.now.chapters self.now.ring.state.ring.chapter }
        ensures kept { IsKept (joined self.now.chapters) self.now.ring.state.ring.chapter }
    {
        let _ = &self.ring;
    }

    // Answers the reserve of a waiting worker.
    pub(crate) fn answer_reserve(
        &mut self,
        machine: &mut Machine<'_, &[u8], RingRecord>,
        alloc: Global,
        w: u32,
        r: u32,
        len: u32,
        flags: u64,
    )
        requires worker { w < self.old.ring.state.ring.chapter.opening.setup.workers }
        requires waits { machine.old.phase ≡ phase.Waiting (asked.Reserve len) }
        ensures answered { AnswersReserve w r len flags machine.old (world_ring self.old) machine.new (world_ring self.new) }
        ensures own { (rings : ℕ) → r < rings → AreOwn w rings machine.old.records → AreOwn w rings machine.new.records }
        ensures held { HoldsOldOrOut r (hands_shown self.new) machine.old.records machine.new.records }
        ensures hands { KeepsInHand self.old self.new }
        ensures program { machine.new.program ≡ machine.old.program }
        ensures chapters { chapters_of self.new ≡ chapters_of self.old }
        ensures reason { flags ≡ 0 → ReservesOrHasReason w len self.old.ring.state self.new.ring.state }
    {
        machine.facts();
        machine.record_facts();
        match ring_answers::reserve(&mut self.ring, alloc, w, len, flags) {
            Some(reservation) => machine.answer(Answer::Granted(RingRecord {
                ring: r,
                reservation,
            })),
            None => machine.answer(Answer::Null),
        }
    }

    // Answers the output of a waiting worker.
    pub(crate) fn answer_output(
        &mut self,
        machine: &mut Machine<'_, &[u8], RingRecord>,
        alloc: Global,
        w: u32,
        flags: u64,
    )
        requires worker { w < self.old.ring.state.ring.chapter.opening.setup.workers }
        requires waits { machine.old.phase ≡ phase.Waiting asked.Output }
        ensures answered { AnswersOutput w flags machine.old (world_ring self.old) machine.new (world_ring self.new) }
        ensures records { machine.new.records ≡ machine.old.records }
        ensures hands { hands_shown self.new ≡ hands_shown self.old }
        ensures program { machine.new.program ≡ machine.old.program }
        ensures chapters { chapters_of self.new ≡ chapters_of self.old }
        ensures reason { (bytes : List ℕ) → machine.old.output ≡ Some bytes → flags ≤ 3 → OutputsOrHasReason w bytes self.old.ring.state self.new.ring.state }
    {
        let code = ring_answers::output(&mut self.ring, alloc, w, machine.output(), flags);
        machine.answer(Answer::Code(code));
    }

    // Answers the submit or discard of a waiting worker. The record is out in the worker's hand.
    pub(crate) fn answer_given_back(
        &mut self,
        machine: &mut Machine<'_, &[u8], RingRecord>,
        ending: RecordEnd,
        owned: RingRecord,
        flags: u64,
    )
        requires out { HasInHand self.old.ring.state owned.reservation.hand owned.reservation.granted }
        requires waits { machine.old.phase ≡ phase.Waiting asked.GiveBack }
        ensures answered { AnswersGivenBack (WorkerEnds ending) owned machine.old (world_ring self.old) machine.new (world_ring self.new) }
        ensures records { machine.new.records ≡ machine.old.records }
        ensures hands { KeepsInHand self.old self.new }
        ensures program { machine.new.program ≡ machine.old.program }
        ensures chapters { chapters_of self.new ≡ chapters_of self.old }
    {
        self.ring.facts();
        self.ring.settle(owned.reservation, ending, flags);
        self.ring.facts();
        machine.answer(Answer::Taken);
    }

    // Answers the query of a waiting worker.
    pub(crate) fn answer_query(&self, machine: &mut Machine<'_, &[u8], RingRecord>, what: u64)
        requires waits { machine.old.phase ≡ phase.Waiting asked.Query }
        ensures answered { AnswersQuery what machine.old (world_ring self.now) machine.new }
        ensures records { machine.new.records ≡ machine.old.records }
        ensures program { machine.new.program ≡ machine.old.program }
    {
        machine.answer(Answer::Told(self.ring.query(what)));
    }

    // Performs one take for the ring's consumer. Returns `Memory` if the list of taken records cannot grow.
    pub(crate) fn consume(&mut self) -> TurnDone
        ensures taken { TakesOnce (world_ring self.old) result (world_ring self.new) }
        ensures hands { hands_shown self.new ≡ hands_shown self.old }
        ensures chapters { chapters_of self.new ≡ chapters_of self.old }
    {
        if self.taken.reserve(1).is_err() {
            return TurnDone::Memory;
        }
        let found = self.ring.take();
        self.ring.facts();
        match found {
            Taken::BusyFront => TurnDone::BusyFront,
            Taken::Empty => TurnDone::Empty,
            Taken::Skipped(pos, n) => {
                self.taken.push_reserved(Taken::Skipped(pos, n));
                TurnDone::Skipped
            }
            Taken::Event(pos, worker, serial, sheet) => {
                self.taken
                    .push_reserved(Taken::Event(pos, worker, serial, sheet));
                TurnDone::Took
            }
        }
    }

    // Hands out the ring's chapter and appends it to the list of chapters. Returns `Memory` if the next chapter cannot
    // be allocated.
    pub(crate) fn hand_out(&mut self, alloc: Global) -> TurnDone
        ensures turned { KeepsChapter self.old result self.new }
        ensures hands { hands_shown self.new ≡ hands_shown self.old }
        ensures same_history { world_ring self.new ≡ world_ring self.old }
    {
        if self.chapters.reserve(1).is_err() {
            return TurnDone::Memory;
        }
        let Ok(next) = next_chapter(alloc, &self.ring) else {
            return TurnDone::Memory;
        };
        match self.ring.hand_out(next) {
            Ok(chapter) => {
                let number = chapter.number();
                self.chapters.push_reserved(chapter);
                TurnDone::Chapter(number)
            }
            Err(_) => TurnDone::Memory,
        }
    }
}

// Returns an empty chapter with the ring's room and number of workers.
fn next_chapter(alloc: Global, ring: &RingState) -> Result<Chapter, AllocError> {
    ring.facts();
    let chapter = ring.chapter();
    Chapter::new(alloc, chapter.room(), chapter.opening().numbers().workers)
}
