//! The consumer's seat at a shared ring.

ghost use Rattle.std.specs.Prelude.{◌≡◌, [], ◌∷◌, None, length};
ghost use Rattle.crossbeam_queue.specs.Passes.{view, IsPassOf, IsSamePass};
ghost use Rattle.rb_ledger.specs.Roles.Role.{Consumer};
ghost use Rattle.rb_ledger.specs.Seats.{IsBook, ConsumerTies};
ghost use Rattle.rb_ledger.specs.ChapterKnowledge.{chapter_view};
ghost use Rattle.rb_ledger.specs.ChapterClosing.{consumer_knowledge};
ghost use Rattle.rb_ledger.specs.ChapterLockSteps.{opening_role};
ghost use Rattle.rb_ledger.specs.HandKnowledge.{hand_view, without_hands};
ghost use Rattle.rb_ledger.specs.HandLockSteps.{first_hand_role, other_hand_roles, opening_hands};
ghost use Rattle.rb_ledger.specs.ChapterSeats.{fresh_chapter_consumer};
ghost use Rattle.rb_shared_ring.specs.inner.HandPasses.{seen_with, room_with};

use crate::lock::{Lock, RingPass, SplitFirstRole};
use crate::ring_numbers::RingNumbers;
use std::marker::Model;

/// The consumer's seat at a shared ring (its handle to the ring): the right to take records and to hand out chapters,
/// and the consumer's counts. It can't be cloned, so a ring has one; it may be sent to another thread.
///
/// Contracts also see the whole history up to the seat's last call, the bytes that it took, by position, and the
/// chapters that were handed out, the oldest first.
#[derive(Drop)]
pub struct ConsumerSeat {
    pub(crate) tag: u64,
    pub(crate) size: u64,
    pub(crate) workers: u32,
    pub(crate) room: u32,
    pub(crate) chapters: u64,
    pub(crate) consumed: u64,
    pub(crate) skipped: u64,
    pub(crate) position: u64,
    pub(crate) pass: RingPass,
}

impl Model for ConsumerSeat {
    ghost use Rattle.std.specs.Prelude.{◌≡◌, []};
    ghost use Rattle.std.specs.Coded.{codes};
    ghost use Rattle.atomic_table.specs.Seated.{table_id_coded};
    ghost use Rattle.crossbeam_queue.specs.Passes.{view as known_by};
    ghost use Rattle.rb_history.specs.RingModel.{contents_code};
    ghost use Rattle.rb_history.specs.contracts.entries.Entry as entry;
    ghost use Rattle.rb_history.specs.contracts.tally.Tally as tally_row;
    ghost use Rattle.rb_ledger.specs.ChapterSeats.{ChapterConsumerSeat};
    ghost use Rattle.rb_chapter_ring.specs.contracts.out_record.OutRecord as out_row;
    ghost use Rattle.rb_ledger.specs.HandKnowledge.{chapters_out};
    ghost use Rattle.rb_shared_ring.specs.inner.HandPasses.{seen_with, bytes_with, room_with, handed_out_with};
    ghost use Rattle.rb_shared_ring.specs.inner.SeatsKeep.{KeepsConsumer, CountsTakes};

    ghost Value = { ChapterConsumerSeat };

    ghost coded = { Prim.hlevel (codes, contents_code, table_id_coded, entry.the_row.coded, tally_row.the_row.coded, out_row.the_row.coded) };

    ghost view = { λ s. record {
      tag = s.tag;
      ring = s.pass.table_id;
      room = room_with (known_by s.pass);
      consumed = s.consumed;
      skipped = s.skipped;
      position = s.position;
      seen = seen_with (known_by s.pass);
      got = bytes_with (known_by s.pass);
      handed_out = handed_out_with (known_by s.pass);
      out = chapters_out (known_by s.pass).out;
    } };

    ghost invariant = { λ s. (s.pass.me.1 ≡ []) × KeepsConsumer (known_by s.pass) s.size s.workers s.room s.chapters × CountsTakes (known_by s.pass) s.consumed s.skipped s.position };
}

impl ConsumerSeat {
    /// States the invariant of a consumer's seat: the history that it has seen is legal, its counts are those of the
    /// takes in it, its position is the consumer position, and it does not hold the ring's state.
    pub fn facts(&self)
        ensures book { IsBook self.now.seen }
        ensures ties { ConsumerTies self.now.consumed self.now.skipped self.now.position self.now.seen }
        ensures released { self.now.out ≡ None }
    {
        let _ = &self.tag;
    }

    /// Returns the tag of the ring with which the seat was opened.
    pub fn tag(&self) -> u64
        ensures tag { result ≡ self.now.tag }
    {
        self.tag
    }

    #[inline(always)]
    /// Returns the parameters with which its ring was opened.
    pub fn numbers(&self) -> RingNumbers
        ensures size { result.size ≡ self.now.seen.setup.size }
        ensures workers { result.workers ≡ self.now.seen.setup.workers }
        ensures room { result.room ≡ self.now.room }
    {
        RingNumbers {
            size: self.size,
            workers: self.workers,
            room: self.room,
        }
    }

    /// Returns the number of chapters that were handed out, which is the number of the ring's current chapter.
    pub fn chapters(&self) -> u64
        ensures chapters { result ≡ length self.now.handed_out }
    {
        self.chapters
    }

    /// Returns the number of events that were taken.
    pub fn consumed(&self) -> u64
        ensures consumed { result ≡ self.now.consumed }
    {
        self.consumed
    }

    /// Returns the number of discarded records that were skipped.
    pub fn skipped(&self) -> u64
        ensures skipped { result ≡ self.now.skipped }
    {
        self.skipped
    }

    /// Returns the consumer position: the start plus the spans of all records that were taken, including discarded
    /// ones.
    pub fn position(&self) -> u64
        ensures position { result ≡ self.now.position }
    {
        self.position
    }

    // Returns the seat's pass, which is the consumer's role, and what it has seen and received.
    pub(crate) fn into_pass(self) -> RingPass
        ensures ring { (result.table_id ≡ self.ring) × (result.me.1 ≡ []) }
        ensures knows { without_hands (view result) ≡ chapter_view (consumer_knowledge self ∷ []) None }
        ensures free { (view result).out ≡ None }
        ensures ties { ConsumerTies self.consumed self.skipped self.position self.seen }
    {
        self.pass
    }
}

/// Splits the pass's first role off, as the seat of a consumer that has taken nothing.
pub(crate) fn new_consumer(
    lock: &Lock,
    pass: &mut RingPass,
    tag: u64,
    size: u64,
    workers: u32,
    start: u64,
    room: u32,
) -> ConsumerSeat
    requires pass { IsPassOf lock.now pass.old }
    requires role { first_hand_role (view pass.old).knows ≡ opening_hands (opening_role Consumer (seen_with (view pass.old)) (room_with (view pass.old))) ∷ [] }
    requires nothing { (seen_with (view pass.old)).history ≡ [] }
    requires book { IsBook (seen_with (view pass.old)) }
    requires size { (seen_with (view pass.old)).setup.size ≡ size }
    requires workers { (seen_with (view pass.old)).setup.workers ≡ workers }
    requires start { (seen_with (view pass.old)).setup.start ≡ start }
    requires room { room_with (view pass.old) ≡ room }
    ensures same { IsSamePass pass.old pass.new }
    ensures rest { view pass.new ≡ hand_view (other_hand_roles (view pass.old).knows) (view pass.old).out }
    ensures seat { result ≡ fresh_chapter_consumer tag pass.old.table_id room (seen_with (view pass.old)) }
{
    ConsumerSeat {
        tag,
        size,
        workers,
        room,
        chapters: 0,
        consumed: 0,
        skipped: 0,
        position: start,
        pass: lock.another::<SplitFirstRole>(pass),
    }
}
