//! A worker's seat at a shared ring.

ghost use Rattle.std.specs.Prelude.{◌≡◌, ◌<◌, [], ◌∷◌, None, length};
ghost use Rattle.std.specs.FinMap.{empty};
ghost use Rattle.crossbeam_queue.specs.Passes.{view, IsPassOf, IsSamePass};
ghost use Rattle.rb_ledger.specs.Roles.Role.{Worker};
ghost use Rattle.rb_ledger.specs.Seats.{IsBook, Ties, SettlesWithin, fresh_seat};
ghost use Rattle.rb_ledger.specs.ChapterLockSteps.{opening_role};
ghost use Rattle.rb_chapter_ring.specs.Hands.{in_hand};
ghost use Rattle.rb_ledger.specs.HandKnowledge.{hand_view};
ghost use Rattle.rb_ledger.specs.HandLockSteps.{first_hand_role, other_hand_roles, opening_hands};
ghost use Rattle.rb_ledger.specs.NoStranger.{HoldsOwnBusy};
ghost use Rattle.rb_shared_ring.specs.SharedCalls.{position_of};
ghost use Rattle.rb_shared_ring.specs.inner.HandPasses.{seen_with, bytes_with, room_with, cut_by, known_with};

use crate::lock::{Lock, RingPass, SplitFirstRole};
use rb_chapter_ring::OutRecord;
use rb_history::Tally;
use std::marker::Model;

/// A worker's seat at a shared ring (its handle to the ring): the right to make calls for this worker, and the worker's
/// counts. It can't be cloned, so a worker has one; it may be sent to another thread.
///
/// A seat has four hands, which hold the records that were granted to it and that it has not committed yet. Contracts
/// also see the whole history up to the seat's last call, how many of its entries had been handed out in chapters, the
/// room of each chapter in entries, and the bytes that the seat sent, by position.
#[derive(Drop)]
pub struct Seat {
    pub(crate) tag: u64,
    pub(crate) worker: u32,
    pub(crate) tally: Tally,
    pub(crate) hands: [Option<OutRecord>; 4],
    pub(crate) pass: RingPass,
}

impl Model for Seat {
    ghost use Rattle.std.specs.Prelude.{◌≡◌, []};
    ghost use Rattle.std.specs.Coded.{codes};
    ghost use Rattle.atomic_table.specs.Seated.{table_id_coded};
    ghost use Rattle.crossbeam_queue.specs.Passes.{view as known_by};
    ghost use Rattle.rb_history.specs.RingModel.{contents_code};
    ghost use Rattle.rb_history.specs.contracts.entries.Entry as entry;
    ghost use Rattle.rb_history.specs.contracts.tally.Tally as tally_row;
    ghost use Rattle.rb_ledger.specs.Seats.{WorkerSeat};
    ghost use Rattle.rb_ledger.specs.ChapterKnowledge.{whole_out};
    ghost use Rattle.rb_chapter_ring.specs.contracts.out_record.OutRecord as out_row;
    ghost use Rattle.rb_ledger.specs.HandKnowledge.{chapters_out};
    ghost use Rattle.rb_shared_ring.specs.inner.HandPasses.{seen_with, bytes_with, room_with, cut_by, KeepsHands};
    ghost use Rattle.rb_shared_ring.specs.inner.SeatsKeep.{KeepsWorker};

    ghost Value = { WorkerSeat };

    ghost coded = { Prim.hlevel (codes, contents_code, table_id_coded, entry.the_row.coded, tally_row.the_row.coded, out_row.the_row.coded) };

    ghost view = { λ s. record {
      tag = s.tag;
      ring = s.pass.table_id;
      room = room_with (known_by s.pass);
      worker = s.worker;
      tally = s.tally;
      hands = s.hands;
      seen = seen_with (known_by s.pass);
      cut = cut_by (known_by s.pass);
      sent = bytes_with (known_by s.pass);
      out = whole_out (chapters_out (known_by s.pass).out);
    } };

    ghost invariant = { λ s. (s.pass.me.1 ≡ []) × KeepsWorker (known_by s.pass) s.worker s.tally × KeepsHands (known_by s.pass) s.worker s.hands };
}

impl Seat {
    /// States the invariant of a seat: the history that it has seen is legal; its counts are those of its worker's
    /// entries in it; it submitted and discarded at most as many records as were granted to it; its four hands hold
    /// exactly its worker's busy records in that history, each once; and it does not hold the ring's state.
    pub fn facts(&self)
        ensures book { IsBook self.now.seen }
        ensures ties { Ties self.now.worker self.now.tally self.now.seen }
        ensures within { SettlesWithin self.now }
        ensures four { length self.now.hands ≡ 4 }
        ensures hands { HoldsOwnBusy self.now.hands self.now.worker self.now.seen.history }
        ensures released { self.now.out ≡ None }
    {
        let _ = &self.tag;
    }

    /// Returns the tag of the ring with which the seat was opened.
    pub fn tag(&self) -> u64
        ensures tag { result ≡ self.now.tag }
    {
        self.tag
    }

    /// Returns the worker's number, counted from 0.
    pub fn worker(&self) -> u32
        ensures worker { result ≡ self.now.worker }
    {
        self.worker
    }

    /// Returns the number of records that were granted to the seat.
    pub fn made(&self) -> u64
        ensures made { result ≡ self.now.tally.made }
    {
        self.tally.made
    }

    /// Returns the number of its reservations and outputs that were refused for lack of room in the ring, and logged.
    pub fn refused(&self) -> u64
        ensures refused { result ≡ self.now.tally.refused }
    {
        self.tally.refused
    }

    /// Returns the number of records that it submitted, including outputs.
    pub fn submitted(&self) -> u64
        ensures submitted { result ≡ self.now.tally.submitted }
    {
        self.tally.submitted
    }

    /// Returns the number of records that it discarded.
    pub fn discarded(&self) -> u64
        ensures discarded { result ≡ self.now.tally.discarded }
    {
        self.tally.discarded
    }

    /// Returns the position of the record in one of the seat's hands, if there is one.
    pub fn hand(&self, h: u32) -> Option<u64>
        requires hand { h < 4 }
        ensures position { result ≡ position_of (in_hand self.now.hands h) }
    {
        match self.hands[h as usize] {
            None => None,
            Some(out) => Some(out.pos),
        }
    }

    // Returns the seat's pass, which is its role, and what it has seen and sent.
    pub(crate) fn into_pass(self) -> RingPass
        ensures ring { (result.table_id ≡ self.ring) × (result.me.1 ≡ []) }
        ensures knows { view result ≡ hand_view (known_with (Worker self.worker) (view result) ∷ []) None }
        ensures seen { (seen_with (view result) ≡ self.seen) × (bytes_with (view result) ≡ self.sent) }
        ensures cut { cut_by (view result) ≡ self.cut }
        ensures ties { Ties self.worker self.tally self.seen }
    {
        self.pass
    }
}

/// Splits the pass's first role off, as the seat of a worker that has sent nothing.
pub(crate) fn new_seat(lock: &Lock, pass: &mut RingPass, tag: u64, worker: u32) -> Seat
    requires pass { IsPassOf lock.now pass.old }
    requires role { first_hand_role (view pass.old).knows ≡ opening_hands (opening_role (Worker worker) (seen_with (view pass.old)) (room_with (view pass.old))) ∷ [] }
    requires nothing { (seen_with (view pass.old)).history ≡ [] }
    requires book { IsBook (seen_with (view pass.old)) × (worker < (seen_with (view pass.old)).setup.workers) }
    ensures same { IsSamePass pass.old pass.new }
    ensures rest { view pass.new ≡ hand_view (other_hand_roles (view pass.old).knows) (view pass.old).out }
    ensures seat { result ≡ fresh_seat tag pass.old.table_id (room_with (view pass.old)) worker (seen_with (view pass.old)) }
{
    Seat {
        tag,
        worker,
        tally: Tally::none(),
        hands: [None; 4],
        pass: lock.another::<SplitFirstRole>(pass),
    }
}
