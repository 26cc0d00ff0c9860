//! The rings of an engine, as the helpers of its programs.

ghost use Rattle.std.specs.Prelude.{◌≡◌, ◌≢◌, ◌↔◌, ◌+◌, ◌<◌, ◌≤◌, true, false, refl, [], ◌∷◌, ◌++◌, IfErr, IfNone, IfOk, IfSome, IsErrOf, List, ℕ, is_ok, is_some, length, replicate, Result};
ghost use Rattle.rb_chapter_ring.specs.declared.record_end.RecordEnd.{RecordEnd as End};
ghost use Rattle.rb_interp.specs.declared.completed_call.Done.TheVariants.{Reserve, Submit, Discard, Output, Query};
ghost use Rattle.rb_interp.specs.AnsweredCalls.{Reserved, Submitted, Discarded, SentOut, Queried};
ghost use Rattle.rb_engine.specs.EngineCalls.{AtRing, OfRing, CallsHelpers, EndAnswered, IsStillOut, Leads, OutputAnswered, QueryAnswered, ReserveAnswered, has_number, record_name};
ghost use Rattle.rb_engine.specs.RingCalls.{HasNoRoom, HasWaitingFront, Outputs, Takes, WasFront};
ghost use Rattle.rb_chapter_ring.specs.CountedFrom.{query_answer_from};
ghost use Rattle.rb_chapter_ring.specs.OpenedRing.{told_counts};
ghost use Rattle.rb_chapter_ring.specs.WholeHistory.{IsKept};
ghost use Rattle.rb_history.specs.declared.entries.Entry.{Entry};
ghost use Rattle.rb_engine.specs.RingTurns.{AfterTurn};
ghost use Rattle.rb_engine.specs.inner.Noting.{ended_call, ended_note, with_call};

use crate::engine_ring::{EngineRing, NotSent};
use rb_chapter_ring::{RecordEnd, RingRecord};
use rb_history::{Counts, KNOWN_FLAGS, Notice, Taken};
use rb_interp::{Done, EAGAIN, EINVAL, Helpers};
use std::alloc::{AllocError, Global};
use std::marker::Model;

/// The rings of an engine, and the trace of the calls of one run. A ring's number is its index.
#[derive(Drop)]
pub(crate) struct EngineRings {
    alloc: Global,
    pub(crate) rings: Vec<EngineRing>,
    trace: Vec<Done>,
    room: usize,
}

impl Model for EngineRings {
    ghost use Rattle.std.specs.Prelude.{◌+◌, ◌≤◌, vec_len, vec_capacity};
    ghost use Rattle.std.specs.Coded.{codes};
    ghost use Rattle.rb_history.specs.RingModel.{contents_code};
    ghost use Rattle.rb_history.specs.contracts.entries.Entry as entry;
    ghost use Rattle.rb_history.specs.contracts.tally.Tally as tally_row;
    ghost use Rattle.rb_chapter_ring.specs.contracts.out_record.OutRecord as out_row;
    ghost use Rattle.rb_interp.specs.contracts.completed_call.Done as done_row;
    ghost use Rattle.rb_engine.specs.EngineCalls.{RunRings};

    ghost Value = { RunRings };

    ghost coded = { Prim.hlevel (codes, contents_code, entry.the_row.coded, tally_row.the_row.coded, out_row.the_row.coded, done_row.the_row.coded) };

    ghost view = { λ h. record { rings = h.rings.items; trace = h.trace.items; room = h.room } };

    ghost invariant = { λ h. vec_len h.trace + h.room ≤ vec_capacity h.trace };
}

impl EngineRings {
    /// Returns these rings with an empty trace that has room for no call.
    pub(crate) fn new(alloc: Global, rings: Vec<EngineRing>) -> EngineRings
        ensures new { result ≡ record { rings = rings.items; trace = []; room = 0 } }
    {
        EngineRings {
            alloc,
            rings,
            trace: Vec::new(alloc),
            room: 0,
        }
    }

    /// Clears the trace of the last run, and makes room in it for `calls` calls. Fails only if memory for them can't be
    /// allocated, and then leaves the rings unchanged.
    pub(crate) fn begin(&mut self, calls: usize) -> Result<(), AllocError>
        ensures begun { IfOk result (λ _. self.new ≡ record { rings = self.old.rings; trace = []; room = calls }) }
        ensures refused { IfErr result (λ _. self.new.rings ≡ self.old.rings) }
    {
        self.trace.clear();
        self.room = 0;
        self.trace.reserve(calls)?;
        self.room = calls;
        Ok(())
    }

    /// Outputs a copy of the bytes to the ring with this number, as `EngineRing::output` does.
    pub(crate) fn put(&mut self, ring: u32, bytes: &[u8], flags: u64) -> Result<Notice, NotSent>
        requires ring { ring < length self.old.rings }
        requires flags { flags ≤ 3 }
        ensures put { IfOk result (λ notice. AtRing ring (AfterTurn (Outputs bytes.now flags notice)) self.old.rings self.new.rings) }
        ensures full { IsErrOf result NotSent.Full → AtRing ring (AfterTurn (HasNoRoom (length bytes.now))) self.old.rings self.new.rings }
        ensures memory { IsErrOf result NotSent.Memory → (16 < length bytes.now) × (self.new.rings ≡ self.old.rings) }
        ensures count { length self.new.rings ≡ length self.old.rings }
    {
        self.rings[ring as usize].output(self.alloc, bytes, flags)
    }

    /// Takes the next record of the ring with this number, as `EngineRing::take` does.
    pub(crate) fn take(&mut self, ring: u32) -> Taken
        requires ring { ring < length self.old.rings }
        ensures taken { AtRing ring (Takes result) self.old.rings self.new.rings }
        ensures front { OfRing ring (λ v. WasFront result v) self.old.rings }
        ensures count { length self.new.rings ≡ length self.old.rings }
    {
        self.rings[ring as usize].take()
    }

    /// Returns the answer to a query of the ring with this number, as `EngineRing::query` does.
    pub(crate) fn answer(&self, ring: u32, what: u64) -> u64
        requires ring { ring < length self.now.rings }
        ensures answer { OfRing ring (λ v. result ≡ query_answer_from v.ring.chapter.opening v.ring.chapter.entries what) self.now.rings }
    {
        self.rings[ring as usize].query(what)
    }

    /// Returns the totals of the ring with this number, as `EngineRing::counts` does.
    pub(crate) fn counts(&self, ring: u32) -> Counts
        requires ring { ring < length self.now.rings }
        ensures counts { OfRing ring (λ v. result ≡ told_counts v.ring) self.now.rings }
    {
        self.rings[ring as usize].counts()
    }

    /// Returns the length of the next record of the ring with this number, as `EngineRing::front_len` does.
    pub(crate) fn front_len(&self, ring: u32) -> Option<u32>
        requires ring { ring < length self.now.rings }
        ensures waiting { IfSome result (λ n. OfRing ring (λ v. HasWaitingFront v n) self.now.rings) }
        ensures none { IfNone result (OfRing ring (λ v. (n : ℕ) → ¬ HasWaitingFront v n) self.now.rings) }
    {
        self.rings[ring as usize].front_len()
    }

    /// States the invariant of the ring with this number, as `EngineRing::facts` does.
    pub(crate) fn facts(&self, ring: u32)
        requires ring { ring < length self.now.rings }
        ensures kept { OfRing ring (λ v. (earlier : List Entry) × IsKept earlier v.ring.chapter) self.now.rings }
    {
        self.rings[ring as usize].facts();
    }

    // Appends a call with its answer to the trace.
    fn log(&mut self, done: Done)
        requires room { 0 < self.old.room }
        ensures noted { self.new ≡ with_call self.old done }
    {
        self.trace.push_reserved(done);
        self.room -= 1;
    }

    // Reserves a record. Does not append the call to the trace.
    fn try_reserve(&mut self, ring: u32, n: u32, flags: u64) -> Option<RingRecord>
        requires ring { has_number self.old ring ≡ true }
        ensures rest { self.new ≡ record self.old { rings = self.new.rings } }
        ensures count { length self.new.rings ≡ length self.old.rings }
        ensures answered { ReserveAnswered ring n flags result self.old.rings self.new.rings }
        ensures zeros { IfSome result (λ r. r.reservation.granted.bytes ≡ replicate n 0) }
    {
        if flags != 0 {
            return None;
        }
        let Some(reservation) = self.rings[ring as usize].reserve(self.alloc, n) else {
            return None;
        };
        Some(RingRecord { ring, reservation })
    }

    // Outputs bytes. Does not append the call to the trace.
    //
    // Returns `-EINVAL` for flags above 3, `-EAGAIN` if no record could be granted, and 0 otherwise.
    fn try_output(&mut self, ring: u32, bytes: &[u8], flags: u64) -> i64
        requires ring { has_number self.old ring ≡ true }
        ensures rest { self.new ≡ record self.old { rings = self.new.rings } }
        ensures count { length self.new.rings ≡ length self.old.rings }
        ensures answered { OutputAnswered ring bytes.now flags result self.old.rings self.new.rings }
    {
        if flags > KNOWN_FLAGS {
            return -EINVAL;
        }
        let Ok(_) = self.rings[ring as usize].output(self.alloc, bytes, flags) else {
            return -EAGAIN;
        };
        0
    }

    // Submits or discards a record, or returns it if it is in no hand of its ring. Does not append the call to the
    // trace.
    fn try_end(&mut self, owned: RingRecord, end: RecordEnd, flags: u64) -> Result<(), RingRecord>
        ensures rest { self.new ≡ record self.old { rings = self.new.rings } }
        ensures count { length self.new.rings ≡ length self.old.rings }
        ensures answered { EndAnswered end owned (is_ok result) self.old.rings self.new.rings }
        ensures handed_back { IfErr result (λ back. back ≡ owned) }
    {
        let at = owned.ring as usize;
        if at >= self.rings.len()
            || owned.reservation.worker() != 0
            || !self.rings[at].is_out(&owned.reservation)
        {
            return Err(owned);
        }
        self.rings[at].settle(owned.reservation, end, flags);
        Ok(())
    }

    // Submits or discards a record, or returns it, and appends the call to the trace.
    fn end(&mut self, owned: RingRecord, how: RecordEnd, flags: u64) -> Result<(), RingRecord>
        requires room { 0 < self.old.room }
        ensures trace { self.new.trace ≡ self.old.trace ++ ended_note how flags (is_ok result) ∷ [] }
        ensures room { self.new.room + 1 ≡ self.old.room }
        ensures rings { has_number self.new ≡ has_number self.old }
        ensures handed_back { IfErr result (λ back. back ≡ owned) }
        ensures call { CallsHelpers (ended_call how owned flags (is_ok result)) self.old self.new }
    {
        match self.try_end(owned, how, flags) {
            Ok(()) => {
                self.log(note_of_end(how, flags, true));
                Ok(())
            }
            Err(back) => {
                self.log(note_of_end(how, flags, false));
                Err(back)
            }
        }
    }
}

// Returns the trace's entry for the call.
fn note_of_end(how: RecordEnd, flags: u64, taken: bool) -> Done
    ensures { result ≡ ended_note how flags taken }
{
    match how {
        RecordEnd::Submit => Done::Submit { flags, taken },
        RecordEnd::Discard => Done::Discard { flags, taken },
    }
}

impl Helpers for EngineRings {
    ghost use Rattle.rb_engine.specs.EngineCalls.{IsStillOut, Leads, has_number, record_name};
    ghost use Rattle.rb_engine.specs.inner.Chains.{called_on, kept_written, none_called};

    type Record = RingRecord;

    ghost trace_of = { λ h. h.trace };

    ghost room_of = { λ h. h.room };

    ghost has_ring = { has_number };

    ghost leads = { Leads };

    ghost keeps_records = { true };

    ghost keeps = { λ h r. IsStillOut h.rings r };

    ghost name_of = { record_name };

    ghost kept_written = { kept_written };

    ghost name_stays = { λ r w. refl };

    ghost leads_by_none = { none_called };

    ghost leads_on = { called_on };

    /// Returns a record of `n` zero bytes, or `None`, which is null to the program: if the flags are not 0, if the ring
    /// or its chapter has no room, if none of the four hands is free, or if memory for more than 16 bytes can't be
    /// allocated.
    fn reserve(&mut self, ring: u32, n: u32, flags: u64) -> Option<RingRecord>
        requires room { 0 < self.old.room }
        requires ring { has_number self.old ring ≡ true }
        ensures trace { self.new.trace ≡ self.old.trace ++ Reserve ring n flags (is_some result) ∷ [] }
        ensures room { self.new.room + 1 ≡ self.old.room }
        ensures rings { has_number self.new ≡ has_number self.old }
        ensures zeros { IfSome result (λ r. r.reservation.granted.bytes ≡ replicate n 0) }
        ensures called { Leads self.old (Reserved ring n flags result ∷ []) self.new }
        ensures call { CallsHelpers (Reserved ring n flags result) self.old self.new }
    {
        let answer = self.try_reserve(ring, n, flags);
        self.log(Done::Reserve {
            ring,
            len: n,
            flags,
            granted: answer.is_some(),
        });
        answer
    }

    /// Submits the record if it is in a hand of its ring, and returns any other.
    fn submit(&mut self, owned: RingRecord, flags: u64) -> Result<(), RingRecord>
        requires room { 0 < self.old.room }
        ensures trace { self.new.trace ≡ self.old.trace ++ Submit flags (is_ok result) ∷ [] }
        ensures room { self.new.room + 1 ≡ self.old.room }
        ensures rings { has_number self.new ≡ has_number self.old }
        ensures handed_back { IfErr result (λ back. back ≡ owned) }
        ensures called { Leads self.old (Submitted owned flags (is_ok result) ∷ []) self.new }
        ensures call { CallsHelpers (Submitted owned flags (is_ok result)) self.old self.new }
    {
        self.end(owned, RecordEnd::Submit, flags)
    }

    /// Discards the record if it is in a hand of its ring, and returns any other.
    fn discard(&mut self, owned: RingRecord, flags: u64) -> Result<(), RingRecord>
        requires room { 0 < self.old.room }
        ensures trace { self.new.trace ≡ self.old.trace ++ Discard flags (is_ok result) ∷ [] }
        ensures room { self.new.room + 1 ≡ self.old.room }
        ensures rings { has_number self.new ≡ has_number self.old }
        ensures handed_back { IfErr result (λ back. back ≡ owned) }
        ensures called { Leads self.old (Discarded owned flags (is_ok result) ∷ []) self.new }
        ensures call { CallsHelpers (Discarded owned flags (is_ok result)) self.old self.new }
    {
        self.end(owned, RecordEnd::Discard, flags)
    }

    /// Outputs a copy of the bytes to the ring.
    ///
    /// Returns `-EINVAL` for flags above 3, `-EAGAIN` if no record could be granted, and 0 otherwise.
    fn output(&mut self, ring: u32, bytes: &[u8], flags: u64) -> i64
        requires room { 0 < self.old.room }
        requires ring { has_number self.old ring ≡ true }
        ensures trace { self.new.trace ≡ self.old.trace ++ Output ring (length bytes.now) flags result ∷ [] }
        ensures room { self.new.room + 1 ≡ self.old.room }
        ensures rings { has_number self.new ≡ has_number self.old }
        ensures called { Leads self.old (SentOut ring bytes.now flags result ∷ []) self.new }
        ensures call { CallsHelpers (SentOut ring bytes.now flags result) self.old self.new }
    {
        let answer = self.try_output(ring, bytes, flags);
        self.log(Done::Output {
            ring,
            len: bytes.len() as u64,
            flags,
            answer,
        });
        answer
    }

    /// Returns the ring's answer to the query.
    fn query(&mut self, ring: u32, what: u64) -> u64
        requires room { 0 < self.old.room }
        requires ring { has_number self.old ring ≡ true }
        ensures trace { self.new.trace ≡ self.old.trace ++ Query ring what result ∷ [] }
        ensures room { self.new.room + 1 ≡ self.old.room }
        ensures rings { has_number self.new ≡ has_number self.old }
        ensures called { Leads self.old (Queried ring what result ∷ []) self.new }
        ensures call { CallsHelpers (Queried ring what result) self.old self.new }
    {
        let answer = self.rings[ring as usize].query(what);
        self.log(Done::Query { ring, what, answer });
        answer
    }

    fn trace(&self) -> &[Done] {
        self.trace.as_slice()
    }

    fn room(&self) -> usize {
        self.room
    }
}
