//! Helpers over the seats of one worker.

ghost use Rattle.std.specs.Prelude.{◌≡◌, ◌≢◌, ◌↔◌, ◌⊎◌, ◌+◌, ◌<◌, ◌≤◌, pos, neg_ℤ, refl, true, false, [], ◌∷◌, ◌++◌, IfOk, IfErr, IfSome, IsErr, IsErrOf, is_ok, is_some, length, replicate};
ghost use Rattle.rb_interp.specs.declared.completed_call.Done.TheVariants.{Reserve, Submit, Discard, Output, Query};
ghost use Rattle.rb_interp.specs.AnsweredCalls.{Reserved, Submitted, Discarded, SentOut, Queried};
ghost use Rattle.rb_interp.specs.ErrorNumbers.{EAGAIN, EINVAL};
ghost use Rattle.rb_jobs.specs.declared.no_record.NoRecord.TheVariants.{BadFlags};
ghost use Rattle.rb_jobs.specs.SeatCalls.{AtSeat, SeatQueries};
ghost use Rattle.rb_jobs.specs.SeatHelpers.{AtRings, CallsHelpers, Leads, has_number};
ghost use Rattle.rb_jobs.specs.inner.CallAnswers.{SeatReserves, SeatSends, with_call};

mod record_ends;

use crate::call_answers::{answer_of, is_unlogged};
use crate::job::Gate;
use crate::no_record::NoRecord;
use crate::ring_calls::{output_at, reserve_at};
use crate::sheets::{copied_sheet, zero_sheet};
use crate::stock::Stock;
use rb_chapter_ring::{RecordEnd, RingRecord};
use rb_history::{KNOWN_FLAGS, Notice};
use rb_interp::{Done, Helpers};
use rb_shared_ring::{Foreign, Reservation, Seat, SharedRing};
use std::alloc::{AllocError, Global};
use std::marker::Model;
use std::mem;
use std::sync::Wait;

/// Helper functions over the seats of one worker, one at each of a list of rings. A ring's number is its index in the
/// list. Each call passes the worker's gate first.
#[derive(Drop)]
pub struct SeatHelpers<'h, R, S, G> {
    rt: &'h R,
    alloc: Global,
    stock: &'h S,
    gate: &'h G,
    rings: &'h [SharedRing],
    seats: Vec<Seat>,
    trace: Vec<Done>,
    room: usize,
    unlogged: u64,
    // The worker's number, and the number of calls that it had finished before those of the trace. Only the gate is
    // given them.
    worker: u32,
    finished: u64,
}

impl<'h, R, S, G> Model for SeatHelpers<'h, R, S, G> {
    ghost use Rattle.std.specs.Prelude.{◌+◌, ◌≤◌, ◌<◌, ◌^◌, vec_len, vec_capacity};
    ghost use Rattle.std.specs.Coded.{codes};
    ghost use Rattle.atomic_table.specs.Seated.{table_id_coded};
    ghost use Rattle.rb_history.specs.RingModel.{contents_code};
    ghost use Rattle.rb_history.specs.contracts.entries.Entry as entry;
    ghost use Rattle.rb_history.specs.contracts.tally.Tally as tally_row;
    ghost use Rattle.rb_chapter_ring.specs.contracts.out_record.OutRecord as out_row;
    ghost use Rattle.rb_interp.specs.contracts.completed_call.Done as done_row;
    ghost use Rattle.rb_jobs.specs.SeatHelpers.{AtSeats, AtRings};

    ghost Value = { AtSeats };

    ghost coded = { Prim.hlevel (codes, contents_code, table_id_coded, entry.the_row.coded, tally_row.the_row.coded, out_row.the_row.coded, done_row.the_row.coded) };

    ghost view = { λ h. record { rings = h.rings.now; seats = h.seats.items; trace = h.trace.items; room = h.room; unlogged = h.unlogged } };

    ghost invariant = { λ h. AtRings h.rings.now h.seats.items × (vec_len h.trace + h.room ≤ vec_capacity h.trace) × (h.unlogged ≤ vec_len h.trace) × (vec_capacity h.trace < 2 ^ 63) };
}

impl<'h, R: Wait, S: Stock, G: Gate> SeatHelpers<'h, R, S, G> {
    /// Returns helpers over these rings and the worker's seats there, in the rings' order, with room for `room` calls.
    /// If the trace can't be allocated, returns the seats with the error.
    ///
    /// The gate is called with worker 0 and with the number of calls so far.
    pub fn new(
        rt: &'h R,
        alloc: Global,
        rings: &'h [SharedRing],
        seats: Vec<Seat>,
        room: usize,
        stock: &'h S,
        gate: &'h G,
    ) -> Result<SeatHelpers<'h, R, S, G>, (AllocError, Vec<Seat>)>
        requires seats { AtRings rings.now seats.items }
        ensures new { IfOk result (λ h. h ≡ record { rings = rings.now; seats = seats.items; trace = []; room = room; unlogged = 0 }) }
        ensures handed_back { IfErr result (λ e. e.1 ≡ seats) }
    {
        match Vec::with_capacity(alloc, room) {
            Ok(trace) => Ok(SeatHelpers {
                rt,
                alloc,
                stock,
                gate,
                rings,
                seats,
                trace,
                room,
                unlogged: 0,
                worker: 0,
                finished: 0,
            }),
            Err(refused) => Err((refused, seats)),
        }
    }

    /// Returns helpers over these rings and the worker's seats there, in the rings' order, with no room for calls:
    /// `begin` makes room. Does not allocate.
    pub(crate) fn at_rest(
        rt: &'h R,
        alloc: Global,
        rings: &'h [SharedRing],
        seats: Vec<Seat>,
        stock: &'h S,
        gate: &'h G,
    ) -> SeatHelpers<'h, R, S, G>
        requires seats { AtRings rings.now seats.items }
        ensures new { result ≡ record { rings = rings.now; seats = seats.items; trace = []; room = 0; unlogged = 0 } }
    {
        SeatHelpers {
            rt,
            alloc,
            stock,
            gate,
            rings,
            seats,
            trace: Vec::new(alloc),
            room: 0,
            unlogged: 0,
            worker: 0,
            finished: 0,
        }
    }

    /// Sets what the gate is given before the next calls: the worker's number, and how many calls it had finished
    /// before those of the trace.
    pub(crate) fn count_from(&mut self, worker: u32, finished: u64)
        ensures same { self.new ≡ self.old }
    {
        self.worker = worker;
        self.finished = finished;
    }

    /// Clears the trace and makes room for `room` calls. Allocates only if the trace never had that much room. If the
    /// allocation fails, there is no room for a call.
    pub(crate) fn begin(&mut self, room: usize) -> Result<(), AllocError>
        ensures begun { IfOk result (λ _. self.new ≡ record { rings = self.old.rings; seats = self.old.seats; trace = []; room = room; unlogged = 0 }) }
        ensures refused { IfErr result (λ _. self.new ≡ record { rings = self.old.rings; seats = self.old.seats; trace = []; room = 0; unlogged = 0 }) }
    {
        self.trace.clear();
        self.room = 0;
        self.unlogged = 0;
        self.trace.reserve(room)?;
        self.room = room;
        Ok(())
    }

    /// Exchanges the seats for others, at these rings and in their order. Returns the earlier seats.
    pub(crate) fn exchange_seats(&mut self, rings: &'h [SharedRing], seats: Vec<Seat>) -> Vec<Seat>
        requires seats { AtRings rings.now seats.items }
        ensures new { self.new ≡ record self.old { rings = rings.now; seats = seats.items } }
        ensures returned { result.items ≡ self.old.seats }
        ensures at_rings { AtRings self.old.rings result.items }
    {
        self.rings = rings;
        mem::replace(&mut self.seats, seats)
    }

    /// Returns the seats, in the rings' order.
    pub fn into_seats(self) -> Vec<Seat>
        ensures seats { result.items ≡ self.entry.seats }
        ensures at_rings { AtRings self.entry.rings result.items }
    {
        self.seats
    }

    /// Returns the number of nulls for flags 0 and of `-EAGAIN` results that no entry of a ring explains.
    pub fn unlogged(&self) -> u64
        ensures count { result ≡ self.now.unlogged }
        ensures within { result ≤ length self.now.trace }
    {
        self.unlogged
    }
}

impl<'h, R: Wait, S: Stock, G: Gate> SeatHelpers<'h, R, S, G> {
    // Calls the gate with the number of calls that the worker has finished.
    #[inline(always)]
    fn pass_gate(&self) {
        let finished = self.finished.saturating_add(self.trace.len() as u64);
        self.gate.pass(self.worker, finished);
    }

    // Reserves a record with the ring's seat, without adding the call to the trace. Its sheet is made before the ring's
    // lock is taken.
    fn try_reserve(&mut self, ring: u32, n: u32, flags: u64) -> Result<Reservation, NoRecord>
        requires ring { has_number self.old ring ≡ true }
        ensures rest { self.new ≡ record self.old { seats = self.new.seats } }
        ensures flags { IsErrOf result BadFlags ↔ (flags ≢ 0) }
        ensures no_step { flags ≢ 0 → self.new.seats ≡ self.old.seats }
        ensures seat { flags ≡ 0 → AtSeat ring (SeatReserves n result) self.old.seats self.new.seats }
        ensures zeros { IfOk result (λ r. r.granted.bytes ≡ replicate n 0) }
    {
        if flags != 0 {
            return Err(NoRecord::BadFlags);
        }
        let sheet = zero_sheet(self.alloc, self.stock, n).ok_or(NoRecord::NoSheet)?;
        let at = ring as usize;
        let (shared, seat) = (&self.rings[at], &mut self.seats[at]);
        reserve_at(self.rt, self.stock, shared, seat, n, sheet)
    }

    // Outputs the bytes with the ring's seat, without adding the call to the trace. The sheet is made before the ring's
    // lock is taken.
    fn try_output(&mut self, ring: u32, bytes: &[u8], flags: u64) -> Result<Notice, NoRecord>
        requires ring { has_number self.old ring ≡ true }
        ensures rest { self.new ≡ record self.old { seats = self.new.seats } }
        ensures flags { IsErrOf result BadFlags ↔ (3 < flags) }
        ensures no_step { 3 < flags → self.new.seats ≡ self.old.seats }
        ensures seat { flags ≤ 3 → AtSeat ring (SeatSends bytes.now flags result) self.old.seats self.new.seats }
    {
        if flags > KNOWN_FLAGS {
            return Err(NoRecord::BadFlags);
        }
        let sheet = copied_sheet(self.alloc, self.stock, bytes).ok_or(NoRecord::NoSheet)?;
        let at = ring as usize;
        let (shared, seat) = (&self.rings[at], &mut self.seats[at]);
        output_at(self.rt, self.stock, shared, seat, sheet, flags)
    }

    // Queries the ring with its seat, without adding the call to the trace.
    fn try_query(&mut self, ring: u32, what: u64) -> u64
        requires ring { has_number self.old ring ≡ true }
        ensures rest { self.new ≡ record self.old { seats = self.new.seats } }
        ensures seat { AtSeat ring (SeatQueries what result) self.old.seats self.new.seats }
    {
        let at = ring as usize;
        match self.rings[at].query(self.rt, &mut self.seats[at], what) {
            Ok(answer) => answer,
            Err(Foreign) => unreachable!(),
        }
    }

    // Adds a call with its result to the trace, and counts it as unlogged if `unlogged` is set.
    fn log(&mut self, done: Done, unlogged: bool)
        requires room { 0 < self.old.room }
        ensures noted { self.new ≡ with_call self.old done unlogged }
    {
        self.trace.push_reserved(done);
        self.room -= 1;
        if unlogged {
            self.unlogged += 1;
        }
    }
}

impl<'h, R: Wait, S: Stock, G: Gate> Helpers for SeatHelpers<'h, R, S, G> {
    ghost use Rattle.rb_jobs.specs.SeatHelpers.{Leads, has_number};
    ghost use Rattle.rb_jobs.specs.KeptRecords.{IsStillOut, record_name};
    ghost use Rattle.rb_jobs.specs.inner.Chains.{none_called, called_on};
    ghost use Rattle.rb_jobs.specs.inner.WrittenRecords.{kept_written};

    type Record = RingRecord;

    ghost trace_of = { λ h. h.trace };

    ghost room_of = { λ h. h.room };

    ghost has_ring = { has_number };

    ghost leads = { Leads };

    ghost keeps_records = { true };

    ghost keeps = { IsStillOut };

    ghost name_of = { record_name };

    ghost kept_written = { kept_written };

    ghost name_stays = { λ r w. refl };

    ghost leads_by_none = { none_called };

    ghost leads_on = { called_on };

    /// Reserves a record of `n` bytes, or returns null.
    ///
    /// Returns null if the flags are not 0, without allocating or calling the ring; if the ring has no room, which its
    /// history records; and, as an unlogged failure, if the ring's chapter is full at 64 calls, between which the
    /// worker waits, if none of the seat's four hands (slots for records that are out) is free, or if an allocation for
    /// more than 16 bytes fails.
    fn reserve(&mut self, ring: u32, n: u32, flags: u64) -> Option<RingRecord>
        requires room { 0 < self.old.room }
        requires ring { has_number self.old ring ≡ true }
        ensures trace { self.new.trace ≡ self.old.trace ++ Reserve ring n flags (is_some result) ∷ [] }
        ensures room { self.new.room + 1 ≡ self.old.room }
        ensures rings { has_number self.new ≡ has_number self.old }
        ensures zeros { IfSome result (λ r. r.reservation.granted.bytes ≡ replicate n 0) }
        ensures called { Leads self.old (Reserved ring n flags result ∷ []) self.new }
        ensures call { CallsHelpers (Reserved ring n flags result) self.old self.new }
    {
        self.pass_gate();
        let answer = self.try_reserve(ring, n, flags);
        let unlogged = is_unlogged(&answer);
        match answer {
            Ok(reservation) => {
                let done = Done::Reserve {
                    ring,
                    len: n,
                    flags,
                    granted: true,
                };
                self.log(done, unlogged);
                Some(RingRecord { ring, reservation })
            }
            Err(_) => {
                let done = Done::Reserve {
                    ring,
                    len: n,
                    flags,
                    granted: false,
                };
                self.log(done, unlogged);
                None
            }
        }
    }

    /// Submits a record. It accepts each record that these helpers granted and that was not submitted or discarded
    /// since.
    ///
    /// Returns the record if its ring is not among the helpers' rings, or if it is not out in a hand of the seat there.
    fn submit(&mut self, owned: RingRecord, flags: u64) -> Result<(), RingRecord>
        requires room { 0 < self.old.room }
        ensures trace { self.new.trace ≡ self.old.trace ++ Submit flags (is_ok result) ∷ [] }
        ensures room { self.new.room + 1 ≡ self.old.room }
        ensures rings { has_number self.new ≡ has_number self.old }
        ensures handed_back { IfErr result (λ back. back ≡ owned) }
        ensures called { Leads self.old (Submitted owned flags (is_ok result) ∷ []) self.new }
        ensures call { CallsHelpers (Submitted owned flags (is_ok result)) self.old self.new }
    {
        self.pass_gate();
        self.give_back(owned, RecordEnd::Submit, flags)
    }

    /// Discards a record. It accepts each record that these helpers granted and that was not submitted or discarded
    /// since.
    ///
    /// Returns the record if its ring is not among the helpers' rings, or if it is not out in a hand of the seat there.
    fn discard(&mut self, owned: RingRecord, flags: u64) -> Result<(), RingRecord>
        requires room { 0 < self.old.room }
        ensures trace { self.new.trace ≡ self.old.trace ++ Discard flags (is_ok result) ∷ [] }
        ensures room { self.new.room + 1 ≡ self.old.room }
        ensures rings { has_number self.new ≡ has_number self.old }
        ensures handed_back { IfErr result (λ back. back ≡ owned) }
        ensures called { Leads self.old (Discarded owned flags (is_ok result) ∷ []) self.new }
        ensures call { CallsHelpers (Discarded owned flags (is_ok result)) self.old self.new }
    {
        self.pass_gate();
        self.give_back(owned, RecordEnd::Discard, flags)
    }

    /// Outputs the bytes as a record and returns 0, `-EINVAL` or `-EAGAIN`.
    ///
    /// Returns `-EINVAL` if the flags are above 3, without allocating or calling the ring. Returns `-EAGAIN` if the
    /// ring has no room, which its history records; and, as an unlogged failure, if the ring's chapter is full at 64
    /// calls, between which the worker waits, if an allocation for more than 16 bytes fails, or if there are more bytes
    /// than a record can have.
    fn output(&mut self, ring: u32, bytes: &[u8], flags: u64) -> i64
        requires room { 0 < self.old.room }
        requires ring { has_number self.old ring ≡ true }
        ensures trace { self.new.trace ≡ self.old.trace ++ Output ring (length bytes.now) flags result ∷ [] }
        ensures room { self.new.room + 1 ≡ self.old.room }
        ensures rings { has_number self.new ≡ has_number self.old }
        ensures called { Leads self.old (SentOut ring bytes.now flags result ∷ []) self.new }
        ensures call { CallsHelpers (SentOut ring bytes.now flags result) self.old self.new }
    {
        self.pass_gate();
        let answer = self.try_output(ring, bytes, flags);
        let unlogged = is_unlogged(&answer);
        let number = answer_of(&answer);
        self.log(
            Done::Output {
                ring,
                len: bytes.len() as u64,
                flags,
                answer: number,
            },
            unlogged,
        );
        number
    }

    /// Returns the ring's answer to the query. It changes no counts of a seat.
    fn query(&mut self, ring: u32, what: u64) -> u64
        requires room { 0 < self.old.room }
        requires ring { has_number self.old ring ≡ true }
        ensures trace { self.new.trace ≡ self.old.trace ++ Query ring what result ∷ [] }
        ensures room { self.new.room + 1 ≡ self.old.room }
        ensures rings { has_number self.new ≡ has_number self.old }
        ensures called { Leads self.old (Queried ring what result ∷ []) self.new }
        ensures call { CallsHelpers (Queried ring what result) self.old self.new }
    {
        self.pass_gate();
        let answer = self.try_query(ring, what);
        self.log(Done::Query { ring, what, answer }, false);
        answer
    }

    fn trace(&self) -> &[Done] {
        self.trace.as_slice()
    }

    fn room(&self) -> usize {
        self.room
    }
}
