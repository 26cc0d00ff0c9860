//! Submitting and discarding a record.

ghost use Rattle.std.specs.Prelude.{◌≡◌, ◌+◌, ◌<◌, [], ◌∷◌, ◌++◌, IfErr, is_ok};
ghost use Rattle.rb_jobs.specs.SeatCalls.{RecordAnswered};
ghost use Rattle.rb_jobs.specs.SeatHelpers.{CallsHelpers, Leads, has_number};
ghost use Rattle.rb_jobs.specs.inner.CallAnswers.{due_in};
ghost use Rattle.rb_jobs.specs.inner.RecordEnds.{SeatEnds, ended_call, ended_note};

use crate::job::Gate;
use crate::seat_helpers::SeatHelpers;
use crate::stock::Stock;
use rb_chapter_ring::{RecordEnd, RingRecord};
use rb_history::Notice;
use rb_interp::Done;
use rb_shared_ring::Reservation;
use std::sync::Wait;

impl<'h, R: Wait, S: Stock, G: Gate> SeatHelpers<'h, R, S, G> {
    #[inline(always)]
    // Submits or discards the record with the seat at its ring, and adds the call to the trace. Returns the record if
    // its ring is not among the helpers' rings, or if it is not out in a hand of the seat there.
    pub(crate) fn give_back(
        &mut self,
        owned: RingRecord,
        end: RecordEnd,
        flags: u64,
    ) -> Result<(), RingRecord>
        requires room { 0 < self.old.room }
        ensures trace { self.new.trace ≡ self.old.trace ++ ended_note end flags (is_ok result) ∷ [] }
        ensures room { self.new.room + 1 ≡ self.old.room }
        ensures rings { has_number self.new ≡ has_number self.old }
        ensures handed_back { IfErr result (λ back. back ≡ owned) }
        ensures called { Leads self.old (ended_call end owned flags (is_ok result) ∷ []) self.new }
        ensures call { CallsHelpers (ended_call end owned flags (is_ok result)) self.old self.new }
    {
        let RingRecord { ring, reservation } = owned;
        let answer = self.try_give_back(ring, reservation, end, flags);
        match answer {
            Ok(_) => {
                self.log(note_of_end(end, flags, true), false);
                Ok(())
            }
            Err(reservation) => {
                self.log(note_of_end(end, flags, false), false);
                Err(RingRecord { ring, reservation })
            }
        }
    }

    #[inline(always)]
    // Submits or discards the reservation with the ring's seat, without adding the call to the trace. Returns it if
    // there is no such ring.
    fn try_give_back(
        &mut self,
        ring: u32,
        reservation: Reservation,
        end: RecordEnd,
        flags: u64,
    ) -> Result<Notice, Reservation>
        ensures rest { self.new ≡ record self.old { seats = self.new.seats } }
        ensures seat { RecordAnswered ring (is_ok result) (due_in result) (SeatEnds end reservation flags (is_ok result) (due_in result)) self.old.seats self.new.seats }
        ensures handed_back { IfErr result (λ back. back ≡ reservation) }
    {
        let at = ring as usize;
        if at >= self.rings.len() {
            return Err(reservation);
        }
        let shared = &self.rings[at];
        shared.settle(self.rt, &mut self.seats[at], reservation, end, flags)
    }
}

#[inline(always)]
// Returns the call's entry for the trace.
fn note_of_end(end: RecordEnd, flags: u64, taken: bool) -> Done
    ensures { result ≡ ended_note end flags taken }
{
    match end {
        RecordEnd::Submit => Done::Submit { flags, taken },
        RecordEnd::Discard => Done::Discard { flags, taken },
    }
}
