//! A ring that threads share.

ghost use Rattle.std.specs.Prelude.{◌≡◌, ◌≢◌, ◌≤◌, ◌↔◌, ◌⊎◌, Ok, IfOk, OnOk, IfErr, IsOk, IsErr, None, length, slice_set};
ghost use Rattle.std.specs.FinMap.{insert};
ghost use Rattle.rb_chapter_ring.specs.declared.faults.ReserveFault.TheVariants.{Foreign as FaultForeign, HandsFull};
ghost use Rattle.rb_history.specs.Calls.{producer_now};
ghost use Rattle.rb_chapter_ring.specs.Hands.{AreAllOut, IsLowestFree};
ghost use Rattle.rb_chapter_ring.specs.RecordEnds.{tally_with_end};
ghost use Rattle.rb_ledger.specs.Roles.Role.{Worker};
ghost use Rattle.rb_ledger.specs.Seats.{IsSameSeat};
ghost use Rattle.rb_ledger.specs.LockedCalls.{LockedCall, SubmitsAt, DiscardsAt, Queries, submitted_by, discarded_by};
ghost use Rattle.rb_ledger.specs.EntryRoom.{InRoom};
ghost use Rattle.rb_ledger.specs.RecordEnds.{EndsAt, sent_by_end};
ghost use Rattle.rb_shared_ring.specs.SharedCalls.{ReservesInRoom, OutputsInRoom, IsInSeatsHand, IsRefusedInRoomAs, granted_in, hands_after_reserve, reserved_in_room_by, output_in_room_by, sent_by_output_in_room};

use crate::batch_flag::BatchFlag;
use crate::lock::Lock;
use crate::locked_calls::{output_with, query_with, reserve_with, settle_with};
use crate::tally::{after_end, after_output, after_reserve};
use crate::worker_seat::Seat;
use rb_chapter_ring::{RecordEnd, Reservation, ReserveFault, lowest_free};
use rb_history::Notice;
use rb_lend::Sheet;
use std::marker::Model;
use std::sync::Wait;
use thiserror::Error;

/// The fault of a call whose seat belongs to another ring: their tags differ. Nothing changed.
#[derive(Clone, Copy, Debug, Error, PartialEq, Eq)]
#[error("the seat is another ring's")]
pub struct Foreign;

/// A ring that threads share by `&`, and whose memory does not grow. Its state is under a lock, which a call holds for
/// one call of the ring of one thread only: when a call returns, its seat no longer holds the state (`released`), so no
/// record is written under the lock. No call with a seat allocates.
///
/// Each call takes the caller's seat. The ring has one history. At the moment of the call, that history extends what
/// the seat has seen by entries of other roles only; there the ring of one thread, with its whole history, returns what
/// this call returns for the seat's worker; and afterwards the seat has seen the whole history including this call
/// (`call`). The ring keeps the entries of that history that were not handed out yet, and has room for a fixed number
/// of them. The seat knows that room and how many entries were handed out (`room`, `cut`: never fewer than before), so
/// `ChapterFull` is returned if and only if there is no room for what the call would log. A seat that was opened with
/// another tag is `Foreign`. Rings with the same tag can't be told apart: each call requires that a seat with the
/// ring's tag was opened with this ring.
///
/// Each call may wait for other threads. No proof says that a call returns, that threads get their turns in any order,
/// or how long a call takes.
#[derive(Drop)]
pub struct SharedRing {
    pub(crate) tag: u64,
    pub(crate) lock: Lock,
    pub(crate) batch: BatchFlag,
}

impl Model for SharedRing {
    ghost use Rattle.std.specs.Prelude.{◌≡◌};
    ghost use Rattle.std.specs.Coded.{codes};
    ghost use Rattle.atomic_table.specs.Seated.{table_id_coded};
    ghost use Rattle.crossbeam_queue.specs.Passes.{ruled_capacity};
    ghost use Rattle.rb_ledger.specs.Seats.{Shared};

    ghost Value = { Shared };

    ghost coded = { Prim.hlevel (codes, table_id_coded) };

    ghost view = { λ s. record { tag = s.tag; ring = s.lock.table.shared.table_id } };

    ghost invariant = { λ s. ruled_capacity s.lock ≡ 1 };
}

impl SharedRing {
    /// Returns the tag that the caller of `open` chose for the ring.
    pub fn tag(&self) -> u64
        ensures tag { result ≡ self.now.tag }
    {
        self.tag
    }

    #[inline(always)]
    /// Grants the seat's worker a record of `n` bytes, all zeros, into the seat's lowest free hand. The record uses
    /// `sheet`, which must have `n` bytes and is cleared.
    ///
    /// Returns `Foreign` first, and then `HandsFull` if no hand is free. `Full` is logged and counted as refused.
    /// `ChapterFull` changes nothing: the chapter has no room for the entries that would be logged. A refusal returns
    /// the sheet.
    pub fn reserve<R: Wait>(
        &self,
        rt: &R,
        seat: &mut Seat,
        n: u32,
        sheet: Sheet,
    ) -> Result<Reservation, (ReserveFault, Sheet)>
        requires ring { seat.old.tag ≡ self.now.tag → seat.old.ring ≡ self.now.ring }
        requires sized { length sheet ≡ n }
        ensures foreign { IsRefusedInRoomAs FaultForeign result ↔ (seat.old.tag ≢ self.now.tag) }
        ensures hands_full { IsRefusedInRoomAs HandsFull result ↔ ((seat.old.tag ≡ self.now.tag) × AreAllOut seat.old.hands) }
        ensures unchanged { (seat.old.tag ≢ self.now.tag) ⊎ AreAllOut seat.old.hands → seat.new ≡ seat.old }
        ensures seat { IsSameSeat seat.old seat.new }
        ensures released { (seat.old.out ≡ None) × (seat.new.out ≡ None) }
        ensures call { seat.old.tag ≡ self.now.tag → ¬ AreAllOut seat.old.hands → LockedCall (Worker seat.old.worker) seat.old.seen seat.new.seen (InRoom seat.old.room seat.new.cut (ReservesInRoom seat.old.room seat.new.cut seat.old.worker n (granted_in result))) }
        ensures tally { seat.new.tally ≡ reserved_in_room_by seat.old.tally (granted_in result) }
        ensures serial { IfOk result (λ r. r.granted.serial ≡ seat.old.tally.made) }
        ensures tag { IfOk result (λ r. r.tag ≡ seat.old.tag) }
        ensures hand { IfOk result (λ r. IsLowestFree seat.old.hands r.hand) }
        ensures hands { seat.new.hands ≡ hands_after_reserve seat.old.hands n result }
        ensures sent { seat.new.sent ≡ seat.old.sent }
        ensures cut { seat.old.cut ≤ seat.new.cut }
        ensures handed_back { IfErr result (λ e. e.1 ≡ sheet) }
    {
        let free = lowest_free(&seat.hands);
        if seat.tag != self.tag {
            return Err((ReserveFault::Foreign, sheet));
        }
        let Some(hand) = free else {
            return Err((ReserveFault::HandsFull, sheet));
        };
        let (tag, worker) = (seat.tag, seat.worker);
        let answer = reserve_with(
            rt,
            &self.lock,
            &self.batch,
            &mut seat.pass,
            tag,
            worker,
            hand,
            n,
            sheet,
        );
        seat.tally = after_reserve(seat.tally, &answer);
        if let Ok(reservation) = &answer {
            seat.hands[hand as usize] = Some(reservation.out_record(n));
        }
        answer
    }

    #[inline(always)]
    /// Submits the reservation's record, so that the consumer can take it with its bytes, and frees the seat's hand.
    ///
    /// Returns the reservation, and changes nothing, if and only if the seat is foreign, the reservation's tag or
    /// worker is not the seat's, or the seat's hand with its number does not hold its position, serial and length. Only
    /// bits 0 and 1 of the flags are used.
    pub fn submit<R: Wait>(
        &self,
        rt: &R,
        seat: &mut Seat,
        reservation: Reservation,
        flags: u64,
    ) -> Result<Notice, Reservation>
        requires ring { seat.old.tag ≡ self.now.tag → seat.old.ring ≡ self.now.ring }
        ensures exact { IsOk result ↔ IsInSeatsHand self.now seat.old reservation }
        ensures handed_back { IfErr result (λ back. (back ≡ reservation) × (seat.new ≡ seat.old)) }
        ensures seat { IsSameSeat seat.old seat.new }
        ensures released { (seat.old.out ≡ None) × (seat.new.out ≡ None) }
        ensures call { IfOk result (λ notice. LockedCall (Worker seat.old.worker) seat.old.seen seat.new.seen (InRoom seat.old.room seat.new.cut (SubmitsAt reservation.granted flags (Ok notice)))) }
        ensures tally { IfOk result (λ notice. seat.new.tally ≡ submitted_by seat.old.tally (Ok notice)) }
        ensures hands { OnOk result (seat.new.hands ≡ slice_set seat.old.hands reservation.hand None) }
        ensures sent { OnOk result (seat.new.sent ≡ insert seat.old.sent reservation.granted.pos reservation.granted.bytes) }
        ensures cut { seat.old.cut ≤ seat.new.cut }
    {
        self.settle(rt, seat, reservation, RecordEnd::Submit, flags)
    }

    /// Discards the reservation's record, so that the consumer skips it, and frees the seat's hand. Returns the
    /// reservation in the same cases as `submit`.
    pub fn discard<R: Wait>(
        &self,
        rt: &R,
        seat: &mut Seat,
        reservation: Reservation,
        flags: u64,
    ) -> Result<Notice, Reservation>
        requires ring { seat.old.tag ≡ self.now.tag → seat.old.ring ≡ self.now.ring }
        ensures exact { IsOk result ↔ IsInSeatsHand self.now seat.old reservation }
        ensures handed_back { IfErr result (λ back. (back ≡ reservation) × (seat.new ≡ seat.old)) }
        ensures seat { IsSameSeat seat.old seat.new }
        ensures released { (seat.old.out ≡ None) × (seat.new.out ≡ None) }
        ensures call { IfOk result (λ notice. LockedCall (Worker seat.old.worker) seat.old.seen seat.new.seen (InRoom seat.old.room seat.new.cut (DiscardsAt reservation.granted flags (Ok notice)))) }
        ensures tally { IfOk result (λ notice. seat.new.tally ≡ discarded_by seat.old.tally (Ok notice)) }
        ensures hands { OnOk result (seat.new.hands ≡ slice_set seat.old.hands reservation.hand None) }
        ensures sent { seat.new.sent ≡ seat.old.sent }
        ensures cut { seat.old.cut ≤ seat.new.cut }
    {
        self.settle(rt, seat, reservation, RecordEnd::Discard, flags)
    }

    #[inline(always)]
    /// Submits or discards the reservation's record, as `end` says, and frees the seat's hand. Returns the reservation
    /// in the same cases as `submit`.
    pub fn settle<R: Wait>(
        &self,
        rt: &R,
        seat: &mut Seat,
        reservation: Reservation,
        end: RecordEnd,
        flags: u64,
    ) -> Result<Notice, Reservation>
        requires ring { seat.old.tag ≡ self.now.tag → seat.old.ring ≡ self.now.ring }
        ensures exact { IsOk result ↔ IsInSeatsHand self.now seat.old reservation }
        ensures handed_back { IfErr result (λ back. (back ≡ reservation) × (seat.new ≡ seat.old)) }
        ensures seat { IsSameSeat seat.old seat.new }
        ensures released { (seat.old.out ≡ None) × (seat.new.out ≡ None) }
        ensures call { IfOk result (λ notice. LockedCall (Worker seat.old.worker) seat.old.seen seat.new.seen (InRoom seat.old.room seat.new.cut (EndsAt end reservation.granted flags notice))) }
        ensures tally { IfOk result (λ notice. seat.new.tally ≡ tally_with_end end seat.old.tally) }
        ensures hands { OnOk result (seat.new.hands ≡ slice_set seat.old.hands reservation.hand None) }
        ensures sent { OnOk result (seat.new.sent ≡ sent_by_end end reservation.granted seat.old.sent) }
        ensures cut { seat.old.cut ≤ seat.new.cut }
    {
        if seat.tag != self.tag {
            return Err(reservation);
        }
        let worker = seat.worker;
        let Some(hand) = reservation.held_hand(self.tag, worker, &seat.hands) else {
            return Err(reservation);
        };
        let notice = settle_with(
            rt,
            &self.lock,
            &self.batch,
            &mut seat.pass,
            worker,
            reservation,
            end,
            flags,
        );
        seat.tally = after_end(seat.tally, end);
        seat.hands[hand as usize] = None;
        Ok(notice)
    }

    #[inline(always)]
    /// Grants the seat's worker a record with the sheet's bytes and submits it in the same call. It needs no hand.
    ///
    /// Returns `Foreign` first, then `Flags` for flags greater than 3, which is not logged; otherwise it refuses as
    /// `reserve` does. A refusal returns the sheet.
    pub fn output<R: Wait>(
        &self,
        rt: &R,
        seat: &mut Seat,
        sheet: Sheet,
        flags: u64,
    ) -> Result<Notice, (ReserveFault, Sheet)>
        requires ring { seat.old.tag ≡ self.now.tag → seat.old.ring ≡ self.now.ring }
        ensures foreign { IsRefusedInRoomAs FaultForeign result ↔ (seat.old.tag ≢ self.now.tag) }
        ensures unchanged { seat.old.tag ≢ self.now.tag → seat.new ≡ seat.old }
        ensures seat { IsSameSeat seat.old seat.new }
        ensures released { (seat.old.out ≡ None) × (seat.new.out ≡ None) }
        ensures call { seat.old.tag ≡ self.now.tag → LockedCall (Worker seat.old.worker) seat.old.seen seat.new.seen (InRoom seat.old.room seat.new.cut (λ old new. OutputsInRoom seat.old.room seat.new.cut seat.old.worker sheet flags result old new × (seat.new.sent ≡ sent_by_output_in_room seat.old.sent (producer_now old) sheet result))) }
        ensures tally { seat.new.tally ≡ output_in_room_by seat.old.tally result }
        ensures hands { seat.new.hands ≡ seat.old.hands }
        ensures cut { seat.old.cut ≤ seat.new.cut }
        ensures handed_back { IfErr result (λ e. e.1 ≡ sheet) }
    {
        if seat.tag != self.tag {
            return Err((ReserveFault::Foreign, sheet));
        }
        let worker = seat.worker;
        let answer = output_with(
            rt,
            &self.lock,
            &self.batch,
            &mut seat.pass,
            worker,
            sheet,
            flags,
        );
        seat.tally = after_output(seat.tally, &answer);
        answer
    }

    /// Returns the answer to a query (bpf-helpers(7), bpf_ringbuf_query), as of one moment: 0 asks for the number of
    /// bytes between the two positions, 1 for the size, 2 for the consumer position and 3 for the producer position.
    /// The answer to any other number is 0.
    pub fn query<R: Wait>(&self, rt: &R, seat: &mut Seat, what: u64) -> Result<u64, Foreign>
        requires ring { seat.old.tag ≡ self.now.tag → seat.old.ring ≡ self.now.ring }
        ensures foreign { IsErr result ↔ (seat.old.tag ≢ self.now.tag) }
        ensures unchanged { seat.old.tag ≢ self.now.tag → seat.new ≡ seat.old }
        ensures seat { IsSameSeat seat.old seat.new }
        ensures released { (seat.old.out ≡ None) × (seat.new.out ≡ None) }
        ensures call { IfOk result (λ n. LockedCall (Worker seat.old.worker) seat.old.seen seat.new.seen (InRoom seat.old.room seat.new.cut (Queries what n))) }
        ensures tally { seat.new.tally ≡ seat.old.tally }
        ensures hands { seat.new.hands ≡ seat.old.hands }
        ensures sent { seat.new.sent ≡ seat.old.sent }
        ensures cut { seat.old.cut ≤ seat.new.cut }
    {
        if seat.tag != self.tag {
            return Err(Foreign);
        }
        let worker = seat.worker;
        Ok(query_with(rt, &self.lock, &self.batch, &mut seat.pass, worker, what))
    }
}
