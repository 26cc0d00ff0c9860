//! Calls of a ring for a record, with one seat. If the ring's chapter (the bounded segment of its history) is full, the
//! ring is called again: its keeper may hand out the chapter meanwhile.

ghost use Rattle.std.specs.Prelude.{◌≡◌, ◌↔◌, ◌≤◌, IfErr, IfOk, IsErrOf, IsTrue, length, replicate};
ghost use Rattle.rb_chapter_ring.specs.Hands.{AreAllOut};
ghost use Rattle.rb_chapter_ring.specs.declared.faults.ReserveFault.TheVariants.{ChapterFull};
ghost use Rattle.rb_jobs.specs.declared.no_record.NoRecord.TheVariants.{BadFlags};
ghost use Rattle.rb_ledger.specs.Seats.{IsSameSeat};
ghost use Rattle.rb_jobs.specs.SeatHelpers.{IsAt};
ghost use Rattle.rb_jobs.specs.inner.CallAnswers.{SeatReserves, SeatReservesOnce, SeatSends, SeatSendsOnce};

use crate::no_record::{NoRecord, give_way, wait_for_keeper};
use crate::sheets::stock_sheet;
use crate::stock::Stock;
use rb_history::Notice;
use rb_lend::Sheet;
use rb_shared_ring::{Reservation, ReserveFault, Seat, SharedRing};
use std::sync::Wait;

/// The number of calls of a ring for one record before a full chapter is reported.
///
/// Between the calls the worker waits, a few microseconds at first and about thirty at most, and yields the processor
/// each time. That is two milliseconds in all, and more if other threads use the processor.
pub(crate) const CHAPTER_TRIES: u32 = 64;

#[inline(always)]
// Returns whether the ring's chapter was full.
fn is_chapter_full(fault: ReserveFault) -> bool
    ensures exact { IsTrue result ↔ (fault ≡ ChapterFull) }
{
    matches!(fault, ReserveFault::ChapterFull)
}

#[cold]
#[inline(never)]
// Puts the sheet of a refused call into the stock, and yields if the ring is full.
fn take_back<S: Stock>(stock: &S, sheet: Sheet, fault: ReserveFault) {
    stock_sheet(stock, sheet);
    give_way(fault);
}

#[inline(always)]
// Calls the ring once for a reservation.
fn reserve_once<R: Wait>(
    rt: &R,
    ring: &SharedRing,
    seat: &mut Seat,
    n: u32,
    sheet: Sheet,
) -> Result<Reservation, (ReserveFault, Sheet)>
    requires at_ring { IsAt ring.now seat.old }
    requires sized { length sheet ≡ n }
    ensures seat { IsSameSeat seat.old seat.new }
    ensures answer { SeatReservesOnce n result seat.old seat.new }
    ensures zeros { IfOk result (λ r. r.granted.bytes ≡ replicate n 0) }
    ensures free { IfErr result (λ e. e.0 ≡ ChapterFull → ¬ AreAllOut seat.old.hands) }
    ensures handed_back { IfErr result (λ e. e.1 ≡ sheet) }
{
    seat.facts();
    ring.reserve(rt, seat, n, sheet)
}

#[inline(always)]
/// Calls the ring for a reservation, and again if its chapter is full.
///
/// The call of the ring occurs once, in a loop, so that it is inlined, and a reservation that is granted at once is
/// returned without a copy.
pub(crate) fn reserve_at<R: Wait, S: Stock>(
    rt: &R,
    stock: &S,
    ring: &SharedRing,
    seat: &mut Seat,
    n: u32,
    sheet: Sheet,
) -> Result<Reservation, NoRecord>
    requires at_ring { IsAt ring.now seat.old }
    requires sized { length sheet ≡ n }
    ensures seat { IsSameSeat seat.old seat.new }
    ensures answer { SeatReserves n result seat.old seat.new }
    ensures flags { ¬ IsErrOf result BadFlags }
    ensures zeros { IfOk result (λ r. r.granted.bytes ≡ replicate n 0) }
{
    let mut sheet = sheet;
    for calls in 0..CHAPTER_TRIES {
        match reserve_once(rt, ring, seat, n, sheet) {
            Ok(reservation) => return Ok(reservation),
            Err((fault, handed_back)) => {
                if !is_chapter_full(fault) {
                    take_back(stock, handed_back, fault);
                    return Err(NoRecord::Refused(fault));
                }
                sheet = handed_back;
                wait_for_keeper(calls);
            }
        }
    }
    take_back(stock, sheet, ReserveFault::ChapterFull);
    Err(NoRecord::Refused(ReserveFault::ChapterFull))
}

#[inline(always)]
// Calls the ring once for an output.
fn output_once<R: Wait>(
    rt: &R,
    ring: &SharedRing,
    seat: &mut Seat,
    sheet: Sheet,
    flags: u64,
) -> Result<Notice, (ReserveFault, Sheet)>
    requires at_ring { IsAt ring.now seat.old }
    requires flags { flags ≤ 3 }
    ensures seat { IsSameSeat seat.old seat.new }
    ensures answer { SeatSendsOnce sheet flags result seat.old seat.new }
    ensures handed_back { IfErr result (λ e. e.1 ≡ sheet) }
{
    ring.output(rt, seat, sheet, flags)
}

#[inline(always)]
/// Calls the ring for an output, and again if its chapter is full.
pub(crate) fn output_at<R: Wait, S: Stock>(
    rt: &R,
    stock: &S,
    ring: &SharedRing,
    seat: &mut Seat,
    sheet: Sheet,
    flags: u64,
) -> Result<Notice, NoRecord>
    requires at_ring { IsAt ring.now seat.old }
    requires flags { flags ≤ 3 }
    ensures seat { IsSameSeat seat.old seat.new }
    ensures answer { SeatSends sheet flags result seat.old seat.new }
    ensures flags { ¬ IsErrOf result BadFlags }
{
    let mut sheet = sheet;
    for calls in 0..CHAPTER_TRIES {
        match output_once(rt, ring, seat, sheet, flags) {
            Ok(notice) => return Ok(notice),
            Err((fault, handed_back)) => {
                if !is_chapter_full(fault) {
                    take_back(stock, handed_back, fault);
                    return Err(NoRecord::Refused(fault));
                }
                sheet = handed_back;
                wait_for_keeper(calls);
            }
        }
    }
    take_back(stock, sheet, ReserveFault::ChapterFull);
    Err(NoRecord::Refused(ReserveFault::ChapterFull))
}
