//! Shared by the tests: rings with one or two seats, and calls that end the test unless they get the right answer.

ghost use Rattle.std.specs.Prelude.{◌≡◌, length};
ghost use Rattle.rb_ledger.specs.Seats.{IsSameSeat, fresh_seats, fresh_book};

use super::expected::sheet;
use rb_history::Notice;
use rb_lend::{Lent, Sheet};
use rb_shared_ring::{ConsumerSeat, Reservation, Seat, SharedRing, open};
use std::alloc::Global;
use std::process::Abort;
use std::sync::Wait;

/// A chapter room that fits all entries of a test.
pub(super) const ROOM: u32 = 65_536;

/// Returns a ring of 4,096 bytes that starts at 0, with one worker and chapters of this room.
pub(super) fn one_seat<R: Wait + Abort>(
    rt: &R,
    alloc: Global,
    tag: u64,
    room: u32,
) -> (SharedRing, Seat, ConsumerSeat)
    ensures ring { (result.1.ring ≡ result.0.ring) × (result.2.ring ≡ result.0.ring) }
    ensures tags { (result.0.tag ≡ tag) × (result.1.tag ≡ tag) × (result.2.tag ≡ tag) }
    ensures consumer { (result.2.seen.setup.size ≡ 4096) × (result.2.position ≡ 0) }
{
    let Ok((ring, mut seats, consumer)) = open(rt, alloc, tag, 4096, 0, 1, room) else {
        rt.panic("no ring")
    };
    match seats.pop() {
        Some(seat) => (ring, seat, consumer),
        None => rt.panic("no seat"),
    }
}

/// Returns a ring of 4,096 bytes that starts at 0, with two workers and room for all entries of a test.
pub(super) fn two_seats<R: Wait + Abort>(
    rt: &R,
    alloc: Global,
    tag: u64,
) -> (SharedRing, Seat, Seat, ConsumerSeat)
    ensures ring { (result.1.ring ≡ result.0.ring) × (result.2.ring ≡ result.0.ring) × (result.3.ring ≡ result.0.ring) }
    ensures tags { (result.0.tag ≡ tag) × (result.1.tag ≡ tag) × (result.2.tag ≡ tag) × (result.3.tag ≡ tag) }
{
    let Ok((ring, mut seats, consumer)) = open(rt, alloc, tag, 4096, 0, 2, ROOM) else {
        rt.panic("no ring")
    };
    let Some(second) = seats.pop() else {
        rt.panic("no second seat")
    };
    match seats.pop() {
        Some(first) => (ring, first, second, consumer),
        None => rt.panic("no first seat"),
    }
}

pub(super) fn sheet_of(rt: &impl Abort, alloc: Global, n: u32, byte: u8) -> Sheet
    ensures { length result ≡ n }
{
    let mut sheet = sheet(rt, alloc, n);
    sheet.bytes_mut().fill(byte);
    sheet
}

pub(super) fn granted<R: Wait + Abort>(
    rt: &R,
    alloc: Global,
    ring: &SharedRing,
    seat: &mut Seat,
    n: u32,
) -> Reservation
    requires { seat.old.ring ≡ ring.now.ring }
    ensures { IsSameSeat seat.old seat.new }
{
    let sheet = sheet_of(rt, alloc, n, 255);
    match ring.reserve(rt, seat, n, sheet) {
        Ok(reservation) => reservation,
        Err(_) => rt.panic("not granted"),
    }
}

pub(super) fn submitted<R: Wait + Abort>(
    rt: &R,
    ring: &SharedRing,
    seat: &mut Seat,
    reservation: Reservation,
    flags: u64,
) -> Notice
    requires { seat.old.ring ≡ ring.now.ring }
    ensures { IsSameSeat seat.old seat.new }
{
    match ring.submit(rt, seat, reservation, flags) {
        Ok(notice) => notice,
        Err(_) => rt.panic("a submit was handed back"),
    }
}

pub(super) fn discarded<R: Wait + Abort>(
    rt: &R,
    ring: &SharedRing,
    seat: &mut Seat,
    reservation: Reservation,
) -> Notice
    requires { seat.old.ring ≡ ring.now.ring }
    ensures { IsSameSeat seat.old seat.new }
{
    match ring.discard(rt, seat, reservation, 0) {
        Ok(notice) => notice,
        Err(_) => rt.panic("a discard was handed back"),
    }
}

pub(super) fn output<R: Wait + Abort>(
    rt: &R,
    alloc: Global,
    ring: &SharedRing,
    seat: &mut Seat,
    n: u32,
    byte: u8,
) -> Notice
    requires { seat.old.ring ≡ ring.now.ring }
    ensures { IsSameSeat seat.old seat.new }
{
    let sheet = sheet_of(rt, alloc, n, byte);
    match ring.output(rt, seat, sheet, 0) {
        Ok(notice) => notice,
        Err(_) => rt.panic("a refused output"),
    }
}
