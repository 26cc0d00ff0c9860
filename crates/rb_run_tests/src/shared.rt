//! Shared by the tests: verified programs, and rings of 4,096 bytes with one seat.

ghost use Rattle.std.specs.Prelude.{◌≡◌, ◌+◌, ◌≤◌, ◌∷◌, [], true};
ghost use Rattle.rb_shared_ring.specs.SharedSeats.{IsSameChapterConsumer};
ghost use Rattle.rb_jobs.specs.SeatHelpers.{AtRings, IsAt};

use super::expected::same;
use rb_history::Taken;
use rb_interp::Helpers;
use rb_jobs::{OpenGate, SeatHelpers, Stock};
use rb_lend::{Lent, Sheet};
use rb_program::{from_text, shape};
use rb_shared_ring::{ConsumerSeat, Seat, SharedRing, open};
use rb_verifier::{Verified, verify};
use std::alloc::Global;
use std::process::Abort;
use std::sync::Wait;

/// Reserves a record of eight bytes, and submits 42 if it was granted.
pub(crate) const SUBMIT_42: &str =
    "1851000000000000 0000000000000000 b702000008000000 b703000000000000
    8500000083000000 1500040000000000 7a0000002a000000 bf01000000000000
    b702000000000000 8500000084000000 b700000000000000 9500000000000000";

/// Reserves four records of eight bytes in sequence, and holds all of them if each is granted; outputs the bytes of the
/// last one; then submits all that it holds, the last one first.
pub(crate) const HOLD_FOUR: &str =
    "1851000000000000 0000000000000000 b702000008000000 b703000000000000
    8500000083000000 1500280000000000 bf06000000000000
    1851000000000000 0000000000000000 b702000008000000 b703000000000000
    8500000083000000 15001e0000000000 bf07000000000000
    1851000000000000 0000000000000000 b702000008000000 b703000000000000
    8500000083000000 1500140000000000 bf08000000000000
    1851000000000000 0000000000000000 b702000008000000 b703000000000000
    8500000083000000 15000a0000000000 bf09000000000000
    1851000000000000 0000000000000000 bf92000000000000 b703000008000000
    b704000000000000 8500000082000000
    bf91000000000000 b702000000000000 8500000084000000
    bf81000000000000 b702000000000000 8500000084000000
    bf71000000000000 b702000000000000 8500000084000000
    bf61000000000000 b702000000000000 8500000084000000
    b700000000000000 9500000000000000";

/// Returns a program, verified for a context of this length and this many rings.
pub(crate) fn verified(
    rt: &impl Abort,
    alloc: Global,
    text: &str,
    ctx_len: u32,
    rings: u32,
) -> Verified
    requires context { ctx_len ≤ 65536 }
    requires rings { rings ≤ 16 }
    ensures rings { result.rings ≡ rings }
    ensures ctx_len { result.ctx_len ≡ ctx_len }
{
    let program = from_text(alloc, text).expect(rt, "a program");
    let shape = shape(alloc, program).expect(rt, "a shape");
    verify(alloc, shape, ctx_len, rings).expect(rt, "a verified program")
}

/// Returns a ring with one seat, whose chapters have this room.
pub(crate) fn opened<R: Wait + Abort>(
    rt: &R,
    alloc: Global,
    tag: u64,
    room: u32,
) -> (SharedRing, Seat, ConsumerSeat)
    ensures seat { IsAt result.0 result.1 }
    ensures consumer { result.2.ring ≡ result.0.ring }
{
    let Ok((ring, mut seats, consumer)) = open(rt, alloc, tag, 4096, 0, 1, room) else {
        rt.panic("no ring")
    };
    match seats.pop() {
        Some(seat) => (ring, seat, consumer),
        None => rt.panic("no seat"),
    }
}

/// Returns a list of one seat.
pub(crate) fn one_seat(rt: &impl Abort, alloc: Global, seat: Seat) -> Vec<Seat>
    ensures { result.items ≡ seat ∷ [] }
{
    vec![in alloc; seat].expect(rt, "memory")
}

/// Returns a list of two seats.
pub(crate) fn two_seats(rt: &impl Abort, alloc: Global, one: Seat, two: Seat) -> Vec<Seat>
    ensures { result.items ≡ one ∷ two ∷ [] }
{
    vec![in alloc; one, two].expect(rt, "memory")
}

/// Returns helpers over these rings and seats, with room for this many calls.
pub(crate) fn helpers<'h, R: Wait + Abort, S: Stock>(
    rt: &'h R,
    alloc: Global,
    rings: &'h [SharedRing],
    seats: Vec<Seat>,
    room: usize,
    stock: &'h S,
) -> SeatHelpers<'h, R, S, OpenGate>
    requires { AtRings rings.now seats.items }
    ensures { result ≡ record { rings = rings.now; seats = seats.items; trace = []; room = room; unlogged = 0 } }
{
    match SeatHelpers::new(rt, alloc, rings, seats, room, stock, &OpenGate) {
        Ok(helpers) => helpers,
        Err(_) => rt.panic("no memory"),
    }
}

/// Ends the test unless the next event has this position, worker and serial, and these bytes.
pub(crate) fn is_next<R: Wait + Abort>(
    rt: &R,
    ring: &SharedRing,
    consumer: &mut ConsumerSeat,
    event: (u64, u32, u64, &[u8]),
)
    requires { consumer.old.ring ≡ ring.now.ring }
    ensures { IsSameChapterConsumer consumer.old consumer.new }
{
    match ring.take(rt, consumer) {
        Ok(Taken::Event(pos, worker, serial, sheet)) => {
            same(rt, &(pos, worker, serial, sheet.bytes()), &event);
        }
        _ => rt.panic("no event"),
    }
}

/// Reserves a record, fills it and submits it, over any helpers.
pub(crate) fn submit_filled<H: Helpers>(helpers: &mut H, ring: u32, n: u32, value: u8) -> bool
    requires room { 2 ≤ H.room_of helpers.old }
    requires ring { H.has_ring helpers.old ring ≡ true }
    ensures room { H.room_of helpers.old ≤ H.room_of helpers.new + 2 }
{
    let Some(mut owned) = helpers.reserve(ring, n, 0) else {
        return false;
    };
    owned.bytes_mut().fill(value);
    helpers.submit(owned, 0).is_ok()
}

/// Returns the length of a sheet, if there is one.
pub(crate) fn len_of(sheet: Option<Sheet>) -> Option<u32> {
    match sheet {
        Some(sheet) => Some(sheet.len()),
        None => None,
    }
}

/// Returns how many records a seat made, was refused, submitted and discarded.
pub(crate) fn counts(seat: &Seat) -> (u64, u64, u64, u64) {
    (
        seat.made(),
        seat.refused(),
        seat.submitted(),
        seat.discarded(),
    )
}
