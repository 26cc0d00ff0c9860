//! A worker, which makes records by pseudorandom numbers.

ghost use Rattle.std.specs.Prelude.{◌≡◌, ◌<◌};
ghost use Rattle.rb_ledger.specs.Seats.{IsSameSeat};

use super::bytes::write;
use super::draw::Draw;
use super::plan::SoakPlan;
use rb_for_tests::{Producer, output, sheet};
use rb_lend::Lent;
use rb_shared_ring::{Reservation, Seat, SharedRing, WaitBackoff};
use std::alloc::Global;
use std::sync::Wait;

/// Makes the steps of a plan.
#[derive(Clone, Copy)]
pub(crate) struct Steps {
    pub(crate) alloc: Global,
    pub(crate) plan: SoakPlan,
}

impl Producer for Steps {
    ghost is_done = { λ steps seat. Unit {0} };

    fn produce<R: Wait>(&self, rt: &R, ring: &SharedRing, seat: &mut Seat) {
        let mut draw = Draw::new(self.plan.seed, seat.tag(), seat.worker());
        for _ in 0..self.plan.steps {
            let (kind, number) = (draw.next(), draw.next());
            step(rt, self.alloc, ring, seat, kind, number);
        }
    }
}

// Makes one step: an output, or a record that is reserved, written and submitted or discarded, or two records that are
// held at once.
fn step<R: Wait>(rt: &R, alloc: Global, ring: &SharedRing, seat: &mut Seat, kind: u32, number: u32)
    requires { seat.old.ring ≡ ring.now.ring }
    ensures { IsSameSeat seat.old seat.new }
{
    let n = length_of(number);
    if kind % 8 < 3 {
        output_one(rt, alloc, ring, seat, n, kind >> 8);
    } else if kind % 8 < 7 {
        let record = reserved(rt, alloc, ring, seat, n);
        finish(rt, ring, seat, record, kind >> 8);
    } else {
        hold_two(rt, alloc, ring, seat, n, kind >> 8);
    }
}

// Returns a length: one of sixteen is up to 1,023 bytes, the others are up to 63.
fn length_of(number: u32) -> u32
    ensures { result < 1024 }
{
    if number % 16 == 0 {
        (number >> 4) % 1024
    } else {
        (number >> 4) % 64
    }
}

// Outputs one record, and retries until there is room.
fn output_one<R: Wait>(
    rt: &R,
    alloc: Global,
    ring: &SharedRing,
    seat: &mut Seat,
    n: u32,
    flags: u32,
)
    requires { seat.old.ring ≡ ring.now.ring }
    ensures { IsSameSeat seat.old seat.new }
{
    let mut record = sheet(rt, alloc, n);
    write(record.bytes_mut(), seat.worker(), seat.made());
    output(rt, ring, seat, record, u64::from(flags % 4));
}

// Reserves a record, and retries until there is room.
fn reserved<R: Wait>(
    rt: &R,
    alloc: Global,
    ring: &SharedRing,
    seat: &mut Seat,
    n: u32,
) -> Reservation
    requires { seat.old.ring ≡ ring.now.ring }
    ensures { IsSameSeat seat.old seat.new }
{
    let mut backoff = WaitBackoff::new();
    for _ in rt.forever() {
        if let Some(record) = reserved_at_once(rt, alloc, ring, seat, n) {
            return record;
        }
        backoff.wait();
    }
    unreachable!()
}

// Reserves a record if there is room.
fn reserved_at_once<R: Wait>(
    rt: &R,
    alloc: Global,
    ring: &SharedRing,
    seat: &mut Seat,
    n: u32,
) -> Option<Reservation>
    requires { seat.old.ring ≡ ring.now.ring }
    ensures { IsSameSeat seat.old seat.new }
{
    match ring.reserve(rt, seat, n, sheet(rt, alloc, n)) {
        Ok(record) => Some(record),
        Err(_) => None,
    }
}

// Reserves a record, and if there is room a second one, which it finishes first.
fn hold_two<R: Wait>(rt: &R, alloc: Global, ring: &SharedRing, seat: &mut Seat, n: u32, choice: u32)
    requires { seat.old.ring ≡ ring.now.ring }
    ensures { IsSameSeat seat.old seat.new }
{
    let first = reserved(rt, alloc, ring, seat, n);
    if let Some(second) = reserved_at_once(rt, alloc, ring, seat, n / 2) {
        finish(rt, ring, seat, second, choice >> 4);
    }
    finish(rt, ring, seat, first, choice);
}

// Discards one of four records, and writes and submits the others. A record that is handed back would stay busy.
fn finish<R: Wait>(rt: &R, ring: &SharedRing, seat: &mut Seat, record: Reservation, choice: u32)
    requires { seat.old.ring ≡ ring.now.ring }
    ensures { IsSameSeat seat.old seat.new }
{
    let flags = u64::from(choice / 4 % 4);
    if choice % 4 == 0 {
        let _answer = ring.discard(rt, seat, record, flags);
    } else {
        let written = written(record);
        let _answer = ring.submit(rt, seat, written, flags);
    }
}

// Returns the record after its bytes were written.
fn written(mut record: Reservation) -> Reservation {
    let (worker, serial) = (record.worker(), record.serial());
    write(record.bytes_mut(), worker, serial);
    record
}
