//! Worked helper calls over the seats of two rings of 4,096 bytes, whose chapters have room for 8 entries.

ghost use Rattle.std.specs.Prelude.{◌≡◌, ◌+◌, ◌≤◌, ◌<◌, true};
ghost use Rattle.rb_jobs.specs.SeatHelpers.{IsAt, has_number};

use super::expected::same;
use super::shared::{counts, helpers, is_next, len_of, one_seat, opened, submit_filled, two_seats};
use rb_chapter_ring::RingRecord;
use rb_interp::{Done, EAGAIN, EINVAL, Helpers};
use rb_jobs::{NoStock, OpenGate, SeatHelpers, Stock};
use rb_lend::{Lent, Sheet};
use rb_shared_ring::{Seat, SharedRing};
use std::alloc::Global;
use std::cell::Cell;
use std::process::Abort;
use std::sync::Wait;

/// A stock that keeps one sheet.
#[derive(Drop)]
struct OneSheet {
    kept: Cell<Option<Sheet>>,
}

impl Stock for OneSheet {
    fn used(&self) -> Option<Sheet> {
        self.kept.take()
    }

    fn put(&self, sheet: Sheet) -> Option<Sheet> {
        match self.kept.take() {
            Some(kept) => {
                self.kept.set(Some(kept));
                Some(sheet)
            }
            None => {
                self.kept.set(Some(sheet));
                None
            }
        }
    }
}

// Returns the counts of the first seat of these helpers.
fn first_counts<R: Wait>(
    helpers: SeatHelpers<'_, R, NoStock, OpenGate>,
) -> Option<(u64, u64, u64, u64)> {
    counts_of(helpers.into_seats()).0
}

// Returns the counts of the first seat, and those of the last.
fn counts_of(seats: Vec<Seat>) -> (Option<(u64, u64, u64, u64)>, Option<(u64, u64, u64, u64)>) {
    (seats.first().map(counts), seats.last().map(counts))
}

#[test]
fn a_submitted_record_reaches_its_ring_alone(rt: HostRuntime) {
    let (first, one, _) = opened(&rt, rt.alloc(), 0, 8);
    let (second, two, mut consumer) = opened(&rt, rt.alloc(), 1, 8);
    let rings = [first, second];
    let seats = two_seats(&rt, rt.alloc(), one, two);
    let mut helpers = helpers(&rt, rt.alloc(), &rings, seats, 2, &NoStock);
    let before = helpers.room();
    let is_submitted = submit_filled(&mut helpers, 1, 8, 42);
    let after = (helpers.room(), helpers.unlogged());
    same(&rt, &(before, is_submitted, after), &(2, true, (0, 0)));
    same(&rt, &helpers.trace(), &SUBMITTED_TO_SECOND.as_slice());
    same(
        &rt,
        &counts_of(helpers.into_seats()),
        &(Some((0, 0, 0, 0)), Some((1, 0, 1, 0))),
    );
    is_next(&rt, &rings[1], &mut consumer, (0, 0, 0, &[42; 8]));
    drop((rings, consumer));
}

const SUBMITTED_TO_SECOND: [Done; 2] = [
    Done::Reserve {
        ring: 1,
        len: 8,
        flags: 0,
        granted: true,
    },
    Done::Submit {
        flags: 0,
        taken: true,
    },
];

// Returns the answers of an output and four queries.
fn output_and_queries<H: Helpers>(helpers: &mut H) -> (i64, [u64; 4])
    requires room { 5 ≤ H.room_of helpers.old }
    requires ring { H.has_ring helpers.old 0 ≡ true }
{
    let output = helpers.output(0, [5, 6].as_slice(), 0);
    let told = [
        helpers.query(0, 0),
        helpers.query(0, 1),
        helpers.query(0, 2),
        helpers.query(0, 9),
    ];
    (output, told)
}

#[test]
fn outputs_and_queries_are_answered(rt: HostRuntime) {
    let (ring, seat, mut consumer) = opened(&rt, rt.alloc(), 0, 8);
    let rings = [ring];
    let seats = one_seat(&rt, rt.alloc(), seat);
    let mut helpers = helpers(&rt, rt.alloc(), &rings, seats, 5, &NoStock);
    let answers = output_and_queries(&mut helpers);
    same(
        &rt,
        &(answers, helpers.unlogged()),
        &((0, [16, 4096, 0, 0]), 0),
    );
    let counts = first_counts(helpers);
    same(&rt, &counts, &Some((1, 0, 1, 0)));
    is_next(&rt, &rings[0], &mut consumer, (0, 0, 0, &[5, 6]));
    drop((rings, consumer));
}

// Returns the answers of calls with bad flags and the ring's producer position after them; and the same for an output
// with good ones.
fn bad_and_good_flags<H: Helpers>(helpers: &mut H) -> ((i64, bool, u64), (i64, u64))
    requires room { 5 ≤ H.room_of helpers.old }
    requires ring { H.has_ring helpers.old 0 ≡ true }
{
    let output = helpers.output(0, [5, 6].as_slice(), 4);
    let is_null = helpers.reserve(0, 8, 1).is_none();
    let before = helpers.query(0, 3);
    let good = helpers.output(0, [5, 6].as_slice(), 3);
    ((output, is_null, before), (good, helpers.query(0, 3)))
}

#[test]
fn bad_flags_make_no_step_of_the_ring(rt: HostRuntime) {
    let (ring, seat, _) = opened(&rt, rt.alloc(), 0, 8);
    let rings = [ring];
    let seats = one_seat(&rt, rt.alloc(), seat);
    let mut helpers = helpers(&rt, rt.alloc(), &rings, seats, 5, &NoStock);
    let answers = bad_and_good_flags(&mut helpers);
    same(
        &rt,
        &(answers, helpers.unlogged()),
        &(((-EINVAL, true, 0), (0, 16)), 0),
    );
    let counts = first_counts(helpers);
    same(&rt, &counts, &Some((1, 0, 1, 0)));
    drop(rings);
}

// Whether a record of this many bytes is granted.
fn is_granted<H: Helpers>(helpers: &mut H, n: u32) -> bool
    requires room { 0 < H.room_of helpers.old }
    requires ring { H.has_ring helpers.old 0 ≡ true }
    ensures room { H.room_of helpers.new + 1 ≡ H.room_of helpers.old }
    ensures ring { H.has_ring helpers.new 0 ≡ true }
{
    helpers.reserve(0, n, 0).is_some()
}

// Returns more bytes than a ring has room for.
fn too_many_bytes(rt: &impl Abort, alloc: Global) -> Vec<u8> {
    vec![in alloc; 7; 4081].expect(rt, "memory")
}

#[test]
fn a_full_ring_is_refused_in_the_history(rt: HostRuntime) {
    let (ring, seat, _) = opened(&rt, rt.alloc(), 0, 8);
    let rings = [ring];
    let seats = one_seat(&rt, rt.alloc(), seat);
    let mut helpers = helpers(&rt, rt.alloc(), &rings, seats, 3, &NoStock);
    let bytes = too_many_bytes(&rt, rt.alloc());
    let output = helpers.output(0, bytes.as_slice(), 0);
    let granted = [
        is_granted(&mut helpers, 4081),
        is_granted(&mut helpers, 4080),
    ];
    same(
        &rt,
        &(output, granted, helpers.unlogged()),
        &(-EAGAIN, [false, true], 0),
    );
    let counts = first_counts(helpers);
    same(&rt, &counts, &Some((1, 2, 0, 0)));
    drop(rings);
}

#[test]
fn a_full_chapter_is_unlogged(rt: HostRuntime) {
    let (ring, seat, mut consumer) = opened(&rt, rt.alloc(), 0, 8);
    let rings = [ring];
    let seats = one_seat(&rt, rt.alloc(), seat);
    let mut helpers = helpers(&rt, rt.alloc(), &rings, seats, 5, &NoStock);
    let granted = [is_granted(&mut helpers, 8), is_granted(&mut helpers, 8)];
    let used = rings[0].used(&rt, &mut consumer);
    same(&rt, &(granted, used), &([true, true], Ok((2, 4))));
    let third = (is_granted(&mut helpers, 8), helpers.unlogged());
    let wide = (is_granted(&mut helpers, 5000), helpers.unlogged());
    let used = rings[0].used(&rt, &mut consumer);
    same(
        &rt,
        &(third, wide, used),
        &((false, 1), (false, 1), Ok((3, 4))),
    );
    let output = helpers.output(0, [5, 6].as_slice(), 0);
    same(&rt, &(output, helpers.unlogged()), &(-EAGAIN, 2));
    let counts = first_counts(helpers);
    same(&rt, &counts, &Some((2, 1, 0, 0)));
    drop((rings, consumer));
}

// Drops a record of eight bytes that was granted at the seat. Its hand stays out.
fn drop_one<R: Wait + Abort>(rt: &R, alloc: Global, ring: &SharedRing, seat: &mut Seat)
    requires { IsAt ring.now seat.old }
    ensures { IsAt ring.now seat.new }
{
    let sheet = Sheet::new(alloc, 8).expect(rt, "memory");
    let is_granted = ring.reserve(rt, seat, 8, sheet).is_ok();
    same(rt, &is_granted, &true);
}

#[test]
fn a_seat_with_all_hands_out_is_granted_none_and_outputs(rt: HostRuntime) {
    let (ring, mut seat, mut consumer) = opened(&rt, rt.alloc(), 0, 64);
    drop_one(&rt, rt.alloc(), &ring, &mut seat);
    let rings = [ring];
    let seats = one_seat(&rt, rt.alloc(), seat);
    let mut helpers = helpers(&rt, rt.alloc(), &rings, seats, 5, &NoStock);
    let granted = [
        is_granted(&mut helpers, 8),
        is_granted(&mut helpers, 8),
        is_granted(&mut helpers, 8),
    ];
    let used = rings[0].used(&rt, &mut consumer);
    same(
        &rt,
        &(granted, helpers.unlogged(), used),
        &([true, true, true], 0, Ok((4, 8))),
    );
    let fourth = (is_granted(&mut helpers, 8), helpers.unlogged());
    let used = rings[0].used(&rt, &mut consumer);
    same(&rt, &(fourth, used), &((false, 1), Ok((4, 8))));
    let output = helpers.output(0, [5, 6].as_slice(), 0);
    same(&rt, &(output, helpers.unlogged()), &(0, 1));
    let counts = first_counts(helpers);
    same(&rt, &counts, &Some((5, 0, 1, 0)));
    drop((rings, consumer));
}

// Returns the record with another ring's number.
fn renumbered(record: RingRecord, ring: u32) -> RingRecord {
    let RingRecord {
        ring: _,
        reservation,
    } = record;
    RingRecord { ring, reservation }
}

// Reserves a record at ring 1, submits and discards it at ring 2, which does not exist, submits it at ring 0, and
// discards it at its own ring. Returns the ring's number in the record, that in the record that is handed back first, and
// whether the record is discarded in the end.
fn hand_round<R: Wait + Abort>(
    rt: &R,
    helpers: &mut SeatHelpers<'_, R, NoStock, OpenGate>,
) -> (u32, u32, bool)
    requires room { 5 ≤ helpers.old.room }
    requires ring { has_number helpers.old 1 ≡ true }
{
    let record = helpers.reserve(1, 8, 0).expect(rt, "a record");
    let own = record.ring;
    let at_none = helpers.submit(renumbered(record, 2), 0);
    let back = at_none.expect_err(rt, "submitted to no ring");
    let none = back.ring;
    let at_none = helpers.discard(back, 0);
    let back = at_none.expect_err(rt, "discarded at no ring");
    let at_another = helpers.submit(renumbered(back, 0), 0);
    let back = at_another.expect_err(rt, "submitted to another ring");
    (own, none, helpers.discard(renumbered(back, 1), 0).is_ok())
}

#[test]
fn a_record_of_no_ring_or_of_another_is_handed_back(rt: HostRuntime) {
    let (first, one, _) = opened(&rt, rt.alloc(), 0, 8);
    let (second, two, _) = opened(&rt, rt.alloc(), 1, 8);
    let rings = [first, second];
    let seats = two_seats(&rt, rt.alloc(), one, two);
    let mut helpers = helpers(&rt, rt.alloc(), &rings, seats, 5, &NoStock);
    let told = hand_round(&rt, &mut helpers);
    same(&rt, &told, &(1, 2, true));
    same(
        &rt,
        &counts_of(helpers.into_seats()),
        &(Some((0, 0, 0, 0)), Some((1, 0, 0, 1))),
    );
    drop(rings);
}

// Returns a stock with a sheet of 24 bytes that was written to.
fn one_sheet(rt: &impl Abort, alloc: Global) -> OneSheet {
    let mut used = Sheet::new(alloc, 24).expect(rt, "memory");
    used.bytes_mut().fill(9);
    OneSheet {
        kept: Cell::new(Some(used)),
    }
}

// Ends the test unless a record of 17 zero bytes is granted.
fn grants_zeros<H: Helpers>(rt: &impl Abort, helpers: &mut H)
    requires room { 0 < H.room_of helpers.old }
    requires ring { H.has_ring helpers.old 0 ≡ true }
    ensures room { H.room_of helpers.new + 1 ≡ H.room_of helpers.old }
    ensures ring { H.has_ring helpers.new 0 ≡ true }
{
    let owned = helpers.reserve(0, 17, 0).expect(rt, "null");
    same(rt, &owned.bytes(), &[0; 17].as_slice());
}

#[test]
fn a_sheet_of_the_stock_is_used_again(rt: HostRuntime) {
    let (ring, seat, _) = opened(&rt, rt.alloc(), 0, 8);
    let rings = [ring];
    let seats = one_seat(&rt, rt.alloc(), seat);
    let stock = one_sheet(&rt, rt.alloc());
    let mut helpers = helpers(&rt, rt.alloc(), &rings, seats, 3, &stock);
    grants_zeros(&rt, &mut helpers);
    let used = len_of(stock.kept.take());
    let is_wide_granted = is_granted(&mut helpers, 4081);
    same(
        &rt,
        &(used, is_wide_granted, len_of(stock.kept.take())),
        &(None, false, Some(4081)),
    );
    drop(helpers);
    drop((rings, stock));
}

#[test]
fn no_stock_keeps_no_sheet(rt: HostRuntime) {
    let used = len_of(NoStock.used());
    let sheet = Sheet::new(rt.alloc(), 3).expect(&rt, "memory");
    same(&rt, &(used, len_of(NoStock.put(sheet))), &(None, Some(3)));
}
