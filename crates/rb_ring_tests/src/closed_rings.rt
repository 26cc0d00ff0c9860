//! What a caller may conclude from a closed ring.

ghost use Rattle.std.specs.Prelude.{◌≡◌, All};
ghost use Rattle.rb_history.specs.Counting.{counts_of};
ghost use Rattle.rb_ledger.specs.Seats.{HasSettledAll, IsSameSeat};
ghost use Rattle.rb_ledger.specs.ChapteredRing.{chaptered_ring, whole_of};

use super::expected::same;
use super::rings_with_seats::{discarded, granted, output, submitted, two_seats};
use rb_ledger::numbers_agree;
use rb_shared_ring::{Closing, ConsumerSeat, Seat, SharedRing};
use std::alloc::Global;
use std::process::Abort;
use std::sync::Wait;

/// Closes a ring with all its seats. If all of them have settled, no record of the whole history is busy.
pub(super) fn closed<R: Wait + Abort>(
    rt: &R,
    ring: SharedRing,
    seats: Vec<Seat>,
    consumer: ConsumerSeat,
) -> Closing
    requires seats { All (λ s. s.ring ≡ ring.ring) seats.items }
    requires consumer { consumer.ring ≡ ring.ring }
    ensures none_busy { All HasSettledAll seats.items → (counts_of (whole_of (chaptered_ring consumer.handed_out result.at_end)).history).busy ≡ 0 }
{
    numbers_agree();
    match ring.close(rt, seats, consumer) {
        Ok(closing) => closing,
        Err(_) => rt.panic("not closed"),
    }
}

// Returns how many records a seat made, submitted and discarded.
fn counts_of_seat(seat: &Seat) -> (u64, u64, u64) {
    (seat.made(), seat.submitted(), seat.discarded())
}

// Lets the first seat output a record, and the second submit one after one that it discards.
fn settle<R: Wait + Abort>(
    rt: &R,
    alloc: Global,
    ring: &SharedRing,
    zero: &mut Seat,
    one: &mut Seat,
)
    requires rings { (zero.old.ring ≡ ring.now.ring) × (one.old.ring ≡ ring.now.ring) }
    ensures zero { IsSameSeat zero.old zero.new }
    ensures one { IsSameSeat one.old one.new }
{
    output(rt, alloc, ring, zero, 8, 1);
    let first = granted(rt, alloc, ring, one, 24);
    let second = granted(rt, alloc, ring, one, 8);
    submitted(rt, ring, one, second, 0);
    discarded(rt, ring, one, first);
}

// Closes a ring with both its seats. Returns its counts: made, busy, waiting, consumed and discarded.
fn closed_counts<R: Wait + Abort>(
    rt: &R,
    alloc: Global,
    ring: SharedRing,
    zero: Seat,
    one: Seat,
    consumer: ConsumerSeat,
) -> (u64, u64, u64, u64, u64)
    requires seats { (zero.ring ≡ ring.ring) × (one.ring ≡ ring.ring) }
    requires consumer { consumer.ring ≡ ring.ring }
{
    let seats = vec![in alloc; zero, one].expect(rt, "memory");
    let counts = closed(rt, ring, seats, consumer).counts();
    (
        counts.made,
        counts.busy,
        counts.waiting,
        counts.consumed,
        counts.discarded,
    )
}

#[test]
fn seats_that_settled_all_leave_none_busy(rt: HostRuntime) {
    let (ring, mut zero, mut one, consumer) = two_seats(&rt, rt.alloc(), 6);
    settle(&rt, rt.alloc(), &ring, &mut zero, &mut one);
    same(
        &rt,
        &[counts_of_seat(&zero), counts_of_seat(&one)],
        &[(1, 1, 0), (2, 1, 1)],
    );
    let counts = closed_counts(&rt, rt.alloc(), ring, zero, one, consumer);
    same(&rt, &counts, &(3, 0, 2, 0, 1));
}
