//! Looks at the rings before a turn.

ghost use Rattle.std.specs.Prelude.{◌≡◌, length};
ghost use Rattle.rb_jobs.specs.SeatHelpers.{AtRings, IsAt};
ghost use Rattle.rb_stream_worker.specs.Turns.{FindsRoom, FindsRoomInEach};
ghost use Rattle.rb_stream_worker.specs.inner.Looks.{LooksAt};

use rb_dealing::Idle;
use rb_history::AVAIL_DATA;
use rb_shared_ring::{Seat, SharedRing};
use std::sync::Wait;

// Queries a ring for its untaken bytes.
fn look<R: Wait>(rt: &R, ring: &SharedRing, seat: &mut Seat) -> u64
    requires at { IsAt ring.now seat.old }
    ensures looked { LooksAt result seat.old seat.new }
{
    match ring.query(rt, seat, AVAIL_DATA) {
        Ok(untaken) => untaken,
        Err(_) => unreachable!(),
    }
}

// Queries a ring for its untaken bytes until they are within the limit. It never sleeps without a timeout.
fn wait_for_room<R: Wait>(rt: &R, ring: &SharedRing, seat: &mut Seat, limit: u64)
    requires at { IsAt ring.now seat.old }
    ensures found { FindsRoom limit seat.old seat.new }
{
    let mut idle = Idle::new();
    for _ in rt.forever() {
        if look(rt, ring, seat) <= limit {
            return;
        }
        idle.wait(rt);
    }
    unreachable!()
}

/// Waits for room in each ring, one ring after another.
pub(crate) fn wait_for_all<R: Wait>(
    rt: &R,
    rings: &[SharedRing],
    seats: &mut [Seat],
    limits: &[u64],
)
    requires at_rings { AtRings rings.now seats.old }
    requires limits { length limits.now ≡ length rings.now }
    ensures found { FindsRoomInEach limits.now seats.old seats.new }
{
    for at in 0..rings.len() {
        wait_for_room(rt, &rings[at], &mut seats[at], limits[at]);
    }
}
