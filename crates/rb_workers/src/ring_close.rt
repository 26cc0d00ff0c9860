//! Closing the rings after all workers have ended.

ghost use Rattle.std.specs.Prelude.{◌≡◌, ◌≤◌, [], All, length, map, vec_capacity, vec_len};
ghost use Rattle.std.specs.List.{AllZip};
ghost use Rattle.rb_workers.specs.inner.RunBuffers.{IsEmptyFor};
ghost use Rattle.rb_workers.specs.Opened.{AreOpened, IsOpened, workers_of};
ghost use Rattle.rb_workers.specs.inner.ConsumerTasks.{joined_ring, joined_rings};
ghost use Rattle.rb_workers.specs.inner.RingEnds.{Closes};

use crate::consumer_task::ConsumerTask;
use crate::opened::Ended;
use crate::sink::Sink;
use rb_history::Tally;
use rb_shared_ring::{Seat, SharedRing};
use std::sync::Wait;

// Returns a seat's counts.
fn tally_of(seat: &Seat) -> Tally
    ensures { result ≡ seat.now.tally }
{
    Tally {
        made: seat.made(),
        refused: seat.refused(),
        submitted: seat.submitted(),
        discarded: seat.discarded(),
    }
}

// Returns the counts of the seats, in their order.
fn tallies_of(seats: &[Seat], mut row: Vec<Tally>) -> Vec<Tally>
    requires row { IsEmptyFor (length seats.now) row }
    ensures { result.items ≡ map (λ s. s.tally) seats.now }
{
    for seat in seats {
        row.push_reserved(tally_of(seat));
    }
    row
}

// Closes a ring to whose consumer task all its seats were returned.
fn close_one<R: Wait, S: Sink>(
    rt: &R,
    ring: SharedRing,
    task: ConsumerTask<S>,
    row: Vec<Tally>,
) -> Ended<S>
    requires opened { IsOpened S.position_of (length task.returned_seats.items) (joined_ring ring task) }
    requires row { IsEmptyFor (length task.returned_seats.items) row }
    ensures closes { Closes (joined_ring ring task) result }
{
    let ConsumerTask {
        consumer,
        keeper,
        sink,
        returned_seats,
        batch: _,
    } = task;
    let tallies = tallies_of(&returned_seats, row);
    match ring.close(rt, returned_seats, consumer) {
        Ok(closing) => Ended {
            closing,
            tallies,
            keeper,
            sink,
        },
        Err(_) => unreachable!(),
    }
}

/// Closes all rings, each with a row for its counts.
pub fn close_all<R: Wait, S: Sink + Drop>(
    rt: &R,
    mut rings: Vec<SharedRing>,
    mut consumers: Vec<ConsumerTask<S>>,
    mut tallies: Vec<Vec<Tally>>,
    mut ended: Vec<Ended<S>>,
) -> Vec<Ended<S>>
    requires len { vec_len consumers ≡ vec_len rings }
    requires opened { AreOpened S.position_of (joined_rings rings.items consumers.items) }
    requires tallies { (vec_len tallies ≡ vec_len rings) × All (IsEmptyFor (workers_of (joined_rings rings.items consumers.items))) tallies.items }
    requires ended { (ended.items ≡ []) × (vec_len rings ≤ vec_capacity ended) }
    ensures closes { AllZip Closes (joined_rings rings.items consumers.items) result.items }
{
    while let Some(task) = consumers.pop() {
        let Some(ring) = rings.pop() else {
            unreachable!()
        };
        let Some(row) = tallies.pop() else {
            unreachable!()
        };
        ended.push_reserved(close_one(rt, ring, task, row));
    }
    ended.reverse();
    ended
}
