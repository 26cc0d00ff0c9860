//! Taking what is left in the rings after all workers have ended.

ghost use Rattle.std.specs.Prelude.{◌≡◌, ◌↔◌, All, IsTrue};
ghost use Rattle.std.specs.List.{AllZip};
ghost use Rattle.rb_ledger.specs.Seats.{HasSettledAll, Shared, all_discarded, all_submitted};
ghost use Rattle.rb_workers.specs.Rest.{IsDrained};
ghost use Rattle.rb_workers.specs.inner.ConsumerTasks.{IsConsumerTaskOf, TakesRest, joined_ring, joined_rings};

use crate::consumer_task::{ConsumerTask, pass_batch};
use crate::sink::Sink;
use rb_consumer::Batch;
use rb_shared_ring::{Seat, SharedRing};
use std::sync::Wait;
use std::thread;

// Returns whether each of the seats has submitted or discarded every record that it made.
fn are_settled(seats: &[Seat]) -> bool
    ensures exact { IsTrue result ↔ All HasSettledAll seats.now }
{
    for seat in seats {
        if u128::from(seat.made()) != u128::from(seat.submitted()) + u128::from(seat.discarded()) {
            return false;
        }
    }
    true
}

// Returns whether these are the numbers of records that the seats submitted and discarded.
fn are_numbers_of(seats: &[Seat], consumed: u64, skipped: u64) -> bool
    ensures submitted { IsTrue result → consumed ≡ all_submitted seats.now }
    ensures discarded { IsTrue result → skipped ≡ all_discarded seats.now }
{
    let mut consumed = consumed;
    let mut skipped = skipped;
    for seat in seats {
        let submitted = seat.submitted();
        let discarded = seat.discarded();
        if submitted > consumed || discarded > skipped {
            return false;
        }
        consumed -= submitted;
        skipped -= discarded;
    }
    consumed == 0 && skipped == 0
}

// Returns whether the ring's consumer took every record that the seats made, or one of them is still busy.
fn is_drained<S>(task: &ConsumerTask<S>) -> bool
    ensures drained { (ring : Shared) → IsTrue result → IsDrained (joined_ring ring task.now) }
{
    !are_settled(&task.returned_seats)
        || are_numbers_of(
            &task.returned_seats,
            task.consumer.consumed(),
            task.consumer.skipped(),
        )
}

// Takes what is left in a ring whose workers have ended, up to the first busy record.
fn take_rest<R: Wait, S: Sink>(
    rt: &R,
    ring: &SharedRing,
    task: &mut ConsumerTask<S>,
    batch: &mut Batch,
)
    requires ready { IsConsumerTaskOf S.position_of ring.now task.old }
    ensures rest { TakesRest S.position_of S.takes (joined_ring ring.now task.old) (joined_ring ring.now task.new) }
{
    for _ in rt.forever() {
        let count = pass_batch(rt, ring, &mut task.consumer, &mut task.sink, batch);
        if count == 0 && is_drained(task) {
            return;
        }
        if count == 0 {
            thread::yield_now();
        }
    }
    unreachable!()
}

/// Takes what is left in the rings, whose workers have ended: from each ring, up to the first record that is still
/// busy.
pub fn take_rests<R: Wait, S: Sink>(
    rt: &R,
    rings: &[SharedRing],
    consumers: &mut [ConsumerTask<S>],
    batch: &mut Batch,
)
    requires ready { AllZip (IsConsumerTaskOf S.position_of) rings.now consumers.old }
    ensures rests { AllZip (TakesRest S.position_of S.takes) (joined_rings rings.now consumers.old) (joined_rings rings.now consumers.new) }
{
    for at in 0..consumers.len() {
        take_rest(rt, &rings[at], &mut consumers[at], batch);
    }
}
