//! Distributing a ring's seats to the workers before the run, and returning them after it.

ghost use Rattle.std.specs.Prelude.{ℕ, ◌≡◌, ◌<◌, ◌≤◌, [], All, length, map, slice_index_or, vec_capacity, vec_len};
ghost use Rattle.std.specs.List.{AllZip};
ghost use Rattle.rb_workers.specs.SeatRows.{worker_column, seat_rows};
ghost use Rattle.rb_workers.specs.inner.WorkerRuns.{HasSpareSeat, IsOneMore, IsNew, HasSeats};
ghost use Rattle.rb_workers.specs.inner.ConsumerTasks.{HasSameParts, IsSplitOff, joined_rings, returned_rows};

use crate::consumer_task::ConsumerTask;
use crate::opened::Opened;
use crate::workers::Worker;
use rb_consumer::Batch;
use rb_shared_ring::{Seat, SharedRing};

// Gives a ring's seats to the workers, one to each.
fn distribute_ring(returned_seats: &mut Vec<Seat>, workers: &mut [Worker])
    requires len { length returned_seats.old.items ≡ length workers.old }
    requires room { (k : ℕ) (d : _) → k < length workers.old → HasSpareSeat (slice_index_or workers.old k d) }
    ensures returned_seats { (returned_seats.new.items ≡ []) × (vec_capacity returned_seats.new ≡ vec_capacity returned_seats.old) }
    ensures one_more { (k : ℕ) (d : _) (s : _) → k < length workers.old → IsOneMore (slice_index_or workers.old k d) (slice_index_or workers.new k d) (slice_index_or returned_seats.old.items k s) }
{
    let mut at = workers.len();
    while let Some(seat) = returned_seats.pop() {
        at -= 1;
        workers[at].add_seat(seat);
    }
}

// Takes a ring's seats back, one from each worker.
fn return_ring(workers: &mut [Worker], returned_seats: &mut Vec<Seat>)
    requires returned_seats { returned_seats.old.items ≡ [] }
    requires room { length workers.old ≤ vec_capacity returned_seats.old }
    requires some { (k : ℕ) (d : _) → k < length workers.old → 0 < vec_len (slice_index_or workers.old k d).seats }
    ensures len { length returned_seats.new.items ≡ length workers.old }
    ensures one_less { (k : ℕ) (d : _) (s : _) → k < length workers.old → IsOneMore (slice_index_or workers.new k d) (slice_index_or workers.old k d) (slice_index_or returned_seats.new.items k s) }
{
    for at in 0..workers.len() {
        let seat = workers[at].remove_seat();
        returned_seats.push_reserved(seat);
    }
}

/// Splits the rings into what all threads share, what each ring's thread owns (including a batch), and each worker's
/// seats.
pub fn split<S: Drop>(
    opened: Vec<Opened<S>>,
    rings: &mut Vec<SharedRing>,
    consumers: &mut Vec<ConsumerTask<S>>,
    mut batches: Vec<Batch>,
    workers: &mut [Worker],
)
    requires batches { vec_len batches ≡ vec_len opened }
    requires empty { (rings.old.items ≡ []) × (consumers.old.items ≡ []) }
    requires room { (vec_len opened ≤ vec_capacity rings.old) × (vec_len opened ≤ vec_capacity consumers.old) }
    requires seats { All (λ o. length o.seats.items ≡ length workers.old) opened.items }
    requires workers { (k : ℕ) (d : _) → k < length workers.old → IsNew k (vec_len opened) (slice_index_or workers.old k d) }
    ensures rings { rings.new.items ≡ map (λ o. o.ring) opened.items }
    ensures consumers { AllZip IsSplitOff opened.items consumers.new.items }
    ensures workers { (k : ℕ) (d : _) → k < length workers.old → HasSeats (slice_index_or workers.old k d) (worker_column k (seat_rows opened.items)) (slice_index_or workers.new k d) }
{
    for one in opened {
        let Opened {
            ring,
            mut seats,
            consumer,
            keeper,
            sink,
        } = one;
        let Some(batch) = batches.pop() else {
            unreachable!()
        };
        distribute_ring(&mut seats, workers);
        rings.push_reserved(ring);
        consumers.push_reserved(ConsumerTask {
            consumer,
            keeper,
            sink,
            returned_seats: seats,
            batch,
        });
    }
}

/// Returns the seats of each ring to the ring's consumer task.
pub fn return_seats<S: Drop>(workers: &mut [Worker], consumers: &mut [ConsumerTask<S>])
    requires returned_seats { All (λ t. (t.returned_seats.items ≡ []) × (length workers.old ≤ vec_capacity t.returned_seats)) consumers.old }
    requires workers { (k : ℕ) (d : _) → k < length workers.old → length (slice_index_or workers.old k d).seats.items ≡ length consumers.old }
    ensures consumers { AllZip HasSameParts consumers.old consumers.new }
    ensures seats { All (λ t. length t.returned_seats.items ≡ length workers.old) consumers.new }
    ensures workers { (k : ℕ) (d : _) → k < length workers.old → HasSeats (slice_index_or workers.new k d) (worker_column k (returned_rows consumers.new)) (slice_index_or workers.old k d) }
{
    let mut at = consumers.len();
    while at > 0 {
        at -= 1;
        return_ring(workers, &mut consumers[at].returned_seats);
    }
}

/// Merges the parts into rings again. The seats were returned to the consumer tasks before.
pub fn merge<S: Drop>(
    mut rings: Vec<SharedRing>,
    mut consumers: Vec<ConsumerTask<S>>,
    mut merged: Vec<Opened<S>>,
) -> Vec<Opened<S>>
    requires len { vec_len consumers ≡ vec_len rings }
    requires merged { (merged.items ≡ []) × (vec_len rings ≤ vec_capacity merged) }
    ensures merged { result.items ≡ joined_rings rings.items consumers.items }
{
    while let Some(task) = consumers.pop() {
        let Some(ring) = rings.pop() else {
            unreachable!()
        };
        merged.push_reserved(Opened {
            ring,
            seats: task.returned_seats,
            consumer: task.consumer,
            keeper: task.keeper,
            sink: task.sink,
        });
    }
    merged.reverse();
    merged
}
