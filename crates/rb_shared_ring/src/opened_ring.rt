//! Opening a shared ring, with a seat for each worker and one for the consumer.

ghost use Rattle.std.specs.Prelude.{◌≡◌, ◌↔◌, IfOk, IsErrOf};
ghost use Rattle.rb_history.specs.RingModel.{IsRingSize, IsStartPosition, IsWorkerCount};
ghost use Rattle.rb_chapter_ring.specs.Chapters.{IsChapterRoom};
ghost use Rattle.rb_ledger.specs.Seats.{fresh_book, fresh_seats};
ghost use Rattle.rb_ledger.specs.ChapterSeats.{fresh_chapter_consumer};

use crate::batch_flag::BatchFlag;
use crate::consumer_seat::{ConsumerSeat, new_consumer};
use crate::lock::{new_lock, put_first};
use crate::shared::SharedRing;
use crate::worker_seat::{Seat, new_seat};
use rb_chapter_ring::{OpenFault, RingState};
use std::alloc::Global;
use std::sync::Wait;

/// Opens a shared ring for 1 to 256 workers. Returns the ring, a seat for each worker in the order of their numbers,
/// whose four hands are free, and the consumer's seat.
///
/// Each chapter of the ring's history has room for `room` entries, 8 to 1,048,576. The tag is chosen by the caller to
/// identify the ring, and all seats have it. Returns the first `OpenFault` that applies; `Memory` is the last.
/// Allocates all memory that the ring and its seats will ever need.
pub fn open<R: Wait>(
    rt: &R,
    alloc: Global,
    tag: u64,
    size: u64,
    start: u64,
    workers: u32,
    room: u32,
) -> Result<(SharedRing, Vec<Seat>, ConsumerSeat), OpenFault>
    ensures tag { IfOk result (λ o. o.0.tag ≡ tag) }
    ensures seats { IfOk result (λ o. o.1.items ≡ fresh_seats tag o.0.ring room (fresh_book size start workers) 0 workers) }
    ensures consumer { IfOk result (λ o. o.2 ≡ fresh_chapter_consumer tag o.0.ring room (fresh_book size start workers)) }
    ensures size { IsErrOf result OpenFault.Size ↔ ¬ IsRingSize size }
    ensures start { IsErrOf result OpenFault.Start ↔ (IsRingSize size × ¬ IsStartPosition start) }
    ensures workers { IsErrOf result OpenFault.Workers ↔ (IsRingSize size × IsStartPosition start × ¬ IsWorkerCount workers) }
    ensures chapter { IsErrOf result OpenFault.Chapter ↔ (IsRingSize size × IsStartPosition start × IsWorkerCount workers × ¬ IsChapterRoom room) }
{
    let state = RingState::new(alloc, tag, size, start, workers, room)?;
    state.facts();
    let Ok((lock, mut pass)) = new_lock(alloc) else {
        return Err(OpenFault::Memory);
    };
    let Ok(state) = Box::new(alloc, state) else {
        return Err(OpenFault::Memory);
    };
    put_first(rt, &lock, &mut pass, state);
    let consumer = new_consumer(&lock, &mut pass, tag, size, workers, start, room);
    let mut seats = Vec::new(alloc);
    for worker in 0..workers {
        let seat = new_seat(&lock, &mut pass, tag, worker);
        let Ok(()) = seats.push(seat) else {
            return Err(OpenFault::Memory);
        };
    }
    let batch = BatchFlag::new();
    Ok((SharedRing { tag, lock, batch }, seats, consumer))
}
