//! Opened rings, and the reports on runs over them.

ghost use Rattle.std.specs.Prelude.{◌≡◌, ◌↔◌, All, IfOk, IsErrOf, false};
ghost use Rattle.rb_history.specs.RingModel.{IsRingSize, IsStartPosition, IsWorkerCount};
ghost use Rattle.rb_chapter_ring.specs.Chapters.{IsChapterRoom, empty_chapter};
ghost use Rattle.rb_ledger.specs.Seats.{HasSettledAll, fresh_book, fresh_seats};
ghost use Rattle.rb_ledger.specs.ChapterSeats.{fresh_chapter_consumer};
ghost use Rattle.rb_workers.specs.Opened.{IsOpened};

use crate::sink::Sink;
use rb_chapter_ring::Chapter;
use rb_consumer::Keeper;
use rb_history::Tally;
use rb_interp::RunFault;
use rb_shared_ring::{Closing, ConsumerSeat, OpenFault, Seat, SharedRing, open};
use std::alloc::Global;
use std::sync::Wait;
use thiserror::Error;

/// An opened ring with the seats of its workers in the order of their numbers, its consumer, the keeper of the chapter
/// in which it continues, and the sink for its records and chapters.
#[derive(Drop)]
pub struct Opened<S> {
    /// The ring.
    pub ring: SharedRing,
    /// A seat for each worker: the first is worker 0's.
    pub seats: Vec<Seat>,
    /// The consumer's seat.
    pub consumer: ConsumerSeat,
    /// The keeper that hands out the ring's chapters in turn. Its own chapter has the ring's room and number of
    /// workers, and no entries except those that one of its turns lent.
    pub keeper: Keeper,
    /// The sink for the records and the chapters.
    pub sink: S,
}

impl<S: Sink + Drop> Opened<S> {
    /// Opens a ring, as `rb_shared_ring::open` does, with a sink that starts at the ring's start.
    ///
    /// Its chapters have room for `room` entries, 8 to 1,048,576, and are handed out `margin` entries before the room
    /// could be exhausted: the number of entries that the workers may add until the keeper looks again. `chapter_room`
    /// and `chapter_margin` return both for the ring's size: then no reservation and no output finds the chapter full
    /// before the ring was (`chapters_follow_their_ring`, under its premises on how often the keeper looks and how long
    /// records are).
    pub fn open<R: Wait>(
        rt: &R,
        alloc: Global,
        tag: u64,
        size: u64,
        start: u64,
        workers: u32,
        room: u32,
        margin: u32,
        sink: S,
    ) -> Result<Opened<S>, OpenFault>
        requires begins { S.position_of sink ≡ start }
        ensures opened { IfOk result (IsOpened S.position_of workers) }
        ensures tag { IfOk result (λ o. o.ring.tag ≡ tag) }
        ensures seats { IfOk result (λ o. o.seats.items ≡ fresh_seats tag o.ring.ring room (fresh_book size start workers) 0 workers) }
        ensures consumer { IfOk result (λ o. o.consumer ≡ fresh_chapter_consumer tag o.ring.ring room (fresh_book size start workers)) }
        ensures keeper { IfOk result (λ o. o.keeper ≡ record { chapter = empty_chapter room workers; margin = margin; is_lent = false }) }
        ensures sink { IfOk result (λ o. o.sink ≡ sink) }
        ensures nothing_made { IfOk result (λ o. All HasSettledAll o.seats.items) }
        ensures size { IsErrOf result OpenFault.Size ↔ ¬ IsRingSize size }
        ensures start { IsErrOf result OpenFault.Start ↔ (IsRingSize size × ¬ IsStartPosition start) }
        ensures workers { IsErrOf result OpenFault.Workers ↔ (IsRingSize size × IsStartPosition start × ¬ IsWorkerCount workers) }
        ensures chapter { IsErrOf result OpenFault.Chapter ↔ (IsRingSize size × IsStartPosition start × IsWorkerCount workers × ¬ IsChapterRoom room) }
    {
        match open(rt, alloc, tag, size, start, workers, room) {
            Ok((ring, seats, consumer)) => {
                consumer.facts();
                let Ok(chapter) = Chapter::new(alloc, room, workers) else {
                    return Err(OpenFault::Memory);
                };
                let keeper = Keeper::with_margin(chapter, margin);
                Ok(Opened {
                    ring,
                    seats,
                    consumer,
                    keeper,
                    sink,
                })
            }
            Err(fault) => Err(fault),
        }
    }
}

/// Why there is no report.
#[derive(Clone, Copy, Debug, PartialEq, Eq, Error)]
pub enum JobFault {
    /// A program was verified for more rings than there are. Nothing ran.
    #[error("a program knows more rings than there are")]
    UnknownRing,
    /// A job names a worker that has no seats. Nothing ran.
    #[error("a job is of an unknown worker")]
    UnknownWorker,
    /// An allocation failed before the start or for a worker's next job. The effects of what ran remain, and no ring is
    /// closed.
    #[error("out of memory")]
    Memory,
}

/// A ring at its end.
#[derive(Drop)]
pub struct Ended<S> {
    /// The closed ring, with its last chapter.
    pub closing: Closing,
    /// The counts of the ring's seats, in the order of the workers.
    pub tallies: Vec<Tally>,
    /// The keeper that handed out the ring's chapters. Its chapter has the ring's room and number of workers, and can
    /// be reused.
    pub keeper: Keeper,
    /// The sink that was given the records and the chapters.
    pub sink: S,
}

/// The report on a run of jobs.
#[derive(Drop)]
pub struct JobsReport<S> {
    /// The rings, closed, in their order.
    pub rings: Vec<Ended<S>>,
    /// The result of each job's run, in the order of the jobs.
    pub answers: Vec<Result<u64, RunFault>>,
    /// The number of results that are `Stray`: always 0, since seats keep the records that they granted, so that none
    /// is handed back (`IsRun.never_stray`).
    pub strays: u64,
    /// The number of all calls that returned null for flags 0, or `-EAGAIN`, without an entry in a ring's history that
    /// explains it.
    pub unlogged: u128,
}
