//! One ring, from its opening to its end.

ghost use Rattle.rb_history.specs.RingModel.{IsWorkerCount};
ghost use Rattle.rb_chapter_ring.specs.Chapters.{IsChapterRoom};
ghost use Rattle.rb_for_tests.specs.OwnSeats.{HasOwnSeats};

use super::consumer::{BATCH, SoakDesk};
use super::plan::SoakPlan;
use super::seen_records::SeenRecords;
use super::sums::SoakSums;
use super::worker::Steps;
use crate::fault::TrialFault;
use rb_chapter_ring::Chapter;
use rb_consumer::{Batch, Keeper};
use rb_for_tests::OpenRing;
use rb_shared_ring::{Closing, ConsumerSeat, Seat};
use std::alloc::{AllocError, Global};
use std::sync::Wait;
use std::thread::Threads;

/// Opens a ring, runs its workers and its consumer until they end, closes it, and returns what they counted.
pub(crate) fn round<R: Threads + Wait + Sync>(
    rt: &R,
    alloc: Global,
    plan: SoakPlan,
    tag: u64,
) -> Result<SoakSums, TrialFault> {
    let Ok(mut open) = OpenRing::open(rt, alloc, tag, plan.size, plan.workers, plan.room) else {
        return Err(TrialFault::Ring);
    };
    let mut desk = desk_for(alloc, &plan)?;
    open.run(rt, &Steps { alloc, plan }, &mut desk);
    close(rt, alloc, open, desk)
}

// Returns the initial state of the consumer.
fn desk_for(alloc: Global, plan: &SoakPlan) -> Result<SoakDesk, AllocError>
    requires room { IsChapterRoom plan.now.room }
    requires workers { IsWorkerCount plan.now.workers }
{
    let chapter = Chapter::new(alloc, plan.room, plan.workers)?;
    Ok(SoakDesk {
        alloc,
        batch: Batch::with_capacity(alloc, BATCH)?,
        keeper: Keeper::with_margin(chapter, plan.room / 4),
        seen: SeenRecords::new(alloc, plan.workers)?,
        is_bound: plan.is_bound(),
        chapters: Vec::new(alloc),
    })
}

// Closes the ring, and returns what its seats, its consumer and the ring counted.
fn close<R: Wait>(
    rt: &R,
    alloc: Global,
    opened: OpenRing,
    desk: SoakDesk,
) -> Result<SoakSums, TrialFault>
    requires { HasOwnSeats opened }
{
    let mut sums = sums_of(opened.seats.as_slice(), &opened.consumer, &desk.seen);
    let Ok(closing) = opened.close(rt) else {
        return Err(TrialFault::Open);
    };
    check_closing(&closing, &mut sums);
    if desk.is_bound {
        bind(alloc, closing, desk.chapters, &mut sums);
    }
    Ok(sums)
}

// Returns what the seats counted, and checks it against what the consumer saw of each worker.
fn sums_of(seats: &[Seat], consumer: &ConsumerSeat, seen: &SeenRecords) -> SoakSums {
    let mut sums = SoakSums::none();
    for seat in seats {
        add_seat(&mut sums, seat, seen);
    }
    add_consumer(&mut sums, consumer, seen);
    sums
}

fn add_seat(sums: &mut SoakSums, seat: &Seat, seen: &SeenRecords) {
    let (made, submitted, discarded) = (seat.made(), seat.submitted(), seat.discarded());
    sums.expect(made == submitted.wrapping_add(discarded));
    sums.expect(submitted == seen.events_of(seat.worker()));
    sums.made = sums.made.wrapping_add(made);
    sums.refused = sums.refused.wrapping_add(seat.refused());
    sums.submitted = sums.submitted.wrapping_add(submitted);
    sums.discarded = sums.discarded.wrapping_add(discarded);
}

fn add_consumer(sums: &mut SoakSums, consumer: &ConsumerSeat, seen: &SeenRecords) {
    let (skipped, position) = (seen.skipped, seen.position);
    sums.expect(consumer.skipped() == skipped);
    sums.expect(consumer.position() == position);
    sums.consumed = consumer.consumed();
    sums.skipped = consumer.skipped();
    sums.chapters = consumer.chapters();
    sums.wrong = sums.wrong.saturating_add(seen.wrong);
}

// Checks that the closed ring counted what its seats and its consumer did.
fn check_closing(closing: &Closing, sums: &mut SoakSums) {
    let counts = closing.counts();
    sums.expect(counts.made == sums.made && counts.refused == sums.refused);
    sums.expect(counts.consumed == sums.submitted && counts.consumed == sums.consumed);
    sums.expect(counts.discarded == sums.discarded && counts.discarded == sums.skipped);
    sums.expect(counts.waiting == 0 && counts.busy == 0);
    sums.expect(closing.producer() == closing.consumer());
    sums.expect(closing.chapter().number() == sums.chapters);
}

// Binds the chapters: the history has an entry for each grant, each refusal, each end and each take.
fn bind(alloc: Global, closing: Closing, chapters: Vec<Chapter>, sums: &mut SoakSums) {
    match closing.bind(alloc, chapters) {
        Ok(whole) => {
            sums.bound = whole.history().len() as u64;
            let all = sums.made.wrapping_mul(3).wrapping_add(sums.refused);
            sums.expect(sums.bound == all);
        }
        Err(_) => sums.expect(false),
    }
}
