//! Records through the ring that threads share.

ghost use Rattle.rb_history.specs.RingModel.{IsWorkerCount};
ghost use Rattle.rb_for_tests.specs.OwnSeats.{HasOwnSeats};

use super::one_thread::{ROOM, SIZE};
use crate::fault::TrialFault;
use rb_chapter_ring::Chapter;
use rb_consumer::{Batch, Keeper};
use rb_for_tests::{Consumer, Found, OpenRing, Outputs};
use rb_shared_ring::{ConsumerSeat, SharedRing};
use std::alloc::Global;
use std::sync::Wait;
use std::thread::Threads;

// The maximal number of records that the consumer takes under one acquisition of the lock.
const BATCH: usize = 64;

// A chapter is handed out when half of its room is left: the number of entries that producers may add until the
// consumer looks again.
const MARGIN: u32 = ROOM / 2;

// The consumer's state besides its seat: the records that it took last, and the keeper that hands out the ring's
// chapters.
#[derive(Drop)]
struct BenchDesk {
    batch: Batch,
    keeper: Keeper,
}

impl Consumer for BenchDesk {
    // Hands out the ring's chapter if it is due, and takes a batch.
    fn look<R: Wait>(&mut self, rt: &R, ring: &SharedRing, seat: &mut ConsumerSeat) -> Found {
        let _turned = self.keeper.turn(rt, ring, seat);
        Found::of(self.batch.fill(rt, ring, seat).unwrap_or(0), BATCH)
    }
}

/// The result of a run.
#[derive(Clone, Copy)]
pub(crate) struct Shared {
    /// How many records the consumer was handed.
    pub consumed: u64,
    /// How often a producer found no room.
    pub refused: u64,
}

/// Lets each of `producers` threads output `each` records of eight bytes, while another thread takes them all.
pub(crate) fn share<R: Threads + Wait + Sync>(
    rt: &R,
    alloc: Global,
    producers: u32,
    each: u32,
) -> Result<Shared, TrialFault> {
    let Ok(mut open) = OpenRing::open(rt, alloc, 1, SIZE, producers, ROOM) else {
        return Err(TrialFault::Memory);
    };
    run_threads(rt, alloc, &mut open, producers, each)?;
    let Ok(closing) = open.close(rt) else {
        return Err(TrialFault::Lost);
    };
    let counts = closing.counts();
    Ok(Shared {
        consumed: counts.consumed,
        refused: counts.refused,
    })
}

// Runs the producers and the consumer, until everything is taken.
fn run_threads<R: Threads + Wait + Sync>(
    rt: &R,
    alloc: Global,
    opened: &mut OpenRing,
    producers: u32,
    each: u32,
) -> Result<(), TrialFault>
    requires own { HasOwnSeats opened.old }
    requires workers { IsWorkerCount producers }
    ensures { HasOwnSeats opened.new }
{
    let mut desk = BenchDesk {
        batch: Batch::with_capacity(alloc, BATCH)?,
        keeper: Keeper::with_margin(Chapter::new(alloc, ROOM, producers)?, MARGIN),
    };
    let outputs = Outputs {
        alloc,
        records: each,
        len: 8,
    };
    opened.run(rt, &outputs, &mut desk);
    Ok(())
}
