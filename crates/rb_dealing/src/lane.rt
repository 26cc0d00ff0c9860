//! A lane: a worker with the queue of its pieces, and the queue that returns them.

ghost use Rattle.std.specs.Prelude.{◌≡◌, ◌++◌, ◌∷◌, [], IfOk, OnErr, OnOk, map};
ghost use Rattle.rtrb.specs.Ring.{sent};
ghost use Rattle.rb_dealing.specs.inner.Feeds.{GetsContexts};
ghost use Rattle.rb_dealing.specs.Queues.{AreEmptyQueues, AreFeedsOf, IsEmptyQueue, IsFeedOf};
ghost use Rattle.rb_dealing.specs.inner.Lanes.{LaneFinished, LaneRan};

use crate::idle::Idle;
use crate::work::Work;
use rb_source::Piece;
use rtrb::{Consumer, Producer, RingBuffer};
use std::alloc::{AllocError, Global};
use std::sync::atomic::{AtomicBool, Ordering};
use std::sync::{Arc, Wait};
use std::thread::Parker;

/// The maximal number of pieces that wait for a worker.
pub const PIECES: usize = 64;

// The maximal number of pieces that wait for reuse: all of a queue, and those that are being run and read.
const USED: usize = 2 * PIECES;

/// A worker, the queue of its pieces, and the queue for those that it has run.
#[derive(Drop)]
pub struct Lane<W> {
    /// The worker.
    pub worker: W,
    pub(crate) pieces: Consumer<Piece>,
    pub(crate) used: Producer<Piece>,
    // The lane sleeps on this while its queue is empty.
    pub(crate) parker: Arc<Parker>,
}

/// The other ends of a lane's queues.
#[derive(Drop)]
pub struct LaneFeed {
    pub(crate) pieces: Producer<Piece>,
    pub(crate) used: Consumer<Piece>,
    // Wakes the lane up.
    pub(crate) parker: Arc<Parker>,
}

/// Wakes all lanes up.
pub(crate) fn wake_all(feeds: &[LaneFeed]) {
    for feed in feeds {
        feed.parker.unpark();
    }
}

impl<W: Drop> Lane<W> {
    // Returns a lane with this worker, and the reader's ends of its two empty queues. If they can't be allocated, the
    // worker is dropped.
    fn new(alloc: Global, worker: W) -> Result<(LaneFeed, Lane<W>), AllocError>
        ensures worker { IfOk result (λ r. r.1.worker ≡ worker) }
        ensures pair { IfOk result (λ r. IsFeedOf r.0 r.1) }
        ensures empty { IfOk result (λ r. IsEmptyQueue r.0 r.1) }
    {
        let (to_lane, pieces) = RingBuffer::new(alloc, PIECES)?;
        let (used, from_lane) = RingBuffer::new(alloc, USED)?;
        let parker = Arc::new(alloc, Parker::new())?;
        let feed = LaneFeed {
            pieces: to_lane,
            used: from_lane,
            parker: parker.clone()?,
        };
        Ok((
            feed,
            Lane {
                worker,
                pieces,
                used,
                parker,
            },
        ))
    }
}

/// Adds a lane with this worker, and the reader's ends of its queues, which are empty. If an allocation fails, the
/// worker is dropped and no lane is added.
pub fn add_lane<W: Drop>(
    alloc: Global,
    worker: W,
    feeds: &mut Vec<LaneFeed>,
    lanes: &mut Vec<Lane<W>>,
) -> Result<(), AllocError>
    requires pairs { AreFeedsOf feeds.old.items lanes.old.items }
    requires empty { AreEmptyQueues feeds.old.items lanes.old.items }
    ensures pairs { AreFeedsOf feeds.new.items lanes.new.items }
    ensures empty { AreEmptyQueues feeds.new.items lanes.new.items }
    ensures added { OnOk result (map (λ lane. lane.worker) lanes.new.items ≡ map (λ lane. lane.worker) lanes.old.items ++ worker ∷ []) }
    ensures refused { OnErr result (map (λ lane. lane.worker) lanes.new.items ≡ map (λ lane. lane.worker) lanes.old.items) }
{
    feeds.reserve(1)?;
    lanes.reserve(1)?;
    let (feed, lane) = Lane::new(alloc, worker)?;
    feeds.push_reserved(feed);
    lanes.push_reserved(lane);
    Ok(())
}

impl<W: Work> Lane<W> {
    // Runs a piece and sends it back. If the queue has no room for it, the piece is freed.
    fn run_piece(&mut self, piece: Piece)
        requires ready { W.ready self.old.worker }
        ensures ready { W.ready self.new.worker }
        ensures ran { W.runs self.old.worker piece.contexts self.new.worker }
        ensures queue { self.new.pieces ≡ self.old.pieces }
    {
        self.worker.run(&piece);
        let _full = self.used.push(piece);
    }

    /// Runs the pieces that arrive, until the reader has ended and a poll that was started after that finds none. The
    /// reader wakes the lane up after each piece and after it has ended.
    pub(crate) fn work<R: Wait>(&mut self, rt: &R, ended: &AtomicBool, short: &AtomicBool)
        requires ready { W.ready self.old.worker }
        ensures ran { LaneRan W.ready W.runs self.old self.new }
    {
        let mut idle = Idle::new();
        for _ in rt.forever() {
            let over = ended.load(Ordering::SeqCst);
            match self.pieces.pop() {
                Ok(piece) => {
                    self.run_piece(piece);
                    if self.worker.is_short() {
                        short.store(true, Ordering::SeqCst);
                    }
                    idle = Idle::new();
                }
                Err(_) => {
                    if over {
                        return;
                    }
                    idle.wait_parked(rt, &*self.parker);
                }
            }
        }
        unreachable!()
    }

    /// Runs the pieces that are left in the queue after the reader has ended.
    pub(crate) fn finish(&mut self, feed: &mut LaneFeed)
        requires ready { W.ready self.old.worker }
        requires pair { IsFeedOf feed.old self.old }
        ensures feed { GetsContexts feed.old [] feed.new }
        ensures finished { LaneFinished W.ready W.runs feed.old self.old self.new }
    {
        let left = self.pieces.slots_beside(&mut feed.pieces);
        for _ in 0..left {
            let piece = self.pieces.pop_known();
            self.run_piece(piece);
        }
    }
}
