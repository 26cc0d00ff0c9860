//! An audit: a ring's positions and counts at one moment.

ghost use Rattle.std.specs.Prelude.{◌≡◌, ◌≢◌, ◌↔◌, ◌<◌, ◌≤◌, IfOk, IsErr, None, length, slice_index_or};
ghost use Rattle.crossbeam_queue.specs.Passes.{view, IsPassOf, IsSamePass, ruled_capacity};
ghost use Rattle.rb_chapter_ring.specs.Snapshot.{no_tally};
ghost use Rattle.rb_ledger.specs.Roles.Role.{Worker};
ghost use Rattle.rb_ledger.specs.Seats.{IsSameSeat};
ghost use Rattle.rb_ledger.specs.LockedCalls.{LockedCall};
ghost use Rattle.rb_ledger.specs.LockedChapterCalls.{LockedChapterCall};
ghost use Rattle.rb_ledger.specs.EntryRoom.{InRoom};
ghost use Rattle.rb_ledger.specs.inner.ChapterRooms.{InRoomAt};
ghost use Rattle.rb_ledger.specs.NoStranger.{HoldsOwnBusy};
ghost use Rattle.rb_shared_ring.specs.SharedCalls.{Audits};
ghost use Rattle.rb_shared_ring.specs.inner.ChapterAnswers.{AuditsInChapter};
ghost use Rattle.rb_shared_ring.specs.inner.HandCalls.{LeavesHands};
ghost use Rattle.rb_shared_ring.specs.inner.HandPasses.{seen_with, bytes_with, room_with, hands_by, cut_by, IsIdleWith};

use crate::batch_flag::BatchFlag;
use crate::lock::{Lock, RingPass};
use crate::locked_calls::with_state;
use crate::shared::{Foreign, SharedRing};
use crate::worker_seat::Seat;
use rb_chapter_ring::RingState;
use rb_history::{Counts, Tally};
use std::sync::Wait;

/// A ring's positions and counts at one point of its history.
#[derive(Clone, Copy, Debug, PartialEq, Eq)]
pub struct Audit {
    /// The producer position.
    pub producer: u64,
    /// The consumer position.
    pub consumer: u64,
    /// The counts of the whole history.
    pub counts: Counts,
    /// The counts of the entries of the worker that asked. They equal its seat's own counts.
    pub own: Tally,
}

// Returns the ring's positions and counts, and the counts of a worker's entries. Takes constant time.
fn audit_of(state: &RingState, worker: u32) -> Audit
    requires worker { worker < state.now.state.ring.chapter.opening.setup.workers }
    ensures audit { AuditsInChapter worker result state.now.state.ring state.now.state.ring }
{
    let closing = state.chapter().closing();
    let numbers = closing.numbers();
    Audit {
        producer: numbers.producer,
        consumer: numbers.consumer,
        counts: state.counts(),
        own: tally_in(closing.tallies(), worker),
    }
}

// Returns the totals of the worker.
fn tally_in(tallies: &[Tally], worker: u32) -> Tally
    requires worker { worker < length tallies.now }
    ensures tally { result ≡ slice_index_or tallies.now worker no_tally }
{
    tallies[worker as usize]
}

// Returns an audit for the worker of this pass.
fn audit_with<R: Wait>(
    rt: &R,
    lock: &Lock,
    batch: &BatchFlag,
    pass: &mut RingPass,
    worker: u32,
) -> Audit
    requires pass { IsPassOf lock.now pass.old × (ruled_capacity lock.now ≡ 1) }
    requires idle { IsIdleWith (Worker worker) (view pass.old) }
    ensures same { IsSamePass pass.old pass.new }
    ensures idle { IsIdleWith (Worker worker) (view pass.new) }
    ensures call { LockedChapterCall (Worker worker) (seen_with (view pass.old)) (seen_with (view pass.new)) (InRoomAt (room_with (view pass.old)) (cut_by (view pass.new)) (AuditsInChapter worker result)) }
    ensures bytes { bytes_with (view pass.new) ≡ bytes_with (view pass.old) }
    ensures room { room_with (view pass.new) ≡ room_with (view pass.old) }
    ensures hands { hands_by (view pass.new) ≡ hands_by (view pass.old) }
    ensures holds { HoldsOwnBusy (hands_by (view pass.new)) worker (seen_with (view pass.new)).history }
    ensures cut { cut_by (view pass.old) ≤ cut_by (view pass.new) }
{
    with_state(
        rt,
        lock,
        batch,
        pass,
        |state|
            requires worker { worker < state.old.state.ring.chapter.opening.setup.workers }
            ensures call { LeavesHands (AuditsInChapter worker result) state.old.state state.new.state }
        { audit_of(state, worker) },
    )
}

impl SharedRing {
    /// Returns the ring's positions and counts at one moment, and the counts of the entries of the seat's worker, all
    /// over the whole history. The refusal count of all workers saturates at `u64::MAX`.
    ///
    /// Takes constant time, since the ring maintains all of them.
    pub fn audit<R: Wait>(&self, rt: &R, seat: &mut Seat) -> Result<Audit, Foreign>
        requires ring { seat.old.tag ≡ self.now.tag → seat.old.ring ≡ self.now.ring }
        ensures foreign { IsErr result ↔ (seat.old.tag ≢ self.now.tag) }
        ensures unchanged { seat.old.tag ≢ self.now.tag → seat.new ≡ seat.old }
        ensures seat { IsSameSeat seat.old seat.new }
        ensures released { (seat.old.out ≡ None) × (seat.new.out ≡ None) }
        ensures call { IfOk result (λ a. LockedCall (Worker seat.old.worker) seat.old.seen seat.new.seen (InRoom seat.old.room seat.new.cut (Audits seat.old.worker a))) }
        ensures own { IfOk result (λ a. a.own ≡ seat.old.tally) }
        ensures tally { seat.new.tally ≡ seat.old.tally }
        ensures hands { seat.new.hands ≡ seat.old.hands }
        ensures sent { seat.new.sent ≡ seat.old.sent }
        ensures cut { seat.old.cut ≤ seat.new.cut }
    {
        if seat.tag != self.tag {
            return Err(Foreign);
        }
        let worker = seat.worker;
        Ok(audit_with(rt, &self.lock, &self.batch, &mut seat.pass, worker))
    }
}
