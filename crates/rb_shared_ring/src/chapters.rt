//! The consumer's calls that hand out chapters.

ghost use Rattle.std.specs.Prelude.{◌≡◌, ◌≢◌, ◌<◌, ◌^◌, ◌↔◌, ◌++◌, ◌∷◌, [], IfOk, IfErr, IsErr, OnErr, IsTrue, None, length};
ghost use Rattle.crossbeam_queue.specs.Passes.{view, IsPassOf, IsSamePass, ruled_capacity};
ghost use Rattle.rb_chapter_ring.specs.OpenedRing.{MayGoOnIn};
ghost use Rattle.rb_chapter_ring.specs.ChapterCalls.{HandsOut};
ghost use Rattle.rb_ledger.specs.Roles.Role.{Consumer};
ghost use Rattle.rb_ledger.specs.ChapterSeats.{IsFitChapter};
ghost use Rattle.rb_ledger.specs.LockedChapterCalls.{LockedChapterCall, InKnownChapter, TellsUsed, HandsOutNext};
ghost use Rattle.rb_shared_ring.specs.SharedSeats.{IsSameChapterConsumer, TakesNothing, IsHandFault};
ghost use Rattle.rb_shared_ring.specs.inner.HandCalls.{LeavesHands};
ghost use Rattle.rb_shared_ring.specs.inner.HandPasses.{seen_with, bytes_with, room_with, handed_out_with, IsIdleWith};

use crate::batch_flag::BatchFlag;
use crate::consumer_seat::ConsumerSeat;
use crate::lock::{Lock, RingPass};
use crate::locked_calls::with_state;
use crate::shared::{Foreign, SharedRing};
use rb_chapter_ring::{COUNT_LIMIT, Chapter, RingState};
use std::sync::Wait;
use thiserror::Error;

/// Why no chapter was handed out: the first of these that applies, in this order.
#[derive(Clone, Copy, Debug, Error, PartialEq, Eq)]
pub enum HandFault {
    /// The seat belongs to another ring. Nothing changed.
    #[error("the seat is another ring's")]
    Foreign,
    /// The passed chapter has entries, or another room or number of workers than the ring, or the last chapter number
    /// was reached. Nothing changed.
    #[error("the chapter does not fit the ring")]
    Unfit,
}

// Calls `RingState::hand_out` for the consumer, with a chapter in which the ring may continue.
fn hand_out_with<R: Wait>(
    rt: &R,
    lock: &Lock,
    batch: &BatchFlag,
    pass: &mut RingPass,
    empty: Chapter,
) -> Chapter
    requires pass { IsPassOf lock.now pass.old × (ruled_capacity lock.now ≡ 1) }
    requires idle { IsIdleWith Consumer (view pass.old) }
    requires no_entries { empty.entries ≡ [] }
    requires room { empty.room ≡ room_with (view pass.old) }
    requires workers { empty.opening.setup.workers ≡ (seen_with (view pass.old)).setup.workers }
    requires next_number { length (handed_out_with (view pass.old)) < 2 ^ 62 }
    ensures same { IsSamePass pass.old pass.new }
    ensures idle { IsIdleWith Consumer (view pass.new) }
    ensures call { LockedChapterCall Consumer (seen_with (view pass.old)) (seen_with (view pass.new)) (HandsOutNext (handed_out_with (view pass.old)) result) }
    ensures bytes { bytes_with (view pass.new) ≡ bytes_with (view pass.old) }
    ensures room { room_with (view pass.new) ≡ room_with (view pass.old) }
    ensures chapters { handed_out_with (view pass.new) ≡ handed_out_with (view pass.old) ++ result ∷ [] }
    ensures chapter_room { result.room ≡ room_with (view pass.old) }
    ensures chapter_workers { result.opening.setup.workers ≡ (seen_with (view pass.old)).setup.workers }
{
    with_state(
        rt,
        lock,
        batch,
        pass,
        |state|
            requires fits { MayGoOnIn state.old.state.ring empty }
            ensures hands_out { HandsOut state.old.state.ring state.new.state.ring result }
            ensures same_hands { state.new.state.hands ≡ state.old.state.hands }
        { next_chapter(state, empty) },
    )
}

// Hands out the ring's chapter; the ring continues in the passed one, which must fit.
fn next_chapter(state: &mut RingState, empty: Chapter) -> Chapter
    requires fits { MayGoOnIn state.old.state.ring empty }
    ensures hands_out { HandsOut state.old.state.ring state.new.state.ring result }
    ensures same_hands { state.new.state.hands ≡ state.old.state.hands }
{
    match state.hand_out(empty) {
        Ok(chapter) => chapter,
        Err(_) => unreachable!(),
    }
}

// Returns how many entries the ring's chapter has, and how many it owes.
fn used_with<R: Wait>(rt: &R, lock: &Lock, batch: &BatchFlag, pass: &mut RingPass) -> (u32, u32)
    requires pass { IsPassOf lock.now pass.old × (ruled_capacity lock.now ≡ 1) }
    requires idle { IsIdleWith Consumer (view pass.old) }
    ensures same { IsSamePass pass.old pass.new }
    ensures idle { IsIdleWith Consumer (view pass.new) }
    ensures call { LockedChapterCall Consumer (seen_with (view pass.old)) (seen_with (view pass.new)) (InKnownChapter (handed_out_with (view pass.old)) (TellsUsed result.0 result.1)) }
    ensures bytes { bytes_with (view pass.new) ≡ bytes_with (view pass.old) }
    ensures room { room_with (view pass.new) ≡ room_with (view pass.old) }
    ensures chapters { handed_out_with (view pass.new) ≡ handed_out_with (view pass.old) }
{
    with_state(
        rt,
        lock,
        batch,
        pass,
        |state|
            ensures call { LeavesHands (TellsUsed result.0 result.1) state.old.state state.new.state }
        { (state.chapter().used(), state.chapter().owed()) },
    )
}

impl ConsumerSeat {
    // Returns whether the ring may continue in the chapter.
    fn is_fit(&self, empty: &Chapter) -> bool
        ensures exact { IsTrue result ↔ IsFitChapter self.now empty.now }
    {
        empty.used() == 0
            && empty.room() == self.room
            && empty.opening().numbers().workers == self.workers
            && self.chapters < COUNT_LIMIT
    }
}

impl SharedRing {
    /// Hands out the ring's chapter as it is. The ring continues in `empty`, which becomes the next chapter; its
    /// opening is a summary of everything before it.
    ///
    /// The chapter's number is the number of chapters that were handed out before. Returns `Foreign` or else `Unfit` if
    /// one of them applies, with `empty`. Takes time linear in the numbers of untaken records and of workers, during
    /// which the lock is held, and does not allocate.
    pub fn hand_out<R: Wait>(
        &self,
        rt: &R,
        seat: &mut ConsumerSeat,
        empty: Chapter,
    ) -> Result<Chapter, (HandFault, Chapter)>
        requires ring { seat.old.tag ≡ self.now.tag → seat.old.ring ≡ self.now.ring }
        ensures foreign { IsHandFault HandFault.Foreign result ↔ (seat.old.tag ≢ self.now.tag) }
        ensures unfit { IsHandFault HandFault.Unfit result ↔ ((seat.old.tag ≡ self.now.tag) × ¬ IsFitChapter seat.old empty) }
        ensures handed_back { IfErr result (λ e. e.1 ≡ empty) }
        ensures unchanged { OnErr result (seat.new ≡ seat.old) }
        ensures seat { IsSameChapterConsumer seat.old seat.new }
        ensures numbers { TakesNothing seat.old seat.new }
        ensures released { (seat.old.out ≡ None) × (seat.new.out ≡ None) }
        ensures call { IfOk result (λ c. LockedChapterCall Consumer seat.old.seen seat.new.seen (HandsOutNext seat.old.handed_out c)) }
        ensures chapters { IfOk result (λ c. seat.new.handed_out ≡ seat.old.handed_out ++ c ∷ []) }
        ensures number { IfOk result (λ c. c.number ≡ length seat.old.handed_out) }
        ensures room { IfOk result (λ c. c.room ≡ seat.old.room) }
        ensures workers { IfOk result (λ c. c.opening.setup.workers ≡ seat.old.seen.setup.workers) }
    {
        if seat.tag != self.tag {
            return Err((HandFault::Foreign, empty));
        }
        if !seat.is_fit(&empty) {
            return Err((HandFault::Unfit, empty));
        }
        let chapter = hand_out_with(rt, &self.lock, &self.batch, &mut seat.pass, empty);
        seat.chapters += 1;
        Ok(chapter)
    }

    /// Returns how many entries the ring's chapter has, and how many its records will still log: two for each busy
    /// record, its commit and its take, and one for any other.
    ///
    /// A record is granted only if the sum of both plus three is at most the chapter's room.
    pub fn used<R: Wait>(&self, rt: &R, seat: &mut ConsumerSeat) -> Result<(u32, u32), Foreign>
        requires ring { seat.old.tag ≡ self.now.tag → seat.old.ring ≡ self.now.ring }
        ensures foreign { IsErr result ↔ (seat.old.tag ≢ self.now.tag) }
        ensures unchanged { seat.old.tag ≢ self.now.tag → seat.new ≡ seat.old }
        ensures seat { IsSameChapterConsumer seat.old seat.new }
        ensures numbers { TakesNothing seat.old seat.new }
        ensures chapters { seat.new.handed_out ≡ seat.old.handed_out }
        ensures released { (seat.old.out ≡ None) × (seat.new.out ≡ None) }
        ensures call { IfOk result (λ n. LockedChapterCall Consumer seat.old.seen seat.new.seen (InKnownChapter seat.old.handed_out (TellsUsed n.0 n.1))) }
    {
        if seat.tag != self.tag {
            return Err(Foreign);
        }
        Ok(used_with(rt, &self.lock, &self.batch, &mut seat.pass))
    }
}
