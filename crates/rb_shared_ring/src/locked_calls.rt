//! The calls of a ring of one thread, each on the state that the lock contains. The lock is held for one call only.

ghost use Rattle.std.specs.Prelude.{◌≡◌, ◌<◌, ◌≤◌, None, Some, IfOk, IfErr, length, slice_set};
ghost use Rattle.std.specs.Fn.{FnOnceTakesAtMut, FnOnceReturnsAtMut};
ghost use Rattle.crossbeam_queue.specs.Passes.{view, IsPassOf, IsSamePass, ruled_capacity};
ghost use Rattle.rb_chapter_ring.specs.ChapterCalls.{producer_by_chapter};
ghost use Rattle.rb_ledger.specs.Roles.Role.{Worker};
ghost use Rattle.rb_ledger.specs.LockedChapterCalls.{LockedChapterCall};
ghost use Rattle.rb_ledger.specs.inner.ChapterAnswers.{QueriesInChapter, EndsInChapter};
ghost use Rattle.rb_ledger.specs.inner.ChapterRooms.{InRoomAt};
ghost use Rattle.rb_ledger.specs.RecordEnds.{sent_by_end};
ghost use Rattle.rb_chapter_ring.specs.Hands.{out_record, in_hand, IsFree};
ghost use Rattle.rb_ledger.specs.NoStranger.{HoldsOwnBusy};
ghost use Rattle.rb_shared_ring.specs.inner.HandPasses.{seen_with, bytes_with, room_with, hands_by, cut_by, IsIdleWith};
ghost use Rattle.rb_shared_ring.specs.inner.HandCalls.{LeavesHands};
ghost use Rattle.rb_shared_ring.specs.inner.LentState.{MayLend, MayCall, LendsState};
ghost use Rattle.rb_shared_ring.specs.SharedCalls.{granted_in, hands_reserved, sent_by_output_in_room};
ghost use Rattle.rb_shared_ring.specs.inner.ChapterAnswers.{ReservesInChapter, OutputsInChapter};

use crate::batch_flag::BatchFlag;
use crate::lock::{Lock, RingPass, put_back, take_out};
use rb_chapter_ring::{RecordEnd, Reservation, ReserveFault, RingState};
use rb_history::Notice;
use rb_lend::Sheet;
use std::sync::Wait;

#[inline(always)]
/// Takes the state out of the lock, lends it to one call, and puts it back.
pub(crate) fn with_state<R: Wait, T, F: FnOnce(&mut RingState) -> T>(
    rt: &R,
    lock: &Lock,
    batch: &BatchFlag,
    pass: &mut RingPass,
    call: F,
) -> T
    requires pass { IsPassOf lock.now pass.old × (ruled_capacity lock.now ≡ 1) }
    requires free { (view pass.old).out ≡ None }
    requires callable { MayLend (view pass.old) (λ old. FnOnceTakesAtMut F.FnOnce call old) }
    requires step { (answer : T) → MayCall (view pass.old) (λ old new. FnOnceReturnsAtMut F.FnOnce call old answer new) }
    ensures same { IsSamePass pass.old pass.new }
    ensures lent { LendsState (view pass.old) (view pass.new) (λ old new. FnOnceReturnsAtMut F.FnOnce call old result new) }
{
    let mut held = take_out(rt, lock, batch, pass);
    let state = held.as_mut();
    let answer = call(state);
    state.facts();
    put_back(rt, lock, pass, held);
    answer
}

/// Calls `RingState::query` for the worker of this pass.
pub(crate) fn query_with<R: Wait>(
    rt: &R,
    lock: &Lock,
    batch: &BatchFlag,
    pass: &mut RingPass,
    worker: u32,
    what: u64,
) -> u64
    requires pass { IsPassOf lock.now pass.old × (ruled_capacity lock.now ≡ 1) }
    requires idle { IsIdleWith (Worker worker) (view pass.old) }
    ensures same { IsSamePass pass.old pass.new }
    ensures idle { IsIdleWith (Worker worker) (view pass.new) }
    ensures call { LockedChapterCall (Worker worker) (seen_with (view pass.old)) (seen_with (view pass.new)) (InRoomAt (room_with (view pass.old)) (cut_by (view pass.new)) (QueriesInChapter what result)) }
    ensures bytes { bytes_with (view pass.new) ≡ bytes_with (view pass.old) }
    ensures room { room_with (view pass.new) ≡ room_with (view pass.old) }
    ensures hands { hands_by (view pass.new) ≡ hands_by (view pass.old) }
    ensures holds { HoldsOwnBusy (hands_by (view pass.new)) worker (seen_with (view pass.new)).history }
    ensures cut { cut_by (view pass.old) ≤ cut_by (view pass.new) }
{
    with_state(
        rt,
        lock,
        batch,
        pass,
        |state|
            ensures call { LeavesHands (QueriesInChapter what result) state.old.state state.new.state }
        { state.query(what) },
    )
}

#[inline(always)]
/// Calls `RingState::reserve` with a free hand of the worker of this pass. It sets the ring's tag first, since the lock's
/// rule says nothing about the tag.
///
/// It takes the state out of the lock itself, so that it is inlined into each caller: a closure with several callers is
/// not inlined, and would return the record through memory.
pub(crate) fn reserve_with<R: Wait>(
    rt: &R,
    lock: &Lock,
    batch: &BatchFlag,
    pass: &mut RingPass,
    tag: u64,
    worker: u32,
    hand: u32,
    n: u32,
    sheet: Sheet,
) -> Result<Reservation, (ReserveFault, Sheet)>
    requires pass { IsPassOf lock.now pass.old × (ruled_capacity lock.now ≡ 1) }
    requires idle { IsIdleWith (Worker worker) (view pass.old) }
    requires hand { IsFree (hands_by (view pass.old)) hand }
    requires sized { length sheet ≡ n }
    ensures same { IsSamePass pass.old pass.new }
    ensures idle { IsIdleWith (Worker worker) (view pass.new) }
    ensures call { LockedChapterCall (Worker worker) (seen_with (view pass.old)) (seen_with (view pass.new)) (InRoomAt (room_with (view pass.old)) (cut_by (view pass.new)) (ReservesInChapter worker n (granted_in result))) }
    ensures bytes { bytes_with (view pass.new) ≡ bytes_with (view pass.old) }
    ensures room { room_with (view pass.new) ≡ room_with (view pass.old) }
    ensures hands { hands_by (view pass.new) ≡ hands_reserved (hands_by (view pass.old)) hand n result }
    ensures holds { HoldsOwnBusy (hands_by (view pass.new)) worker (seen_with (view pass.new)).history }
    ensures cut { cut_by (view pass.old) ≤ cut_by (view pass.new) }
    ensures tag { IfOk result (λ r. r.tag ≡ tag) }
    ensures hand { IfOk result (λ r. r.hand ≡ hand) }
    ensures handed_back { IfErr result (λ e. e.1 ≡ sheet) }
{
    let mut held = take_out(rt, lock, batch, pass);
    let state = held.as_mut();
    state.set_tag(tag);
    let answer = state.reserve(worker, hand, n, sheet);
    state.facts();
    put_back(rt, lock, pass, held);
    answer
}

#[inline(always)]
/// Calls `RingState::settle` with a reservation that is out in a hand of the worker of this pass. It is never refused.
/// It takes the state out of the lock itself, as `reserve_with` does.
pub(crate) fn settle_with<R: Wait>(
    rt: &R,
    lock: &Lock,
    batch: &BatchFlag,
    pass: &mut RingPass,
    worker: u32,
    reservation: Reservation,
    end: RecordEnd,
    flags: u64,
) -> Notice
    requires pass { IsPassOf lock.now pass.old × (ruled_capacity lock.now ≡ 1) }
    requires idle { IsIdleWith (Worker worker) (view pass.old) }
    requires mine { reservation.granted.worker ≡ worker }
    requires out { in_hand (hands_by (view pass.old)) reservation.hand ≡ Some (out_record reservation.granted.pos reservation.granted.serial (length reservation.granted.bytes)) }
    ensures same { IsSamePass pass.old pass.new }
    ensures idle { IsIdleWith (Worker worker) (view pass.new) }
    ensures call { LockedChapterCall (Worker worker) (seen_with (view pass.old)) (seen_with (view pass.new)) (InRoomAt (room_with (view pass.old)) (cut_by (view pass.new)) (EndsInChapter end reservation.granted flags result)) }
    ensures bytes { bytes_with (view pass.new) ≡ sent_by_end end reservation.granted (bytes_with (view pass.old)) }
    ensures room { room_with (view pass.new) ≡ room_with (view pass.old) }
    ensures hands { hands_by (view pass.new) ≡ slice_set (hands_by (view pass.old)) reservation.hand None }
    ensures holds { HoldsOwnBusy (hands_by (view pass.new)) worker (seen_with (view pass.new)).history }
    ensures cut { cut_by (view pass.old) ≤ cut_by (view pass.new) }
{
    let mut held = take_out(rt, lock, batch, pass);
    let state = held.as_mut();
    let notice = state.settle(reservation, end, flags);
    state.facts();
    put_back(rt, lock, pass, held);
    notice
}

#[inline(always)]
/// Calls `RingState::output` for the worker of this pass. It needs no hand. It takes the state out of the lock itself,
/// as `reserve_with` does.
pub(crate) fn output_with<R: Wait>(
    rt: &R,
    lock: &Lock,
    batch: &BatchFlag,
    pass: &mut RingPass,
    worker: u32,
    sheet: Sheet,
    flags: u64,
) -> Result<Notice, (ReserveFault, Sheet)>
    requires pass { IsPassOf lock.now pass.old × (ruled_capacity lock.now ≡ 1) }
    requires idle { IsIdleWith (Worker worker) (view pass.old) }
    ensures same { IsSamePass pass.old pass.new }
    ensures idle { IsIdleWith (Worker worker) (view pass.new) }
    ensures call { LockedChapterCall (Worker worker) (seen_with (view pass.old)) (seen_with (view pass.new)) (InRoomAt (room_with (view pass.old)) (cut_by (view pass.new)) (λ old new. OutputsInChapter worker sheet flags result old new × (bytes_with (view pass.new) ≡ sent_by_output_in_room (bytes_with (view pass.old)) (producer_by_chapter old) sheet result))) }
    ensures room { room_with (view pass.new) ≡ room_with (view pass.old) }
    ensures hands { hands_by (view pass.new) ≡ hands_by (view pass.old) }
    ensures holds { HoldsOwnBusy (hands_by (view pass.new)) worker (seen_with (view pass.new)).history }
    ensures cut { cut_by (view pass.old) ≤ cut_by (view pass.new) }
    ensures handed_back { IfErr result (λ e. e.1 ≡ sheet) }
{
    let mut held = take_out(rt, lock, batch, pass);
    let state = held.as_mut();
    let answer = state.output(worker, sheet, flags);
    state.facts();
    put_back(rt, lock, pass, held);
    answer
}
