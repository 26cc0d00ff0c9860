//! The consumer's calls that take records.

ghost use Rattle.std.specs.Prelude.{◌≡◌, ◌≢◌, ◌+◌, ◌<◌, ◌≤◌, ◌^◌, ◌↔◌, ◌++◌, IfOk, OnOk, IsErr, None, length, vec_len, vec_capacity};
ghost use Rattle.crossbeam_queue.specs.Passes.{view, IsPassOf, IsSamePass, ruled_capacity};
ghost use Rattle.rb_history.specs.ManyTakes.{TakesMany, pushed};
ghost use Rattle.rb_chapter_ring.specs.ManyTakes.{TakesManyInChapter};
ghost use Rattle.rb_ledger.specs.Roles.Role.{Consumer};
ghost use Rattle.rb_ledger.specs.LockedCalls.{LockedCall, TakesAt, got_by, events_in, skips_in, span_in, IsTakenAt};
ghost use Rattle.rb_ledger.specs.ManyTakes.{events_among, skips_among, span_among, AreTakenFrom, got_by_all};
ghost use Rattle.rb_ledger.specs.ChapterSeats.{entries_out};
ghost use Rattle.rb_ledger.specs.EntryRoom.{InRoomBehind};
ghost use Rattle.rb_ledger.specs.LockedChapterCalls.{LockedChapterCall};
ghost use Rattle.rb_ledger.specs.inner.ChapterAnswers.{TakesInChapter};
ghost use Rattle.rb_ledger.specs.inner.ChapterRooms.{InKnownRoom};
ghost use Rattle.rb_shared_ring.specs.SharedSeats.{IsSameChapterConsumer};
ghost use Rattle.rb_shared_ring.specs.inner.HandCalls.{LeavesHands};
ghost use Rattle.rb_shared_ring.specs.inner.HandPasses.{seen_with, bytes_with, room_with, handed_out_with, IsIdleWith};

use crate::batch_flag::BatchFlag;
use crate::consumer_seat::ConsumerSeat;
use crate::lock::{Lock, RingPass, put_back, take_out};
use crate::locked_calls::with_state;
use crate::shared::{Foreign, SharedRing};
use rb_history::{Taken, span};
use std::sync::Wait;

// Calls `RingState::take` for the consumer.
fn take_with<R: Wait>(rt: &R, lock: &Lock, batch: &BatchFlag, pass: &mut RingPass) -> Taken
    requires pass { IsPassOf lock.now pass.old × (ruled_capacity lock.now ≡ 1) }
    requires idle { IsIdleWith Consumer (view pass.old) }
    ensures same { IsSamePass pass.old pass.new }
    ensures idle { IsIdleWith Consumer (view pass.new) }
    ensures call { LockedChapterCall Consumer (seen_with (view pass.old)) (seen_with (view pass.new)) (InKnownRoom (room_with (view pass.old)) (handed_out_with (view pass.old)) (TakesInChapter result)) }
    ensures bytes { bytes_with (view pass.new) ≡ got_by (bytes_with (view pass.old)) result }
    ensures room { room_with (view pass.new) ≡ room_with (view pass.old) }
    ensures chapters { handed_out_with (view pass.new) ≡ handed_out_with (view pass.old) }
{
    with_state(
        rt,
        lock,
        batch,
        pass,
        |state|
            ensures call { LeavesHands (TakesInChapter result) state.old.state state.new.state }
        { state.take() },
    )
}

// Calls `RingState::take_many` for the consumer. The lock is held for all of its takes and for nothing else, with the
// batch flag raised.
fn take_many_with<R: Wait>(
    rt: &R,
    lock: &Lock,
    batch: &BatchFlag,
    pass: &mut RingPass,
    n: usize,
    out: &mut Vec<Taken>,
) -> usize
    requires pass { IsPassOf lock.now pass.old × (ruled_capacity lock.now ≡ 1) }
    requires idle { IsIdleWith Consumer (view pass.old) }
    requires room { vec_len out.old + n ≤ vec_capacity out.old }
    ensures same { IsSamePass pass.old pass.new }
    ensures idle { IsIdleWith Consumer (view pass.new) }
    ensures call { LockedChapterCall Consumer (seen_with (view pass.old)) (seen_with (view pass.new)) (InKnownRoom (room_with (view pass.old)) (handed_out_with (view pass.old)) (TakesManyInChapter n (pushed out.old.items out.new.items))) }
    ensures bytes { bytes_with (view pass.new) ≡ got_by_all (bytes_with (view pass.old)) (pushed out.old.items out.new.items) }
    ensures room { room_with (view pass.new) ≡ room_with (view pass.old) }
    ensures chapters { handed_out_with (view pass.new) ≡ handed_out_with (view pass.old) }
    ensures kept { out.new.items ≡ out.old.items ++ pushed out.old.items out.new.items }
    ensures count { result ≡ length (pushed out.old.items out.new.items) }
    ensures capacity { vec_capacity out.new ≡ vec_capacity out.old }
{
    let mut held = take_out(rt, lock, batch, pass);
    batch.set(true);
    let state = held.as_mut();
    let count = state.take_many(n, out);
    state.facts();
    put_back(rt, lock, pass, held);
    batch.set(false);
    count
}

impl SharedRing {
    /// Takes the record at the consumer position: returns a submitted one with its bytes, or skips a discarded one.
    /// Both increase a count of the seat and advance its position. A busy record stops it, whatever is after that
    /// record.
    pub fn take<R: Wait>(&self, rt: &R, seat: &mut ConsumerSeat) -> Result<Taken, Foreign>
        requires ring { seat.old.tag ≡ self.now.tag → seat.old.ring ≡ self.now.ring }
        ensures foreign { IsErr result ↔ (seat.old.tag ≢ self.now.tag) }
        ensures unchanged { seat.old.tag ≢ self.now.tag → seat.new ≡ seat.old }
        ensures seat { IsSameChapterConsumer seat.old seat.new }
        ensures chapters { seat.new.handed_out ≡ seat.old.handed_out }
        ensures released { (seat.old.out ≡ None) × (seat.new.out ≡ None) }
        ensures call { IfOk result (λ t. LockedCall Consumer seat.old.seen seat.new.seen (InRoomBehind seat.old.room (entries_out seat.old) (TakesAt t))) }
        ensures place { IfOk result (λ t. IsTakenAt seat.old.position t) }
        ensures position { IfOk result (λ t. seat.new.position ≡ seat.old.position + span_in t) }
        ensures consumed { IfOk result (λ t. seat.new.consumed ≡ seat.old.consumed + events_in t) }
        ensures skipped { IfOk result (λ t. seat.new.skipped ≡ seat.old.skipped + skips_in t) }
        ensures got { IfOk result (λ t. seat.new.got ≡ got_by seat.old.got t) }
    {
        if seat.tag != self.tag {
            return Err(Foreign);
        }
        let answer = take_with(rt, &self.lock, &self.batch, &mut seat.pass);
        let moves = moves_by(&answer);
        let Moves {
            events,
            skips,
            span,
        } = moves;
        seat.consumed += events;
        seat.skipped += skips;
        seat.position += span;
        Ok(answer)
    }

    /// Takes up to `n` records, as `n` calls of `take` with nothing between them, and pushes each that was returned or
    /// skipped onto `out`. Returns how many these are. (Linux Documentation/bpf/ringbuf.rst: records are consumed in
    /// the order of their reservation.)
    ///
    /// It stops before the first take that finds a busy record or no record. The lock is acquired once, for these takes
    /// only, each of which takes constant time; nothing is allocated. Returns `Foreign` first, and then leaves `out` as
    /// it was.
    pub fn take_many<R: Wait>(
        &self,
        rt: &R,
        seat: &mut ConsumerSeat,
        n: usize,
        out: &mut Vec<Taken>,
    ) -> Result<usize, Foreign>
        requires ring { seat.old.tag ≡ self.now.tag → seat.old.ring ≡ self.now.ring }
        requires room { vec_len out.old + n ≤ vec_capacity out.old }
        ensures foreign { IsErr result ↔ (seat.old.tag ≢ self.now.tag) }
        ensures unchanged { seat.old.tag ≢ self.now.tag → seat.new ≡ seat.old }
        ensures none_pushed { seat.old.tag ≢ self.now.tag → out.new ≡ out.old }
        ensures seat { IsSameChapterConsumer seat.old seat.new }
        ensures chapters { seat.new.handed_out ≡ seat.old.handed_out }
        ensures released { (seat.old.out ≡ None) × (seat.new.out ≡ None) }
        ensures kept { out.new.items ≡ out.old.items ++ pushed out.old.items out.new.items }
        ensures capacity { vec_capacity out.new ≡ vec_capacity out.old }
        ensures count { IfOk result (λ count. count ≡ length (pushed out.old.items out.new.items)) }
        ensures call { OnOk result (LockedCall Consumer seat.old.seen seat.new.seen (InRoomBehind seat.old.room (entries_out seat.old) (TakesMany n (pushed out.old.items out.new.items)))) }
        ensures place { OnOk result (AreTakenFrom seat.old.position (pushed out.old.items out.new.items)) }
        ensures position { OnOk result (seat.new.position ≡ seat.old.position + span_among (pushed out.old.items out.new.items)) }
        ensures consumed { OnOk result (seat.new.consumed ≡ seat.old.consumed + events_among (pushed out.old.items out.new.items)) }
        ensures skipped { OnOk result (seat.new.skipped ≡ seat.old.skipped + skips_among (pushed out.old.items out.new.items)) }
        ensures got { OnOk result (seat.new.got ≡ got_by_all seat.old.got (pushed out.old.items out.new.items)) }
    {
        if seat.tag != self.tag {
            return Err(Foreign);
        }
        let before = out.len();
        let count = take_many_with(rt, &self.lock, &self.batch, &mut seat.pass, n, out);
        let moves = moves_of(&out[before..]);
        let Moves {
            events,
            skips,
            span,
        } = moves;
        seat.consumed += events;
        seat.skipped += skips;
        seat.position += span;
        Ok(count)
    }
}

// What takes add to the consumer's counts: the events, the skipped records, and how far they advance its position.
struct Moves {
    events: u64,
    skips: u64,
    span: u64,
}

// Returns what these results of `take` add.
fn moves_of(answers: &[Taken]) -> Moves
    requires events { events_among answers.now < 2 ^ 64 }
    requires skips { skips_among answers.now < 2 ^ 64 }
    requires span { span_among answers.now < 2 ^ 64 }
    ensures events { result.events ≡ events_among answers.now }
    ensures skips { result.skips ≡ skips_among answers.now }
    ensures span { result.span ≡ span_among answers.now }
{
    let mut moves = Moves {
        events: 0,
        skips: 0,
        span: 0,
    };
    for answer in answers {
        let Moves {
            events,
            skips,
            span,
        } = moves_by(answer);
        moves.events += events;
        moves.skips += skips;
        moves.span += span;
    }
    moves
}

#[inline(always)]
// Returns what a result of `take` adds.
fn moves_by(answer: &Taken) -> Moves
    ensures events { result.events ≡ events_in answer.now }
    ensures skips { result.skips ≡ skips_in answer.now }
    ensures span { result.span ≡ span_in answer.now }
{
    match answer {
        Taken::Event(_, _, _, sheet) => Moves {
            events: 1,
            skips: 0,
            span: span(sheet.len()),
        },
        Taken::Skipped(_, n) => Moves {
            events: 0,
            skips: 1,
            span: span(*n),
        },
        Taken::BusyFront | Taken::Empty => Moves {
            events: 0,
            skips: 0,
            span: 0,
        },
    }
}
