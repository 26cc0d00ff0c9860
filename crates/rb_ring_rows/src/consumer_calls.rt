//! The calls of a shared ring's consumer.

ghost use Rattle.std.specs.Prelude.{◌≡◌};
ghost use Rattle.rb_shared_ring.specs.SharedSeats.{IsSameChapterConsumer};

use crate::answers::{tell_all_taken, tell_handed_out, tell_skipped, tell_taken};
use crate::text::Text;
use rb_chapter_ring::Chapter;
use rb_consumer::{Batch, Keeper};
use rb_history::Taken;
use rb_shared_ring::{ConsumerSeat, Foreign, HandFault, SharedRing};
use rb_tape::Item;
use std::alloc::Global;
use std::sync::Wait;

/// A call of the consumer.
#[derive(Drop)]
pub(crate) enum ConsumerCall<'a> {
    Take,
    TakeMany(usize),
    Fill(usize),
    Used,
    /// Makes the ring continue in an empty chapter, which is replaced by the chapter that was handed out.
    HandOut(&'a mut Option<Chapter>),
    /// Makes a keeper check the ring's chapter.
    Turn(&'a mut Keeper),
}

/// Makes a consumer's call at a ring.
pub(crate) fn consume<R: Wait>(
    rt: &R,
    alloc: Global,
    ring: &SharedRing,
    seat: &mut ConsumerSeat,
    call: ConsumerCall<'_>,
    out: &mut Text,
)
    requires ring { seat.old.tag ≡ ring.now.tag → seat.old.ring ≡ ring.now.ring }
    ensures seat { IsSameChapterConsumer seat.old seat.new }
{
    match call {
        ConsumerCall::Take => tell_take(ring.take(rt, seat), out),
        ConsumerCall::TakeMany(n) => take_many(rt, alloc, ring, seat, n, out),
        ConsumerCall::Fill(n) => fill(rt, alloc, ring, seat, n, out),
        ConsumerCall::Used => tell_used(ring.used(rt, seat), out),
        ConsumerCall::HandOut(chapter) => {
            if let Some(empty) = chapter.take() {
                *chapter = Some(hand_out(rt, ring, seat, empty, out));
            }
        }
        ConsumerCall::Turn(keeper) => turn(rt, ring, seat, keeper, out),
    }
}

fn tell_take(answer: Result<Taken, Foreign>, out: &mut Text) {
    match answer {
        Ok(taken) => tell_taken(out, &taken),
        Err(Foreign) => out.word("foreign"),
    }
}

fn tell_used(answer: Result<(u32, u32), Foreign>, out: &mut Text) {
    match answer {
        Ok((used, owed)) => {
            out.field("used", u64::from(used));
            out.field("owed", u64::from(owed));
        }
        Err(Foreign) => out.word("foreign"),
    }
}

fn take_many<R: Wait>(
    rt: &R,
    alloc: Global,
    ring: &SharedRing,
    seat: &mut ConsumerSeat,
    n: usize,
    out: &mut Text,
)
    requires ring { seat.old.tag ≡ ring.now.tag → seat.old.ring ≡ ring.now.ring }
    ensures seat { IsSameChapterConsumer seat.old seat.new }
{
    let Ok(mut taken) = Vec::with_capacity(alloc, n) else {
        return out.word("fault: no memory");
    };
    match ring.take_many(rt, seat, n, &mut taken) {
        Ok(many) => tell_all_taken(out, many, taken.as_slice()),
        Err(Foreign) => out.word("foreign"),
    }
}

// Makes a ring continue in an empty chapter. Returns the chapter that was handed out, or the empty one.
fn hand_out<R: Wait>(
    rt: &R,
    ring: &SharedRing,
    seat: &mut ConsumerSeat,
    empty: Chapter,
    out: &mut Text,
) -> Chapter
    requires ring { seat.old.tag ≡ ring.now.tag → seat.old.ring ≡ ring.now.ring }
    ensures seat { IsSameChapterConsumer seat.old seat.new }
{
    match ring.hand_out(rt, seat, empty) {
        Ok(chapter) => {
            tell_handed_out(out, &chapter);
            chapter
        }
        Err((HandFault::Foreign, back)) => {
            out.word("foreign");
            back
        }
        Err((HandFault::Unfit, back)) => {
            out.word("unfit");
            back
        }
    }
}

// Fills a batch of up to this many records, and appends what it lends: all records, the number of events, and the
// number of sheets that it returns.
fn fill<R: Wait>(
    rt: &R,
    alloc: Global,
    ring: &SharedRing,
    seat: &mut ConsumerSeat,
    n: usize,
    out: &mut Text,
)
    requires ring { seat.old.tag ≡ ring.now.tag → seat.old.ring ≡ ring.now.ring }
    ensures seat { IsSameChapterConsumer seat.old seat.new }
{
    let Ok(mut batch) = Batch::with_capacity(alloc, n) else {
        return out.word("fault: no memory");
    };
    match batch.fill(rt, ring, seat) {
        Ok(count) => {
            out.field("filled", count as u64);
            tell_batch(&mut batch, count, out);
        }
        Err(Foreign) => out.word("foreign"),
    }
}

fn tell_batch(batch: &mut Batch, count: usize, out: &mut Text) {
    for item in batch.items() {
        out.push(";");
        tell_item(&item, out);
    }
    out.push(";");
    out.field("events", count_events(batch));
    out.field("sheets", count_sheets(batch, count));
}

fn count_events(batch: &Batch) -> u64 {
    let mut events = 0u64;
    for _ in batch.events() {
        events = events.wrapping_add(1);
    }
    events
}

// Returns how many of this many sheets a batch returns.
fn count_sheets(batch: &mut Batch, count: usize) -> u64 {
    let mut sheets = 0u64;
    for _ in 0..count {
        if batch.recycle().is_some() {
            sheets = sheets.wrapping_add(1);
        }
    }
    sheets
}

fn tell_item(item: &Item<'_>, out: &mut Text) {
    match item {
        Item::Event(event) => {
            out.word("event");
            out.field("pos", event.pos);
            out.field("worker", u64::from(event.worker));
            out.field("serial", event.serial);
            out.contents(event.bytes);
        }
        Item::Skip(pos, len) => tell_skipped(out, *pos, *len),
    }
}

// Makes a keeper check a ring's chapter.
fn turn<R: Wait>(
    rt: &R,
    ring: &SharedRing,
    seat: &mut ConsumerSeat,
    keeper: &mut Keeper,
    out: &mut Text,
)
    requires ring { seat.old.tag ≡ ring.now.tag → seat.old.ring ≡ ring.now.ring }
    ensures seat { IsSameChapterConsumer seat.old seat.new }
{
    match keeper.turn(rt, ring, seat) {
        Ok(Some(chapter)) => tell_handed_out(out, chapter),
        Ok(None) => out.word("none"),
        Err(HandFault::Foreign) => out.word("foreign"),
        Err(HandFault::Unfit) => out.word("unfit"),
    }
}
