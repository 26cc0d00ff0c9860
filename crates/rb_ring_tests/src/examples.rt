//! The examples of the crates' module docs, line by line, and one of the plain ring.

ghost use Rattle.std.specs.Prelude.{◌≡◌};
ghost use Rattle.rb_shared_ring.specs.SharedSeats.{IsSameChapterConsumer};

use crate::closed_rings::closed;
use crate::expected::{same, sheet};
use crate::rings_with_seats::{granted, one_seat, submitted};
use rb_chapter_ring::{Chapter, RingState};
use rb_for_tests::{PlainRing, is_grant_of, is_refusal};
use rb_history::{
    Entry, FORCE_WAKEUP, Header, NO_WAKEUP, Notice, SetupFault, Taken, check_setup, notice_for,
    span,
};
use rb_interp::{Part, Parts, Slot};
use rb_lend::{Lent, Sheet};
use rb_shared_ring::{Closing, ConsumerSeat, SharedRing};
use std::alloc::Global;
use std::process::Abort;
use std::sync::Wait;

#[test]
fn example_of_the_bytes_of_a_record(rt: HostRuntime) {
    same(&rt, &span(13), &24);
    let header = Header {
        len: 13,
        busy: false,
        discard: true,
        page: 0,
    };
    let bytes = header.to_bytes();
    same(&rt, &bytes, &[13, 0, 0, 0x40, 0, 0, 0, 0]);
    same(&rt, &Header::from_bytes(&bytes), &Ok(header));
}

// Returns a sheet of four bytes, the second and third of which are 9.
fn two_nines(rt: &impl Abort, alloc: Global) -> Sheet {
    let mut sheet = sheet(rt, alloc, 4);
    sheet.range_mut(1, 2).fill(9);
    sheet
}

#[test]
fn example_of_rb_lend(rt: HostRuntime) {
    let sheet = two_nines(&rt, rt.alloc());
    same(&rt, &sheet.bytes(), &[0, 9, 9, 0].as_slice());
}

#[test]
fn example_of_the_parts_of_memory(rt: HostRuntime) {
    let mut parts: Parts<&[u8], Sheet> = Parts::new([5, 6, 7].as_slice());
    let slot = parts.hold(two_nines(&rt, rt.alloc())).ok();
    let read = parts.read(Part::Record(Slot::First), 0, 2).ok();
    let is_outside = parts.read(Part::Ctx, 2, 2).is_err();
    same(
        &rt,
        &(slot, read, is_outside),
        &(Some(Slot::First), Some([0, 9].as_slice()), true),
    );
    drop(parts);
}

#[test]
fn example_of_rb_history(rt: HostRuntime) {
    same(&rt, &check_setup(4096, 4, 1), &Err(SetupFault::Start));
    let history = [Entry::Res(0, 0, 8, 0), Entry::Sub(0), Entry::Full(0, 4096)];
    let told = [is_grant_of(0, &history[0]), is_refusal(&history[2])];
    same(&rt, &told, &[true, true]);
    let notices = [notice_for(0, 0, NO_WAKEUP), notice_for(0, 16, FORCE_WAKEUP)];
    same(&rt, &notices, &[Notice::NotDue, Notice::Due]);
}

// Whether this is the event of the first record of worker 0.
fn is_first_event(taken: &Taken) -> bool {
    matches!(taken, Taken::Event(0, 0, 0, _))
}

#[test]
fn example_of_the_plain_ring(rt: HostRuntime) {
    let mut ring = PlainRing::new(rt.alloc(), 4096, 0, 1).expect(&rt, "a ring");
    let notice = submit_first(&rt, rt.alloc(), &mut ring);
    let is_event = is_first_event(&ring.take());
    same(
        &rt,
        &(notice, is_event, ring.counts().consumed),
        &(Some(Notice::Due), true, 1),
    );
    drop(ring);
}

// Submits a record of four bytes. Returns the notice.
fn submit_first(rt: &impl Abort, alloc: Global, ring: &mut PlainRing) -> Option<Notice>
    requires { ring.old.setup.workers ≡ 1 }
{
    let reserved = ring.reserve(0, 4, sheet(rt, alloc, 4));
    let mut record = reserved.ok().expect(rt, "a record");
    record.bytes_mut().fill(42);
    ring.submit(record, 0).ok()
}

// Returns the number of the chapter that the ring hands out, and its number of entries.
fn handed_out(rt: &impl Abort, alloc: Global, ring: &mut RingState) -> (u64, u32) {
    let empty = Chapter::new(alloc, 8, 1).expect(rt, "memory");
    let chapter = ring.hand_out(empty).ok().expect(rt, "a chapter");
    (chapter.number(), chapter.used())
}

#[test]
fn example_of_rb_chapter_ring(rt: HostRuntime) {
    let mut ring = RingState::new(rt.alloc(), 7, 4096, 0, 1, 8).expect(&rt, "a ring");
    let reserved = ring.reserve(0, 2, 4, sheet(&rt, rt.alloc(), 4));
    let record = reserved.ok().expect(&rt, "a record");
    let names = (record.tag(), record.hand());
    let hands = (ring.is_out(&record), ring.free_hand(0));
    let notice = ring.submit(record, 0);
    let chapter = handed_out(&rt, rt.alloc(), &mut ring);
    same(
        &rt,
        &(names, hands, notice, chapter, is_first_event(&ring.take())),
        &((7, 2), (true, Some(0)), Notice::Due, (0, 2), true),
    );
    drop(ring);
}

// Returns the chapter that the ring hands out, and whether the next record is the first of worker 0.
fn chapter_and_event<R: Wait + Abort>(
    rt: &R,
    alloc: Global,
    ring: &SharedRing,
    consumer: &mut ConsumerSeat,
) -> (Chapter, bool)
    requires { consumer.old.ring ≡ ring.now.ring }
    ensures { IsSameChapterConsumer consumer.old consumer.new }
{
    let empty = Chapter::new(alloc, 8, 1).expect(rt, "memory");
    let chapter = match ring.hand_out(rt, consumer, empty) {
        Ok(chapter) => chapter,
        Err(_) => rt.panic("not handed out"),
    };
    match ring.take(rt, consumer) {
        Ok(taken) => (chapter, is_first_event(&taken)),
        Err(_) => rt.panic("not taken"),
    }
}

// Returns how many chapters a closed ring's history was bound from, and its number of entries.
fn bound(rt: &impl Abort, alloc: Global, closing: Closing, chapter: Chapter) -> (usize, usize) {
    let chapters = vec![in alloc; chapter].expect(rt, "memory");
    match closing.bind(alloc, chapters) {
        Ok(whole) => (whole.chapters().len(), whole.history().len()),
        Err(_) => rt.panic("not bound"),
    }
}

#[test]
fn example_of_rb_shared_ring(rt: HostRuntime) {
    let (ring, mut seat, mut consumer) = one_seat(&rt, rt.alloc(), 7, 8);
    let record = granted(&rt, rt.alloc(), &ring, &mut seat, 8);
    submitted(&rt, &ring, &mut seat, record, 0);
    let used = ring.used(&rt, &mut consumer);
    let (chapter, is_event) = chapter_and_event(&rt, rt.alloc(), &ring, &mut consumer);
    same(&rt, &(used, is_event), &(Ok((2, 1)), true));
    let seats = vec![in rt.alloc(); seat].expect(&rt, "memory");
    let closing = closed(&rt, ring, seats, consumer);
    same(&rt, &bound(&rt, rt.alloc(), closing, chapter), &(1, 3));
}
