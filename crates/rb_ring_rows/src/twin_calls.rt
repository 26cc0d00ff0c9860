//! The calls of a ring that keeps a chapter of its history, and of one that keeps all of it in a list.

ghost use Rattle.std.specs.Prelude.{◌≡◌, ◌<◌, IfSome, length};

use crate::answers::{
    open_word, reserve_word, setup_word, tell_end, tell_granted, tell_notice, tell_refusal,
};
use crate::shared_answers::{tell_record, tell_reserved};
use crate::text::Text;
use rb_chapter_ring::{RecordEnd, Reservation, ReserveFault, RingState};
use rb_for_tests::{PlainOpenFault, PlainReservation, PlainRing};
use rb_history::NoGrant;
use rb_lend::Sheet;
use std::alloc::Global;

/// The answer of a ring over chapters to a reserve.
pub(crate) enum ChapterAnswer {
    /// The record that it granted, or none.
    Answered(Option<Reservation>),
    /// The chapter has no room, or the worker has no free hand. The list has neither chapters nor hands.
    Unknown,
}

/// Reserves a record of `n` bytes in this sheet, in the worker's lowest free hand.
pub(crate) fn reserve_in_chapter(
    ring: &mut RingState,
    worker: u32,
    n: u32,
    sheet: Sheet,
    out: &mut Text,
) -> ChapterAnswer
    requires worker { worker < ring.old.state.ring.chapter.opening.setup.workers }
    requires sized { length sheet ≡ n }
{
    let Some(hand) = ring.free_hand(worker) else {
        out.word("fault: no free hand");
        return ChapterAnswer::Unknown;
    };
    let answer = ring.reserve(worker, hand, n, sheet);
    let is_chapter_full = matches!(&answer, Err((ReserveFault::ChapterFull, _)));
    let record = tell_reserved(answer, out);
    if is_chapter_full {
        ChapterAnswer::Unknown
    } else {
        ChapterAnswer::Answered(record)
    }
}

/// Submits or discards a record. If it is not out at the ring, makes no call and returns the reservation.
pub(crate) fn end_in_chapter(
    ring: &mut RingState,
    record: Reservation,
    end: RecordEnd,
    flags: u64,
    out: &mut Text,
) -> Option<Reservation> {
    if !ring.is_out(&record) {
        out.word("stray");
        tell_record(&record, out);
        return Some(record);
    }
    let notice = match end {
        RecordEnd::Submit => ring.submit(record, flags),
        RecordEnd::Discard => ring.discard(record, flags),
    };
    tell_notice(out, notice);
    None
}

/// Submits or discards a record in the list, whether or not the list has the record.
pub(crate) fn end_in_list(
    list: &mut PlainRing,
    record: PlainReservation,
    end: RecordEnd,
    flags: u64,
    out: &mut Text,
) -> Option<PlainReservation>
    ensures { list.new.setup ≡ list.old.setup }
{
    let answer = match end {
        RecordEnd::Submit => list.submit(record, flags),
        RecordEnd::Discard => list.discard(record, flags),
    };
    tell_end(answer, out)
}

/// Outputs a sheet. Returns whether the list makes the call too: not if the chapter has no room.
pub(crate) fn output_in_chapter(
    ring: &mut RingState,
    worker: u32,
    sheet: Sheet,
    flags: u64,
    out: &mut Text,
) -> bool
    requires worker { worker < ring.old.state.ring.chapter.opening.setup.workers }
{
    match ring.output(worker, sheet, flags) {
        Ok(notice) => {
            tell_notice(out, notice);
            true
        }
        Err((fault, back)) => {
            tell_refusal(out, reserve_word(fault), &back);
            fault != ReserveFault::ChapterFull
        }
    }
}

/// Outputs a sheet.
pub(crate) fn output_in_list(
    list: &mut PlainRing,
    worker: u32,
    sheet: Sheet,
    flags: u64,
    out: &mut Text,
)
    requires worker { worker < list.old.setup.workers }
    ensures { list.new.setup ≡ list.old.setup }
{
    match list.output(worker, sheet, flags) {
        Ok(notice) => tell_notice(out, notice),
        Err((fault, back)) => tell_refusal(out, list_word(fault), &back),
    }
}

/// Reserves a record of `n` bytes in this sheet.
pub(crate) fn reserve_in_list(
    list: &mut PlainRing,
    worker: u32,
    n: u32,
    sheet: Sheet,
    out: &mut Text,
) -> Option<PlainReservation>
    requires worker { worker < list.old.setup.workers }
    requires sized { length sheet ≡ n }
    ensures { list.new.setup ≡ list.old.setup }
{
    match list.reserve(worker, n, sheet) {
        Ok(record) => {
            tell_granted(out, &record);
            Some(record)
        }
        Err((fault, back)) => {
            tell_refusal(out, list_word(fault), &back);
            None
        }
    }
}

/// Appends the results of opening both rings.
pub(crate) fn tell_opened(word: &str, list_word: &str, out: &mut Text) {
    out.word(word);
    if word != list_word && word != "refused chapter" {
        out.word("differs");
        out.word(list_word);
    }
}

/// Returns a ring over chapters, or why it is refused.
pub(crate) fn opened_ring(
    alloc: Global,
    size: u64,
    start: u64,
    workers: u32,
    room: u32,
) -> (Option<RingState>, &'static str) {
    match RingState::new(alloc, 0, size, start, workers, room) {
        Ok(ring) => (Some(ring), "opened"),
        Err(fault) => (None, open_word(fault)),
    }
}

/// Returns a ring over a list, or why it is refused.
pub(crate) fn opened_list(
    alloc: Global,
    size: u64,
    start: u64,
    workers: u32,
) -> (Option<PlainRing>, &'static str)
    ensures { IfSome result.0 (λ list. list.setup.workers ≡ workers) }
{
    match PlainRing::new(alloc, size, start, workers) {
        Ok(list) => (Some(list), "opened"),
        Err(PlainOpenFault::Setup(fault)) => (None, setup_word(fault)),
        Err(PlainOpenFault::Memory) => (None, "refused memory"),
    }
}

fn list_word(fault: NoGrant) -> &'static str {
    match fault {
        NoGrant::Full => "full",
        NoGrant::Flags => "flags",
        NoGrant::Memory => "memory",
    }
}
