//! The ring that threads share, through the seats of two workers.

ghost use Rattle.std.specs.Prelude.{◌≡◌, IfOk};
ghost use Rattle.rb_ledger.specs.Seats.{IsSameSeat, fresh_book, fresh_seats};
ghost use Rattle.rb_ledger.specs.ChapterSeats.{fresh_chapter_consumer};
ghost use Rattle.rb_shared_ring.specs.SharedSeats.{IsSameChapterConsumer};

use super::closed_rings::{bind, close};
use super::memory::{TRIES, tell_memory};
use super::rings::ROOM;
use super::sheets::filled;
use crate::fault::TrialFault;
use crate::fields::{end_line, print_field};
use rb_chapter_ring::Chapter;
use rb_for_tests::OpenRing;
use rb_history::Taken;
use rb_shared_ring::{ConsumerSeat, OpenFault, Seat, SharedRing};
use std::alloc::Global;
use std::io::Print;
use std::sync::Wait;

/// Outputs a record of eight bytes with each of two workers' seats, hands out the chapter, takes one record, and closes
/// the ring, with one of the two seats and then with both; then binds its chapters.
pub(crate) fn run<R: Wait + Print>(rt: &R, alloc: Global) -> Result<(), TrialFault> {
    let mut open = opened(rt, alloc)?;
    let Some(one) = open.seats.pop() else {
        return Err(TrialFault::Otherwise("seats"));
    };
    let Some(zero) = open.seats.pop() else {
        return Err(TrialFault::Otherwise("seats"));
    };
    run_over(rt, alloc, open, zero, one)
}

// Makes the calls over a ring; the list has room for the two seats.
fn run_over<R: Wait + Print>(
    rt: &R,
    alloc: Global,
    opened: OpenRing,
    zero: Seat,
    one: Seat,
) -> Result<(), TrialFault>
    requires zero { zero.ring ≡ opened.ring.ring }
    requires one { one.ring ≡ opened.ring.ring }
    requires consumer { opened.consumer.ring ≡ opened.ring.ring }
{
    let (mut opened, mut zero, mut one) = (opened, zero, one);
    let chapters = send_and_take(
        rt,
        alloc,
        &opened.ring,
        &mut zero,
        &mut one,
        &mut opened.consumer,
    )?;
    match close(rt, opened, zero, one) {
        Some(closing) => bind(rt, alloc, closing, chapters),
        None => Err(TrialFault::Otherwise("close")),
    }
}

// Makes the outputs and the take, and hands out the chapter between them.
fn send_and_take<R: Wait + Print>(
    rt: &R,
    alloc: Global,
    ring: &SharedRing,
    zero: &mut Seat,
    one: &mut Seat,
    consumer: &mut ConsumerSeat,
) -> Result<Vec<Chapter>, TrialFault>
    requires seats { (zero.old.ring ≡ ring.now.ring) × (one.old.ring ≡ ring.now.ring) }
    requires consumer { consumer.old.ring ≡ ring.now.ring }
    ensures zero { IsSameSeat zero.old zero.new }
    ensures one { IsSameSeat one.old one.new }
    ensures consumer { IsSameChapterConsumer consumer.old consumer.new }
{
    output(rt, alloc, ring, zero)?;
    output(rt, alloc, ring, one)?;
    let chapters = handed_out(rt, alloc, ring, consumer)?;
    take(rt, ring, consumer)?;
    Ok(chapters)
}

// Takes a record, and prints its worker.
fn take<R: Wait + Print>(
    rt: &R,
    ring: &SharedRing,
    consumer: &mut ConsumerSeat,
) -> Result<(), TrialFault>
    requires { consumer.old.ring ≡ ring.now.ring }
    ensures { IsSameChapterConsumer consumer.old consumer.new }
{
    match ring.take(rt, consumer) {
        Ok(Taken::Event(pos, worker, _, sheet)) => {
            print_field(rt, "take: ", &pos);
            print_field(rt, " of worker ", &worker);
            print_field(rt, ", ", &sheet.len());
            print_field(rt, " bytes", &"\n");
            Ok(())
        }
        _ => Err(TrialFault::Otherwise("take")),
    }
}

/// Returns a shared ring of 4,096 bytes with two workers.
pub(crate) fn opened<R: Wait + Print>(rt: &R, alloc: Global) -> Result<OpenRing, TrialFault>
    ensures tag { IfOk result (λ o. o.ring.tag ≡ 7) }
    ensures seats { IfOk result (λ o. o.seats.items ≡ fresh_seats 7 o.ring.ring 8 (fresh_book 4096 0 2) 0 2) }
    ensures consumer { IfOk result (λ o. o.consumer ≡ fresh_chapter_consumer 7 o.ring.ring 8 (fresh_book 4096 0 2)) }
{
    for _ in 0..TRIES {
        match OpenRing::open(rt, alloc, 7, 4096, 2, ROOM) {
            Ok(opened) => return Ok(opened),
            Err(OpenFault::Memory) => tell_memory(rt, "open"),
            Err(_) => return Err(TrialFault::Otherwise("open")),
        }
    }
    Err(TrialFault::Twice("open"))
}

// Outputs eight bytes, whose sheet needs no allocation.
fn output<R: Wait + Print>(
    rt: &R,
    alloc: Global,
    ring: &SharedRing,
    seat: &mut Seat,
) -> Result<(), TrialFault>
    requires { seat.old.ring ≡ ring.now.ring }
    ensures { IsSameSeat seat.old seat.new }
{
    let Some(sheet) = filled(alloc, 8) else {
        return Err(TrialFault::Otherwise("sheet"));
    };
    if ring.output(rt, seat, sheet, 0).is_err() {
        return Err(TrialFault::Otherwise("output"));
    }
    print_field(rt, "output: made ", &seat.made());
    end_line(rt);
    Ok(())
}

// Returns a list of the ring's first chapter.
fn handed_out<R: Wait + Print>(
    rt: &R,
    alloc: Global,
    ring: &SharedRing,
    consumer: &mut ConsumerSeat,
) -> Result<Vec<Chapter>, TrialFault>
    requires { consumer.old.ring ≡ ring.now.ring }
    ensures { IsSameChapterConsumer consumer.old consumer.new }
{
    let mut chapters = empty_chapter(rt, alloc)?;
    let Some(empty) = chapters.pop() else {
        return Err(TrialFault::Otherwise("list"));
    };
    let Ok(chapter) = ring.hand_out(rt, consumer, empty) else {
        return Err(TrialFault::Otherwise("hand out"));
    };
    print_field(rt, "hand out: ", &chapter.used());
    print_field(rt, " entries", &"\n");
    // The list has room for it.
    match chapters.push(chapter) {
        Ok(()) => Ok(chapters),
        Err(_) => Err(TrialFault::Otherwise("list")),
    }
}

// Returns a list of an empty chapter for two workers.
fn empty_chapter<R: Print>(rt: &R, alloc: Global) -> Result<Vec<Chapter>, TrialFault> {
    for _ in 0..TRIES {
        if let Ok(chapter) = Chapter::new(alloc, ROOM, 2)
            && let Ok(list) = vec![in alloc; chapter]
        {
            return Ok(list);
        }
        tell_memory(rt, "chapter");
    }
    Err(TrialFault::Twice("chapter"))
}
