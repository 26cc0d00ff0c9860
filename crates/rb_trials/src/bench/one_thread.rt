//! Records through the ring of one thread.

ghost use Rattle.std.specs.Prelude.{◌≡◌, IfOk};

use crate::fault::TrialFault;
use rb_chapter_ring::{Chapter, RingState};
use rb_history::Taken;
use rb_lend::{Lent, Sheet};
use std::alloc::Global;

/// The size of the measured rings, in bytes.
pub(crate) const SIZE: u64 = 65_536;

/// The number of entries that each chapter of a shared ring's history has room for.
pub(crate) const ROOM: u32 = 65_536;

// The number of entries that each chapter of the ring of one thread has room for: 64 kilobytes of entries, which stay
// in the second-level cache.
const COURSE_ROOM: u32 = 8_192;

// The byte that fills each record.
const FILL: u8 = 42;

// A ring for one worker, and the chapter in which it continues.
#[derive(Drop)]
struct Course {
    ring: RingState,
    spare: Option<Chapter>,
}

/// Outputs and takes `records` records of `len` bytes, one after the other, and returns the sum of their first bytes.
/// One sheet and two chapters are reused throughout.
pub(crate) fn output_and_take(alloc: Global, records: u32, len: u32) -> Result<u64, TrialFault> {
    let (mut course, sheet) = opened(alloc, len)?;
    output_rounds(&mut course, sheet, records)
}

fn output_rounds(course: &mut Course, mut sheet: Sheet, records: u32) -> Result<u64, TrialFault>
    requires { course.old.ring.state.ring.chapter.opening.setup.workers ≡ 1 }
{
    let mut sum: u64 = 0;
    for _ in 0..records {
        make_chapter_room(&mut course.ring, &mut course.spare)?;
        sheet = pass(&mut course.ring, sheet)?;
        sum = sum.wrapping_add(first_byte(&sheet));
    }
    Ok(sum)
}

#[inline(always)]
// Sends one record through the ring: fills the sheet, outputs it and takes it.
fn pass(ring: &mut RingState, mut sheet: Sheet) -> Result<Sheet, TrialFault>
    requires { ring.old.state.ring.chapter.opening.setup.workers ≡ 1 }
    ensures { ring.new.state.ring.chapter.opening ≡ ring.old.state.ring.chapter.opening }
{
    sheet.bytes_mut().fill(FILL);
    if ring.output(0, sheet, 0).is_err() {
        return Err(TrialFault::Lost);
    }
    next_sheet(ring)
}

/// Reserves, writes, submits and takes `records` records of `len` bytes, one after the other, and returns the sum of
/// their first bytes. One sheet and two chapters are reused throughout.
pub(crate) fn reserve_and_submit(alloc: Global, records: u32, len: u32) -> Result<u64, TrialFault> {
    let (mut course, sheet) = opened(alloc, len)?;
    submit_rounds(&mut course, sheet, records)
}

fn submit_rounds(course: &mut Course, mut sheet: Sheet, records: u32) -> Result<u64, TrialFault>
    requires { course.old.ring.state.ring.chapter.opening.setup.workers ≡ 1 }
{
    let mut sum: u64 = 0;
    for _ in 0..records {
        make_chapter_room(&mut course.ring, &mut course.spare)?;
        hold_and_submit(&mut course.ring, sheet)?;
        sheet = next_sheet(&mut course.ring)?;
        sum = sum.wrapping_add(first_byte(&sheet));
    }
    Ok(sum)
}

#[inline(always)]
// Reserves, writes and submits one record of the sheet's length.
fn hold_and_submit(ring: &mut RingState, sheet: Sheet) -> Result<(), TrialFault>
    requires { ring.old.state.ring.chapter.opening.setup.workers ≡ 1 }
    ensures { ring.new.state.ring.chapter.opening ≡ ring.old.state.ring.chapter.opening }
{
    let Some(hand) = ring.free_hand(0) else {
        return Err(TrialFault::Lost);
    };
    let n = sheet.len();
    let Ok(mut reservation) = ring.reserve(0, hand, n, sheet) else {
        return Err(TrialFault::Lost);
    };
    reservation.bytes_mut().fill(FILL);
    ring.submit(reservation, 0);
    Ok(())
}

// Returns an empty ring for one worker with an empty chapter, and a sheet of `len` bytes.
fn opened(alloc: Global, len: u32) -> Result<(Course, Sheet), TrialFault>
    ensures { IfOk result (λ o. o.0.ring.state.ring.chapter.opening.setup.workers ≡ 1) }
{
    let course = empty_course(alloc)?;
    let sheet = Sheet::new(alloc, len)?;
    Ok((course, sheet))
}

fn empty_course(alloc: Global) -> Result<Course, TrialFault>
    ensures { IfOk result (λ course. course.ring.state.ring.chapter.opening.setup.workers ≡ 1) }
{
    let Ok(ring) = RingState::new(alloc, 0, SIZE, 0, 1, COURSE_ROOM) else {
        return Err(TrialFault::Memory);
    };
    let spare = Chapter::new(alloc, COURSE_ROOM, 1)?;
    Ok(Course {
        ring,
        spare: Some(spare),
    })
}

#[inline(always)]
// Lets the ring continue in the spare chapter if its own has no room for another record.
fn make_chapter_room(ring: &mut RingState, spare: &mut Option<Chapter>) -> Result<(), TrialFault>
    ensures { ring.new.state.ring.chapter.opening.setup ≡ ring.old.state.ring.chapter.opening.setup }
{
    if ring.chapter().may_grant() {
        return Ok(());
    }
    turn_chapter(ring, spare)
}

#[cold]
#[inline(never)]
// Hands out the ring's chapter in exchange for the spare one. The old one is cleared, and becomes the spare one.
fn turn_chapter(ring: &mut RingState, spare: &mut Option<Chapter>) -> Result<(), TrialFault>
    ensures { ring.new.state.ring.chapter.opening.setup ≡ ring.old.state.ring.chapter.opening.setup }
{
    let Some(empty) = spare.take() else {
        return Err(TrialFault::Lost);
    };
    let Ok(mut full) = ring.hand_out(empty) else {
        return Err(TrialFault::Lost);
    };
    full.clear();
    *spare = Some(full);
    Ok(())
}

#[inline(always)]
// Takes the next record and returns its bytes.
fn next_sheet(ring: &mut RingState) -> Result<Sheet, TrialFault>
    ensures { ring.new.state.ring.chapter.opening ≡ ring.old.state.ring.chapter.opening }
{
    match ring.take() {
        Taken::Event(_, _, _, sheet) => Ok(sheet),
        _ => Err(TrialFault::Lost),
    }
}

fn first_byte(sheet: &Sheet) -> u64 {
    match sheet.bytes().first() {
        Some(byte) => u64::from(*byte),
        None => 0,
    }
}
