//! A ring for one thread that turns its own chapters: when its chapter (the current segment of its history) is full, it
//! continues in an empty one.

ghost use Rattle.std.specs.Prelude.{◌≡◌, ◌<◌, IfNone, IfSome, length};
ghost use Rattle.rb_chapter_ring.specs.Chapters.{IsChapterRoom};
ghost use Rattle.rb_history.specs.RingModel.{IsRingSize};
ghost use Rattle.rb_engine.specs.OpenedEngine.{chapter_room};

use rb_chapter_ring::{
    Chapter, OpenFault, RecordEnd, Reservation, ReserveFault, RingState, UntakenStatus,
};
use rb_history::{Counts, Notice, Taken};
use rb_lend::{Lent, Sheet};
use std::alloc::{AllocError, Global};
use std::marker::Model;

/// The worker's number: the engine is the only worker of each of its rings.
const WORKER: u32 = 0;

/// The maximal room of a chapter, in entries.
const MAX_ROOM: u64 = 1 << 20;

/// Why bytes were not output to a ring.
#[derive(Clone, Copy, Debug, PartialEq, Eq)]
pub enum NotSent {
    /// The ring or its chapter has no room for the record.
    Full,
    /// Memory for more than 16 bytes could not be allocated, or there are more than `u32::MAX` bytes. Nothing changed.
    Memory,
}

/// A ring for one thread, with the chapter in which it continues when its own is full. Contracts see the ring with its
/// hands (slots for records in flight).
///
/// `new` allocates all memory, except that of records of more than 16 bytes.
#[derive(Drop)]
pub(crate) struct EngineRing {
    ring: RingState,
    // The chapter in which the ring continues; it is empty.
    spare: Option<Chapter>,
}

impl Model for EngineRing {
    ghost use Rattle.std.specs.Coded.{codes};
    ghost use Rattle.rb_history.specs.RingModel.{contents_code};
    ghost use Rattle.rb_history.specs.contracts.entries.Entry as entry;
    ghost use Rattle.rb_history.specs.contracts.tally.Tally as tally_row;
    ghost use Rattle.rb_chapter_ring.specs.contracts.out_record.OutRecord as out_row;
    ghost use Rattle.rb_chapter_ring.specs.HandRing.{HandRing};

    ghost Value = { HandRing };

    ghost coded = { Prim.hlevel (codes, contents_code, entry.the_row.coded, tally_row.the_row.coded, out_row.the_row.coded) };

    ghost view = { λ s. s.ring.state };
}

impl EngineRing {
    ghost use Rattle.std.specs.Prelude.{ℕ, ◌≡◌, ◌≢◌, ◌↔◌, ◌<◌, ◌≤◌, ◌⊎◌, List, IfErr, IfNone, IfOk, IfSome, IsErrOf, IsTrue, length, replicate};
    ghost use Rattle.rb_history.specs.declared.answers.Notice.TheVariants.{Due};
    ghost use Rattle.rb_history.specs.declared.entries.Entry.{Entry};
    ghost use Rattle.rb_history.specs.NoticesAndQueries.{IsDue};
    ghost use Rattle.rb_chapter_ring.specs.ChapterCalls.{consumer_by_chapter};
    ghost use Rattle.rb_chapter_ring.specs.ChapterRing.{StandsForChapter};
    ghost use Rattle.rb_chapter_ring.specs.CountedFrom.{query_answer_from};
    ghost use Rattle.rb_chapter_ring.specs.HandRing.{HasInHand};
    ghost use Rattle.rb_chapter_ring.specs.Hands.{IsFree, hands_of};
    ghost use Rattle.rb_chapter_ring.specs.OpenedRing.{told_counts};
    ghost use Rattle.rb_chapter_ring.specs.RecordEnds.{EndsFromHand};
    ghost use Rattle.rb_chapter_ring.specs.WholeHistory.{IsKept};
    ghost use Rattle.rb_engine.specs.OpenedEngine.{fresh_ring};
    ghost use Rattle.rb_engine.specs.RingCalls.{Grants, HasNoRoom, HasWaitingFront, IsNotSent, IsRefused, Outputs, Takes, WasFront};
    ghost use Rattle.rb_engine.specs.RingTurns.{AfterTurn, MayTurn};
    ghost use Rattle.rb_engine.specs.declared.engine_ring.NotSent.TheVariants.{Full, Memory};

    /// Returns a ring of `size` bytes without records, whose tag is `number`. Fails only if memory can't be allocated.
    pub(crate) fn new(alloc: Global, number: u32, size: u64) -> Result<EngineRing, AllocError>
        requires size { IsRingSize size }
        ensures opened { IfOk result (λ r. r ≡ fresh_ring size) }
    {
        let room = room_for(size);
        let ring = match RingState::new(alloc, u64::from(number), size, 0, 1, room) {
            Ok(ring) => ring,
            Err(OpenFault::Memory) => return Err(AllocError),
            Err(_) => unreachable!(),
        };
        let spare = Chapter::new(alloc, room, 1)?;
        Ok(EngineRing {
            ring,
            spare: Some(spare),
        })
    }

    /// States the invariant of a ring: its chapter is legal from its opening, which is the summary of a legal history;
    /// the ring's state agrees with the chapter; and the ring has a worker.
    ///
    /// For the proofs of callers; the function does nothing.
    pub(crate) fn facts(&self)
        ensures kept { (earlier : List Entry) × IsKept earlier self.now.ring.chapter }
        ensures stands { StandsForChapter self.now.ring }
        ensures worker { 1 ≤ self.now.ring.chapter.opening.setup.workers }
    {
        self.ring.facts();
    }

    // Continues in the spare chapter. The old chapter is emptied and becomes the spare one.
    #[cold]
    #[inline(never)]
    fn turn(&mut self)
        ensures turned { MayTurn self.old self.new }
    {
        let Some(empty) = self.spare.take() else {
            return;
        };
        let answer = self.ring.hand_out(empty);
        self.spare = Some(emptied(answer));
    }

    // Turns the chapter if it has no room for a record and at least an eighth of its room is used. The second condition
    // keeps the time of turns constant per entry, amortized.
    fn make_room(&mut self)
        ensures turned { MayTurn self.old self.new }
    {
        let chapter = self.ring.chapter();
        if !chapter.may_grant() && chapter.used() >= chapter.room() / 8 {
            self.turn();
        }
    }

    /// Reserves a record of `n` zero bytes. Returns `None` if there is no room, if no hand is free, or if memory for
    /// more than 16 bytes can't be allocated.
    pub(crate) fn reserve(&mut self, alloc: Global, n: u32) -> Option<Reservation>
        ensures granted { IfSome result (λ r. AfterTurn (Grants n r) self.old self.new) }
        ensures zeros { IfSome result (λ r. r.granted.bytes ≡ replicate n 0) }
        ensures refused { IfNone result (IsRefused n self.old self.new) }
    {
        self.facts();
        let Some(hand) = self.ring.free_hand(WORKER) else {
            return None;
        };
        let Ok(sheet) = Sheet::new(alloc, n) else {
            return None;
        };
        self.make_room();
        self.reserve_in(hand, n, sheet)
    }

    // Reserves a record in the current chapter.
    fn reserve_in(&mut self, hand: u32, n: u32, sheet: Sheet) -> Option<Reservation>
        requires hand { IsFree (hands_of self.old.hands 0) hand }
        requires sized { length sheet ≡ n }
        ensures granted { IfSome result (λ r. Grants n r self.old self.new) }
        ensures zeros { IfSome result (λ r. r.granted.bytes ≡ replicate n 0) }
        ensures refused { IfNone result (HasNoRoom n self.old self.new) }
    {
        self.facts();
        let Ok(reservation) = self.ring.reserve(WORKER, hand, n, sheet) else {
            return None;
        };
        Some(reservation)
    }

    /// Returns whether the reservation's record is in its hand, so that it may be submitted or discarded.
    pub(crate) fn is_out(&self, reservation: &Reservation) -> bool
        ensures exact { IsTrue result ↔ HasInHand self.now reservation.now.hand reservation.now.granted }
    {
        self.ring.is_out(reservation)
    }

    /// Submits or discards the reservation's record, as `end` says. The record must be in its hand.
    pub(crate) fn settle(&mut self, reservation: Reservation, end: RecordEnd, flags: u64) -> Notice
        requires out { HasInHand self.old reservation.hand reservation.granted }
        ensures ended { EndsFromHand end reservation.hand reservation.granted self.old self.new }
        ensures notice { (result ≡ Due) ↔ IsDue (consumer_by_chapter self.old.ring) reservation.granted.pos flags }
    {
        self.ring.settle(reservation, end, flags)
    }

    /// Outputs a copy of the bytes as one record, or returns why it did not.
    pub(crate) fn output(
        &mut self,
        alloc: Global,
        bytes: &[u8],
        flags: u64,
    ) -> Result<Notice, NotSent>
        requires flags { flags ≤ 3 }
        ensures sent { IfOk result (λ notice. AfterTurn (Outputs bytes.now flags notice) self.old self.new) }
        ensures not_sent { IfErr result (λ _. IsNotSent (length bytes.now) self.old self.new) }
        ensures full { IsErrOf result Full → AfterTurn (HasNoRoom (length bytes.now)) self.old self.new }
        ensures memory { IsErrOf result Memory → (16 < length bytes.now) × (self.new ≡ self.old) }
    {
        let Some(sheet) = copy_of(alloc, bytes) else {
            return Err(NotSent::Memory);
        };
        self.make_room();
        self.output_in(sheet, flags)
    }

    // Outputs the sheet (the byte buffer of one record) in the current chapter.
    fn output_in(&mut self, sheet: Sheet, flags: u64) -> Result<Notice, NotSent>
        requires flags { flags ≤ 3 }
        ensures sent { IfOk result (λ notice. Outputs sheet flags notice self.old self.new) }
        ensures not_sent { IfErr result (λ _. HasNoRoom (length sheet) self.old self.new) }
        ensures full { ¬ IsErrOf result Memory }
    {
        self.facts();
        let Ok(notice) = self.ring.output(WORKER, sheet, flags) else {
            return Err(NotSent::Full);
        };
        Ok(notice)
    }

    /// Takes the record at the consumer position, as `RingState::take` does.
    pub(crate) fn take(&mut self) -> Taken
        ensures takes { Takes result self.old self.new }
        ensures front { WasFront result self.old }
    {
        self.facts();
        self.take_next()
    }

    // Takes the record at the consumer position.
    fn take_next(&mut self) -> Taken
        ensures takes { Takes result self.old self.new }
    {
        self.ring.take()
    }

    /// Returns the length in bytes of the record at the consumer position, if that record was submitted.
    pub(crate) fn front_len(&self) -> Option<u32>
        ensures waiting { IfSome result (λ n. HasWaitingFront self.now n) }
        ensures none { IfNone result ((n : ℕ) → ¬ HasWaitingFront self.now n) }
    {
        let records = self.ring.chapter().closing().records();
        if records.is_empty() {
            return None;
        }
        match records[0].status {
            UntakenStatus::Waiting => Some(records[0].len),
            _ => None,
        }
    }

    /// Returns the answer to a query, as `RingState::query` does.
    pub(crate) fn query(&self, what: u64) -> u64
        ensures answer { result ≡ query_answer_from self.now.ring.chapter.opening self.now.ring.chapter.entries what }
    {
        self.ring.query(what)
    }

    /// Returns the six totals since the ring was opened, as `RingState::counts` does.
    pub(crate) fn counts(&self) -> Counts
        ensures counts { result ≡ told_counts self.now.ring }
    {
        self.ring.counts()
    }
}

// Returns the room of the chapters of a ring of this size, in entries: three for each record that the ring can hold,
// but at most `MAX_ROOM`.
fn room_for(size: u64) -> u32
    requires size { IsRingSize size }
    ensures room { IsChapterRoom result }
    ensures exact { result ≡ chapter_room size }
{
    let wanted = size / 8 * 3;
    if wanted > MAX_ROOM {
        return MAX_ROOM as u32;
    }
    wanted as u32
}

// Returns the next spare chapter: the one that was handed out, emptied, or the one that was returned.
fn emptied(answer: Result<Chapter, Chapter>) -> Chapter {
    match answer {
        Ok(mut out) => {
            out.clear();
            out
        }
        Err(back) => back,
    }
}

// Returns a sheet with a copy of the bytes, or `None` if there are more bytes than a record can have, or if memory for
// more than 16 bytes can't be allocated.
fn copy_of(alloc: Global, bytes: &[u8]) -> Option<Sheet>
    ensures copied { IfSome result (λ s. s ≡ bytes.now) }
    ensures long { IfNone result (16 < length bytes.now) }
{
    if bytes.len() > u32::MAX as usize {
        return None;
    }
    let Ok(mut sheet) = Sheet::new(alloc, bytes.len() as u32) else {
        return None;
    };
    sheet.bytes_mut().copy_from_slice(bytes);
    Some(sheet)
}
