//! A ring for one thread: its parts, and what is read of them.

ghost use Rattle.std.specs.Prelude.{List, ◌≡◌, ◌<◌, ◌↔◌, IfOk, IfSome, IfNone, IsErrOf, IsTrue, length};
ghost use Rattle.rb_history.specs.RingModel.{IsRingSize, IsStartPosition, IsWorkerCount};
ghost use Rattle.rb_history.specs.declared.entries.Entry.{Entry};
ghost use Rattle.rb_chapter_ring.specs.Chapters.{IsChapterRoom};
ghost use Rattle.rb_chapter_ring.specs.CountedFrom.{query_answer_from};
ghost use Rattle.rb_chapter_ring.specs.ChapterRing.{StandsForChapter};
ghost use Rattle.rb_chapter_ring.specs.WholeHistory.{IsKept};
ghost use Rattle.rb_chapter_ring.specs.OpenedRing.{IsChapterRingWithin, opened_ring, told_counts};
ghost use Rattle.rb_chapter_ring.specs.Hands.{AreAllOut, IsLowestFree, free_book, hands_of};
ghost use Rattle.rb_chapter_ring.specs.HandRing.{hand_ring, HasHands, HasInHand};

mod commit;
mod hand_out;
mod output;
mod reserve;
mod take;

use crate::faults::OpenFault;
use crate::hand_table::{free_table, no_ordinals};
use crate::reservation::Reservation;
use crate::setup::{empty_sheets, slots_for};
use crate::{Chapter, OutRecord, lowest_free};
use rb_history::{
    AVAIL_DATA, CONS_POS, Counts, PROD_POS, RING_SIZE, is_size, is_start, is_worker_count,
};
use rb_lend::Sheet;
use std::alloc::Global;
use std::marker::Model;

/// A ring of records for one thread, whose reservations name its tag. Contracts see its tag, its chapter, the bytes of
/// its waiting records, what it shows, and its book of hands.
///
/// The untaken records are those of the chapter, in the order of their grants. A record's ordinal is the number of
/// records that were granted before it; its index is its ordinal minus the number of records that were taken.
#[derive(Drop)]
pub struct RingState {
    tag: u64,
    chapter: Chapter,
    // The bytes of each waiting record, in the slot of its ordinal. There are as many slots as there can be records at
    // once, and they are used as a circular buffer.
    sheets: Vec<Sheet>,
    // The record in each hand of each worker, and its ordinal.
    hands: Vec<[Option<OutRecord>; 4]>,
    ordinals: Vec<[u64; 4]>,
    // The refusals, saturating at `u64::MAX`, and the discards. The other counts follow from the chapter.
    refused: u64,
    discarded: u64,
}

impl Model for RingState {
    ghost use Rattle.std.specs.Coded.{codes};
    ghost use Rattle.rb_history.specs.RingModel.{contents_code};
    ghost use Rattle.rb_history.specs.contracts.entries.Entry as entry;
    ghost use Rattle.rb_history.specs.contracts.tally.Tally as tally_row;
    ghost use Rattle.rb_chapter_ring.specs.contracts.out_record.OutRecord as out_row;
    ghost use Rattle.rb_chapter_ring.specs.TaggedRing.{TaggedRing};
    ghost use Rattle.rb_chapter_ring.specs.inner.RingBody.{ring_shown, parts_of, IsRingState};

    ghost Value = { TaggedRing };

    ghost coded = { Prim.hlevel (codes, contents_code, entry.the_row.coded, tally_row.the_row.coded, out_row.the_row.coded) };

    ghost view = { ring_shown };

    ghost invariant = { λ s. IsRingState (parts_of s) s.hands.items s.ordinals.items };
}

impl RingState {
    /// Returns a ring without records whose reservations name `tag`, of `size` bytes, whose positions begin at `start`,
    /// for `workers` workers, with chapters of `room` entries; or the first `OpenFault` that applies.
    ///
    /// Allocates all memory that the ring will ever need: that of its first chapter, a slot for each record that there
    /// can be at once (a power of two), and for each worker four free hands, with 32 bytes each.
    pub fn new(
        alloc: Global,
        tag: u64,
        size: u64,
        start: u64,
        workers: u32,
        room: u32,
    ) -> Result<RingState, OpenFault>
        ensures tag { IfOk result (λ ring. ring.tag ≡ tag) }
        ensures opened { IfOk result (λ ring. ring.state ≡ hand_ring (opened_ring room (record { size = size; start = start; workers = workers })) (free_book workers)) }
        ensures size { IsErrOf result OpenFault.Size ↔ ¬ IsRingSize size }
        ensures start { IsErrOf result OpenFault.Start ↔ (IsRingSize size × ¬ IsStartPosition start) }
        ensures workers { IsErrOf result OpenFault.Workers ↔ (IsRingSize size × IsStartPosition start × ¬ IsWorkerCount workers) }
        ensures chapter { IsErrOf result OpenFault.Chapter ↔ (IsRingSize size × IsStartPosition start × IsWorkerCount workers × ¬ IsChapterRoom room) }
    {
        if !is_size(size) {
            return Err(OpenFault::Size);
        }
        if !is_start(start) {
            return Err(OpenFault::Start);
        }
        if !is_worker_count(workers) {
            return Err(OpenFault::Workers);
        }
        if !(8..=1_048_576).contains(&room) {
            return Err(OpenFault::Chapter);
        }
        let mut chapter = Chapter::new(alloc, room, workers)?;
        chapter.open_first(size, start);
        Ok(RingState {
            tag,
            chapter,
            sheets: empty_sheets(alloc, slots_for(size, room))?,
            hands: free_table(alloc, workers)?,
            ordinals: no_ordinals(alloc, workers)?,
            refused: 0,
            discarded: 0,
        })
    }

    #[inline(always)]
    /// Returns the ring's tag.
    pub fn tag(&self) -> u64
        ensures tag { result ≡ self.now.tag }
    {
        self.tag
    }

    #[inline(always)]
    /// Sets the tag that reservations name from then on. A reservation may be committed whatever its tag is; a caller
    /// with several rings compares it.
    pub fn set_tag(&mut self, tag: u64)
        ensures tag { self.new.tag ≡ tag }
        ensures same_state { self.new.state ≡ self.old.state }
    {
        self.tag = tag;
    }

    #[inline(always)]
    /// States the invariant of a ring: its chapter is legal from its opening, which is the summary of a legal history,
    /// and has room for the entries that it owes; the ring's state agrees with the chapter; the ring's parameters are
    /// within bounds; and its book of hands is that of its busy records.
    pub fn facts(&self)
        ensures kept { (earlier : List Entry) × IsKept earlier self.now.state.ring.chapter }
        ensures stands { StandsForChapter self.now.state.ring }
        ensures bounded { IsChapterRingWithin self.now.state.ring }
        ensures hands { HasHands self.now.state }
    {
        let _ = &self.chapter;
    }

    #[inline(always)]
    /// Returns the chapter that the ring keeps.
    pub fn chapter(&self) -> &Chapter
        ensures chapter { result.now ≡ self.now.state.ring.chapter }
    {
        &self.chapter
    }

    /// Returns the answer to a query (bpf-helpers(7), bpf_ringbuf_query): the number of bytes between the two positions
    /// for `AVAIL_DATA`, what they name for `RING_SIZE`, `CONS_POS` and `PROD_POS`, and 0 for any other number. Takes
    /// constant time.
    pub fn query(&self, what: u64) -> u64
        ensures answer { result ≡ query_answer_from self.now.state.ring.chapter.opening self.now.state.ring.chapter.entries what }
    {
        let numbers = self.chapter.closing().numbers();
        match what {
            AVAIL_DATA => numbers.producer - numbers.consumer,
            RING_SIZE => numbers.size,
            CONS_POS => numbers.consumer,
            PROD_POS => numbers.producer,
            _ => 0,
        }
    }

    /// Returns the six totals since the ring was opened. The refusal count saturates at `u64::MAX`. Takes constant
    /// time.
    pub fn counts(&self) -> Counts
        ensures counts { result ≡ told_counts self.now.state.ring }
    {
        let numbers = self.chapter.closing().numbers();
        let there = self.many() as u64;
        let made = numbers.consumed + numbers.skipped + there;
        let busy = u64::from(self.chapter.owed()) - there;
        Counts {
            made,
            refused: self.refused,
            consumed: numbers.consumed,
            discarded: self.discarded,
            waiting: made - busy - numbers.consumed - self.discarded,
            busy,
        }
    }

    #[inline(always)]
    /// Returns the worker's lowest free hand, if one is free. Takes constant time.
    pub fn free_hand(&self, worker: u32) -> Option<u32>
        requires worker { worker < self.now.state.ring.chapter.opening.setup.workers }
        ensures free { IfSome result (λ hand. IsLowestFree (hands_of self.now.state.hands worker) hand) }
        ensures all_out { IfNone result (AreAllOut (hands_of self.now.state.hands worker)) }
    {
        lowest_free(&self.hands[worker as usize])
    }

    #[inline(always)]
    /// Returns whether the reservation's record is in its hand, so that it may be submitted or discarded. For callers
    /// that do not know this otherwise. Takes constant time.
    pub fn is_out(&self, reservation: &Reservation) -> bool
        ensures exact { IsTrue result ↔ HasInHand self.now.state reservation.now.hand reservation.now.granted }
    {
        let (tag, worker) = (reservation.tag, reservation.worker);
        let Some(hands) = self.hands.get(worker as usize) else {
            return false;
        };
        reservation.held_hand(tag, worker, hands).is_some()
    }

    #[inline(always)]
    // Returns the number of untaken records.
    fn many(&self) -> usize
        ensures many { result ≡ length self.now.state.ring.shown }
    {
        self.chapter.closing().records().len()
    }
}
