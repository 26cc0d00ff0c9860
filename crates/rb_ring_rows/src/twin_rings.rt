//! A ring that keeps a chapter of its history, and its twin that keeps all of it in a list. Each call is made on both.

ghost use Rattle.std.specs.Prelude.{◌≡◌, ◌+◌, ◌<◌, ◌≤◌, IfSome, IsTrue, vec_capacity, vec_len};

use crate::answers::{
    bind_word, tell_all_taken, tell_counts, tell_entries, tell_handed_out, tell_taken,
};
use crate::script::OpeningNumbers;
use crate::shared_answers::tell_contents;
use crate::sheets::{copied_twice, filled_twice, write_at};
use crate::tape_rows::tell_written;
use crate::text::Text;
use crate::twin_calls::{
    ChapterAnswer, end_in_chapter, end_in_list, opened_list, opened_ring, output_in_chapter,
    output_in_list, reserve_in_chapter, reserve_in_list, tell_opened,
};
use rb_chapter_ring::{
    Chapter, Entries, RecordEnd, Reservation, RingState, UntakenRecord, UntakenStatus,
};
use rb_for_tests::{PlainReservation, PlainRing};
use rb_history::{Entry, Taken};
use rb_ledger::bind_chapters;
use rb_lend::Lent;
use std::alloc::Global;

/// A ring over chapters and its twin over a list, for the same workers.
#[derive(Drop)]
pub(crate) struct TwinRings {
    size: u64,
    start: u64,
    workers: u32,
    ring: RingState,
    list: PlainRing,
    // The number of entries of the chapters that were handed out.
    handed_out: u64,
    // Everything that was taken, in order.
    taken: Vec<Taken>,
    ghost list_workers: { list.setup.workers ≡ workers },
}

/// The reservations of one record, at both rings.
#[derive(Drop)]
pub(crate) struct TwinRecord {
    ring: Reservation,
    list: PlainReservation,
}

impl TwinRecord {
    /// Writes bytes from byte `at` on, if they fit.
    pub(crate) fn write(&mut self, at: u64, bytes: &[u8], out: &mut Text) {
        if write_at(&mut self.ring, at, bytes) && write_at(&mut self.list, at, bytes) {
            tell_contents(&self.ring, out);
        } else {
            out.word("fault: outside");
        }
    }
}

impl TwinRings {
    /// Opens both rings, unless they are refused. The list has no chapters, so it is not opened if the chapters' room
    /// is refused.
    pub(crate) fn open(alloc: Global, setup: OpeningNumbers, out: &mut Text) -> Option<TwinRings> {
        let OpeningNumbers {
            size,
            start,
            workers,
            room,
        } = setup;
        let (ring, word) = opened_ring(alloc, size, start, workers, room);
        let (list, list_word) = opened_list(alloc, size, start, workers);
        tell_opened(word, list_word, out);
        let (Some(ring), Some(list)) = (ring, list) else {
            return None;
        };
        Some(TwinRings {
            size,
            start,
            workers,
            ring,
            list,
            handed_out: 0,
            taken: Vec::new(alloc),
        })
    }

    /// Reserves a record of `n` bytes in the worker's lowest free hand, in a sheet full of 255. The list is not called
    /// if the chapter has no room, and neither ring is if no hand is free.
    pub(crate) fn reserve(
        &mut self,
        alloc: Global,
        worker: u32,
        n: u32,
        out: &mut Text,
    ) -> Option<TwinRecord> {
        if !self.has_worker(worker) {
            out.word("fault: no such worker");
            return None;
        }
        let Some((sheet, other)) = filled_twice(alloc, n) else {
            out.word("fault: no memory");
            return None;
        };
        match reserve_in_chapter(&mut self.ring, worker, n, sheet, out) {
            ChapterAnswer::Answered(ring) => {
                let mut told = Text::new(alloc);
                let list = reserve_in_list(&mut self.list, worker, n, other, &mut told);
                self.compare(out, &told);
                twin_record(ring, list)
            }
            ChapterAnswer::Unknown => None,
        }
    }

    /// Submits or discards a record at both rings. The reservations come back if they are stray: in no hand of the
    /// ring, which is then not called, and not busy in the list, which is called unless it has a busy record with these
    /// numbers.
    pub(crate) fn end(
        &mut self,
        alloc: Global,
        record: TwinRecord,
        end: RecordEnd,
        flags: u64,
        out: &mut Text,
    ) -> Option<TwinRecord> {
        let TwinRecord { ring, list } = record;
        let ring = end_in_chapter(&mut self.ring, ring, end, flags, out);
        if ring.is_some() && self.has_busy(&list) {
            return twin_record(ring, Some(list));
        }
        let mut told = Text::new(alloc);
        let list = end_in_list(&mut self.list, list, end, flags, &mut told);
        self.compare(out, &told);
        twin_record(ring, list)
    }

    /// Outputs these bytes. The list is not called if the chapter has no room.
    pub(crate) fn output(
        &mut self,
        alloc: Global,
        worker: u32,
        bytes: &[u8],
        flags: u64,
        out: &mut Text,
    ) {
        if !self.has_worker(worker) {
            return out.word("fault: no such worker");
        }
        let Some((sheet, other)) = copied_twice(alloc, bytes) else {
            return out.word("fault: no memory");
        };
        if output_in_chapter(&mut self.ring, worker, sheet, flags, out) {
            let mut told = Text::new(alloc);
            output_in_list(&mut self.list, worker, other, flags, &mut told);
            self.compare(out, &told);
        }
    }

    /// Takes one record.
    pub(crate) fn take(&mut self, alloc: Global, out: &mut Text) {
        let taken = self.ring.take();
        tell_taken(out, &taken);
        if self.taken.push(taken).is_err() {
            out.word("fault: no memory");
        }
        let mut told = Text::new(alloc);
        tell_taken(&mut told, &self.list.take());
        self.compare(out, &told);
    }

    /// Takes up to `n` records in one call.
    pub(crate) fn take_many(&mut self, alloc: Global, n: usize, out: &mut Text) {
        let Some((mut taken, mut other)) = two_rooms(alloc, n) else {
            return out.word("fault: no memory");
        };
        let many = self.ring.take_many(n, &mut taken);
        tell_all_taken(out, many, taken.as_slice());
        if self.taken.append(&mut taken).is_err() {
            out.word("fault: no memory");
        }
        let mut told = Text::new(alloc);
        let many = self.list.take_many(n, &mut other);
        tell_all_taken(&mut told, many, other.as_slice());
        self.compare(out, &told);
    }

    /// Makes the ring over chapters continue in an empty chapter. Returns the chapter that was handed out, or the empty
    /// one.
    pub(crate) fn hand_out(&mut self, empty: Chapter, out: &mut Text) -> Chapter {
        match self.ring.hand_out(empty) {
            Ok(chapter) => {
                tell_handed_out(out, &chapter);
                self.handed_out = self.handed_out.wrapping_add(u64::from(chapter.used()));
                chapter
            }
            Err(back) => {
                out.word("unfit");
                back
            }
        }
    }

    /// Appends the answer of a query.
    pub(crate) fn query(&self, what: u64, out: &mut Text) {
        out.number(self.ring.query(what));
        if self.ring.query(what) != self.list.query(what) {
            out.field("differs", self.list.query(what));
        }
    }

    /// Appends the six counts.
    pub(crate) fn counts(&self, out: &mut Text) {
        tell_counts(out, self.ring.counts());
    }

    /// Appends the tape of everything that was taken.
    pub(crate) fn written(&self, alloc: Global, out: &mut Text) {
        tell_written(alloc, self.size, self.start, self.taken.as_slice(), out);
    }

    /// Returns the chapter that the ring keeps.
    pub(crate) fn chapter(&self) -> &Chapter {
        self.ring.chapter()
    }

    /// Appends the history of these chapters followed by the ring's, or why they do not bind.
    pub(crate) fn bind(&self, alloc: Global, chapters: &[Chapter], out: &mut Text) {
        match bind_chapters(alloc, chapters, self.ring.chapter()) {
            Ok(history) => {
                tell_entries(out, history.as_slice());
                if history.as_slice() != self.list.history() {
                    out.word("differs");
                    tell_entries(out, self.list.history());
                }
            }
            Err(fault) => out.word(bind_word(fault)),
        }
    }

    // Whether a busy record has the reservation's four numbers.
    fn has_busy(&self, record: &PlainReservation) -> bool {
        let (worker, len) = (u64::from(record.worker()), u64::from(record.len()));
        let wanted = [record.pos(), worker, record.serial(), len];
        let mut found = false;
        for untaken in self.ring.chapter().closing().records() {
            found = found || is_busy(untaken, &wanted);
        }
        found
    }

    fn has_worker(&self, worker: u32) -> bool
        ensures { IsTrue result → (worker < self.now.workers) × (worker < self.now.ring.state.ring.chapter.opening.setup.workers) }
    {
        worker < self.workers && worker < self.ring.chapter().opening().numbers().workers
    }

    // Appends the list's answer if it differs, and the difference between both rings' states after the call, if any.
    fn compare(&self, out: &mut Text, told: &Text) {
        if out.as_str() != told.as_str() {
            out.word("differs");
            out.push(told.as_str());
        }
        if self.ring.counts() != self.list.counts() {
            out.word("differs in counts");
            tell_counts(out, self.list.counts());
        }
        for what in 0..4 {
            if self.ring.query(what) != self.list.query(what) {
                out.field("differs in query", what);
            }
        }
        self.compare_histories(out);
    }

    fn compare_histories(&self, out: &mut Text) {
        let entries = self.ring.chapter().entries();
        let history = self.list.history();
        if !is_history_of(history, self.handed_out, entries) {
            out.word("differs in history");
            tell_entries(out, history);
        }
    }
}

// Whether a record is busy and has this position, worker, serial and length.
fn is_busy(record: &UntakenRecord, wanted: &[u64; 4]) -> bool {
    let (worker, len) = (u64::from(record.worker), u64::from(record.len));
    matches!(record.status, UntakenStatus::Busy)
        && [record.pos, worker, record.serial, len] == *wanted
}

// Returns whether the history has this many entries, followed by those of a chapter.
fn is_history_of(history: &[Entry], before: u64, entries: Entries<'_>) -> bool {
    if before.wrapping_add(entries.len() as u64) != history.len() as u64 {
        return false;
    }
    let mut at = before as usize;
    for entry in entries {
        if at >= history.len() || history[at] != entry {
            return false;
        }
        at = at.saturating_add(1);
    }
    true
}

// Returns the reservations of a record, if both rings granted it.
fn twin_record(ring: Option<Reservation>, list: Option<PlainReservation>) -> Option<TwinRecord> {
    Some(TwinRecord {
        ring: ring?,
        list: list?,
    })
}

// Returns two lists with room for `n` records each.
fn two_rooms(alloc: Global, n: usize) -> Option<(Vec<Taken>, Vec<Taken>)>
    ensures first { IfSome result (λ rooms. vec_len rooms.0 + n ≤ vec_capacity rooms.0) }
    ensures second { IfSome result (λ rooms. vec_len rooms.1 + n ≤ vec_capacity rooms.1) }
{
    let first = Vec::with_capacity(alloc, n).ok()?;
    let second = Vec::with_capacity(alloc, n).ok()?;
    Some((first, second))
}
