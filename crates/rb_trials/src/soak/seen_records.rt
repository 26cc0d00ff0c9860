//! What a consumer has seen of its ring's records.

use super::bytes::are_right;
use rb_history::span;
use rb_tape::{Event, Item};
use std::alloc::{AllocError, Global};

// What was seen of a worker's records.
#[derive(Clone, Copy)]
struct SeenWorker {
    // The serial of its last event, plus one.
    next: u64,
    events: u64,
}

/// What was seen of a ring's records, and the number of errors in them.
#[derive(Drop)]
pub(crate) struct SeenRecords {
    workers: Vec<SeenWorker>,
    /// The position of the next record.
    pub(crate) position: u64,
    /// How many discarded records were skipped.
    pub(crate) skipped: u64,
    pub(crate) wrong: u64,
}

impl SeenRecords {
    /// Returns the initial state for `workers` workers.
    pub(crate) fn new(alloc: Global, workers: u32) -> Result<SeenRecords, AllocError> {
        let none = SeenWorker { next: 0, events: 0 };
        Ok(SeenRecords {
            workers: vec![in alloc; none; workers as usize]?,
            position: 0,
            skipped: 0,
            wrong: 0,
        })
    }

    /// Returns how many events of a worker were seen.
    pub(crate) fn events_of(&self, worker: u32) -> u64 {
        match self.workers.get(worker as usize) {
            Some(seen) => seen.events,
            None => 0,
        }
    }

    /// Checks the next record.
    pub(crate) fn look(&mut self, item: &Item<'_>) {
        let (pos, len, is_right) = match item {
            Item::Event(event) => (event.pos, event.bytes.len(), self.is_next(event)),
            Item::Skip(pos, n) => {
                self.skipped = self.skipped.saturating_add(1);
                (*pos, *n as usize, true)
            }
        };
        self.expect(is_right && pos == self.position);
        let span = span(u32::try_from(len).unwrap_or(0));
        self.position = pos.wrapping_add(span);
    }

    /// Counts an error unless the condition holds.
    pub(crate) fn expect(&mut self, holds: bool) {
        if !holds {
            self.wrong = self.wrong.saturating_add(1);
        }
    }

    // Returns whether the event follows its worker's last one, and has the bytes that the worker wrote.
    fn is_next(&mut self, event: &Event<'_>) -> bool {
        let is_next = match self.workers.get_mut(event.worker as usize) {
            Some(seen) => seen.goes_on(event.serial),
            None => false,
        };
        is_next && are_right(event.bytes, event.worker, event.serial)
    }
}

impl SeenWorker {
    // Returns whether the serial is greater than all earlier ones.
    fn goes_on(&mut self, serial: u64) -> bool {
        let is_later = serial >= self.next;
        self.next = serial.wrapping_add(1);
        self.events = self.events.wrapping_add(1);
        is_later
    }
}
