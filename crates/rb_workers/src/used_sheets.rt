//! Used sheets, which consumers pass to workers for reuse.

ghost use Rattle.std.specs.Prelude.{◌≡◌, IfSome};

use crate::pace::BATCH;
use crossbeam_queue::ArrayQueue;
use rb_jobs::{SHORT, Stock};
use rb_lend::Sheet;
use std::sync::Wait;

/// The maximal number of waiting used sheets: those of a full batch.
pub const PLACES: usize = BATCH;

/// A queue of the sheets of taken records, for workers that need one. A sheet for which there is no place is returned,
/// and so is a short one, which is not worth a place.
#[derive(Drop)]
pub struct UsedSheets<'q, R> {
    /// The runtime for waits of the queue.
    pub rt: &'q R,
    /// The queue.
    pub sheets: &'q ArrayQueue<Sheet>,
}

impl<'q, R: Wait> Stock for UsedSheets<'q, R> {
    fn used(&self) -> Option<Sheet> {
        self.sheets.pop(self.rt)
    }

    fn put(&self, sheet: Sheet) -> Option<Sheet>
        ensures handed_back { IfSome result (λ back. back ≡ sheet) }
    {
        if sheet.len() <= SHORT {
            return Some(sheet);
        }
        match self.sheets.push(self.rt, sheet) {
            Ok(()) => None,
            Err(back) => Some(back),
        }
    }
}
