//! Snapshots of a ring of one thread.

ghost use Rattle.std.specs.Prelude.{◌≡◌, IfOk, length};

use super::memory::TRIES;
use super::sheets::{LONG, filled};
use crate::fault::TrialFault;
use crate::fields::{end_line, print_field};
use rb_history::Counts;
use rb_lend::Sheet;
use std::alloc::Global;
use std::io::Print;

/// A snapshot of a ring: how many chapters of its history were handed out, how many entries follow those, its positions
/// and its counts.
pub(crate) struct RingSnapshot {
    pub(crate) chapters: u64,
    pub(crate) entries: u64,
    pub(crate) producer: u64,
    pub(crate) consumer: u64,
    pub(crate) counts: Counts,
}

/// A ring of one thread.
pub(crate) trait HasSnapshot {
    /// Returns a snapshot.
    fn snapshot(&self) -> RingSnapshot;
}

/// Prints a snapshot of a ring after a call.
pub(crate) fn tell<R: Print, T: HasSnapshot>(rt: &R, call: &str, ring: &T) {
    let RingSnapshot {
        chapters,
        entries,
        producer,
        consumer,
        counts,
    } = ring.snapshot();
    print_field(rt, call, &":");
    print_field(rt, " chapters ", &chapters);
    print_field(rt, " entries ", &entries);
    print_field(rt, " producer ", &producer);
    print_field(rt, " consumer ", &consumer);
    tell_counts(rt, counts);
}

/// Prints counts, at the end of a line.
pub(crate) fn tell_counts<R: Print>(rt: &R, counts: Counts) {
    print_field(rt, " made ", &counts.made);
    print_field(rt, " refused ", &counts.refused);
    print_field(rt, " consumed ", &counts.consumed);
    print_field(rt, " discarded ", &counts.discarded);
    print_field(rt, " waiting ", &counts.waiting);
    print_field(rt, " busy ", &counts.busy);
    end_line(rt);
}

/// Returns a long sheet, allocated while a ring exists.
pub(crate) fn sheet_beside<R: Print, T: HasSnapshot>(
    rt: &R,
    alloc: Global,
    ring: &T,
) -> Result<Sheet, TrialFault>
    ensures { IfOk result (λ sheet. length sheet ≡ LONG) }
{
    for _ in 0..TRIES {
        if let Some(sheet) = filled(alloc, LONG) {
            return Ok(sheet);
        }
        tell(rt, "sheet memory", ring);
    }
    Err(TrialFault::Twice("sheet"))
}
