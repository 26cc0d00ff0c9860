//! The parameters of a ring, and of a chapter in which it may continue.

ghost use Rattle.std.specs.Prelude.{ℕ, ◌≡◌, ◌/◌, ◌<◌, ◌≤◌, ◌^◌, ◌↔◌, IsTrue, IfOk, length};
ghost use Rattle.std.specs.Int.{IsPowerOfTwo};
ghost use Rattle.rb_history.specs.RingModel.{IsRingSize};
ghost use Rattle.rb_chapter_ring.specs.Chapters.{IsChapterRoom};

use crate::chapter::{COUNT_LIMIT, Chapter};
use rb_lend::Sheet;
use std::alloc::{AllocError, Global};

/// Returns the number of slots of a ring of this size with chapters of this room: a power of two, and as many as there
/// can be records at once, since each occupies at least eight bytes of the ring.
pub(crate) fn slots_for(size: u64, room: u32) -> usize
    requires size { IsRingSize size }
    requires room { IsChapterRoom room }
    ensures power { IsPowerOfTwo result }
    ensures slots { (n : ℕ) → n ≤ size / 8 → n ≤ room → n ≤ result }
{
    let places = (size / 8) as usize;
    if places < room as usize {
        places
    } else {
        (room as usize).next_power_of_two()
    }
}

/// Returns `slots` empty sheets.
pub(crate) fn empty_sheets(alloc: Global, slots: usize) -> Result<Vec<Sheet>, AllocError>
    ensures many { IfOk result (λ sheets. length sheets.items ≡ slots) }
{
    let mut sheets = Vec::with_capacity(alloc, slots)?;
    for _ in 0..slots {
        sheets.push_reserved(Sheet::empty(alloc));
    }
    Ok(sheets)
}

/// Returns whether a ring that keeps `chapter` may continue in `empty`.
pub(crate) fn is_fit(chapter: &Chapter, empty: &Chapter) -> bool
    ensures exact { IsTrue result ↔ ((length empty.now.entries ≡ 0) × (empty.now.room ≡ chapter.now.room) × (empty.now.opening.setup.workers ≡ chapter.now.opening.setup.workers) × (chapter.now.number < 2 ^ 62)) }
{
    empty.used() == 0
        && empty.room() == chapter.room()
        && empty.opening().numbers().workers == chapter.opening().numbers().workers
        && chapter.number() < COUNT_LIMIT
}
