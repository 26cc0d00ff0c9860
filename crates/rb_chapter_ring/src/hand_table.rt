//! The hands of a worker, and of all workers.

ghost use Rattle.std.specs.Prelude.{◌≡◌, ◌<◌, [], IfOk, length, replicate, slice_index_or, slice_set};
ghost use Rattle.rb_chapter_ring.specs.declared.out_record.OutRecord.{OutRecord};
ghost use Rattle.rb_chapter_ring.specs.Hands.{free_book, with_hand};

use crate::OutRecord;
use std::alloc::{AllocError, Global};

#[inline(always)]
/// Sets a worker's hand.
pub(crate) fn set_hand(
    book: &mut Vec<[Option<OutRecord>; 4]>,
    worker: u32,
    hand: u32,
    now: Option<OutRecord>,
)
    requires worker { worker < length book.old.items }
    requires hand { hand < 4 }
    ensures set { book.new.items ≡ with_hand book.old.items worker hand now }
{
    let hands = &mut book[worker as usize];
    hands[hand as usize] = now;
}

/// Returns free hands for this number of workers.
pub(crate) fn free_table(
    alloc: Global,
    workers: u32,
) -> Result<Vec<[Option<OutRecord>; 4]>, AllocError>
    ensures free { IfOk result (λ table. table.items ≡ free_book workers) }
{
    vec![in alloc; [None; 4]; workers as usize]
}

#[inline(always)]
/// Sets the ordinal of a worker's hand.
pub(crate) fn set_ordinal(table: &mut Vec<[u64; 4]>, worker: u32, hand: u32, ordinal: u64)
    requires worker { worker < length table.old.items }
    requires hand { hand < 4 }
    ensures set { table.new.items ≡ slice_set table.old.items worker (slice_set (slice_index_or table.old.items worker []) hand ordinal) }
{
    let row = &mut table[worker as usize];
    row[hand as usize] = ordinal;
}

/// Returns a row of four ordinals for each worker.
pub(crate) fn no_ordinals(alloc: Global, workers: u32) -> Result<Vec<[u64; 4]>, AllocError>
    ensures rows { IfOk result (λ table. table.items ≡ replicate workers (replicate 4 0)) }
{
    vec![in alloc; [0; 4]; workers as usize]
}
