//! The laws of the memory that the parts represent. Each is the contract of a function that does nothing.

ghost use Rattle.rb_interp.specs.MemoryLaws.{WritesRange, LeavesOthers, FillsSlot, LeavesOtherSlots, LowestIsEmpty, NoneIsFull};

use crate::context::Context;
use rb_lend::Lent;

/// The law that after a write, a part has the new bytes in the range, and its old ones around it.
pub fn a_write_shows<C: Context, R: Lent>()
    ensures { WritesRange C.shown R.bytes_of R.with_bytes }
{}

/// The law that a write to a part does not change the other parts.
pub fn a_write_leaves_the_other_parts<C: Context, R: Lent>()
    ensures { LeavesOthers C.shown R.bytes_of R.with_bytes }
{}

/// The law that a slot that is filled has the bytes of its record, and that a slot that is emptied can't be read.
pub fn a_slot_shows_what_it_holds<C: Context, R: Lent>()
    ensures { FillsSlot C.shown R.bytes_of }
{}

/// The law that filling or emptying a slot does not change the other parts.
pub fn a_slot_leaves_the_other_parts<C: Context, R: Lent>()
    ensures { LeavesOtherSlots C.shown R.bytes_of }
{}

/// The law that the lowest empty slot is empty, and that four records are held if there is none.
pub fn four_are_held_where_no_slot_is_empty<R>()
    ensures empty { LowestIsEmpty R }
    ensures full { NoneIsFull R }
{}
