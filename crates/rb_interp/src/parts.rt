//! The disjoint parts of memory that a program can access.

ghost use Rattle.std.specs.Prelude.{◌≡◌, ◌≢◌, ℕ, ◌+◌, ◌≤◌, List, length, replicate, IfOk, IfErr, MatchResult, take, drop, Some, None, option_map, nat_le, true, false};
ghost use Rattle.std.specs.Borrow.{sem};

use crate::compiler_facts::known;
use crate::context::Context;
use crate::records::{Records, Slot};
use crate::stack::Stack;
use crate::writable_range::WritableRange;
use rb_lend::Lent;
use thiserror::Error;

/// The error for a range that can't be read or written: it is not inside the part, the slot is empty, or it is to be
/// written in the context, which is read-only.
#[derive(Debug, Drop, Error)]
#[error("outside the part")]
pub struct Outside;

/// The name of a part of memory.
#[derive(Debug, Clone, Copy, PartialEq, Eq)]
pub enum Part {
    /// The 512 bytes of the stack.
    Stack,
    /// The context, which is read-only.
    Ctx,
    /// The record in a slot.
    Record(Slot),
}

/// The parts of memory that a program can access: its stack of 512 bytes, its read-only context, and at most four
/// records. None of the calls takes an allocator or a runtime.
///
/// The three fields can be borrowed separately, so a caller can split the parts by borrowing them side by side.
#[derive(Drop)]
pub struct Parts<C, R> {
    /// The stack. Index 512 is one past its last byte.
    pub stack: Stack,
    /// The context, as a read-only view.
    pub context: C,
    /// The records that are held.
    pub records: Records<R>,
}

impl<C, R> Parts<C, R> {
    ghost use Rattle.rb_interp.specs.RecordSlots.{in_slot, with_slot, lowest_empty};

    /// Creates parts with a zeroed stack of 512 bytes, this context, and four empty slots.
    pub fn new(context: C) -> Parts<C, R>
        ensures stack { result.stack ≡ replicate 512 0 }
        ensures context { result.context ≡ context }
        ensures first { result.records.first ≡ None }
        ensures second { result.records.second ≡ None }
        ensures third { result.records.third ≡ None }
        ensures fourth { result.records.fourth ≡ None }
    {
        Parts {
            stack: Stack::new(),
            context,
            records: Records::new(),
        }
    }

    /// Resets the parts to those that `new` creates, in place: clears the stack and drops the contents of the slots.
    pub fn restart(&mut self, context: C)
    where
        C: Drop,
        R: Drop,
        ensures stack { self.new.stack ≡ replicate 512 0 }
        ensures context { self.new.context ≡ context }
        ensures first { self.new.records.first ≡ None }
        ensures second { self.new.records.second ≡ None }
        ensures third { self.new.records.third ≡ None }
        ensures fourth { self.new.records.fourth ≡ None }
    {
        self.stack = Stack::new();
        self.context = context;
        self.records.clear();
    }

    /// Puts a record into the lowest empty slot and returns that slot, or returns the record if and only if four are
    /// held already.
    ///
    /// Takes constant time.
    pub fn hold(&mut self, owned: R) -> Result<Slot, R>
    where
        R: Drop,
        ensures lowest { IfOk result (λ slot. lowest_empty self.old.records ≡ Some slot) }
        ensures held { IfOk result (λ slot. self.new.records ≡ with_slot self.old.records slot (Some owned)) }
        ensures full { IfErr result (λ _. lowest_empty self.old.records ≡ None) }
        ensures handed_back { IfErr result (λ back. back ≡ owned) }
        ensures unchanged { IfErr result (λ _. self.new.records ≡ self.old.records) }
        ensures stack { self.new.stack ≡ self.old.stack }
        ensures context { self.new.context ≡ self.old.context }
    {
        self.records.hold(owned)
    }

    /// Empties a slot and returns its record, the same value that was put in, with the bytes written since. Returns
    /// `None` if and only if the slot was empty.
    ///
    /// Takes constant time.
    pub fn give(&mut self, slot: Slot) -> Option<R>
        ensures value { result ≡ in_slot self.old.records slot }
        ensures records { self.new.records ≡ with_slot self.old.records slot None }
        ensures stack { self.new.stack ≡ self.old.stack }
        ensures context { self.new.context ≡ self.old.context }
    {
        self.records.give(slot)
    }
}

impl<C: Context, R: Lent> Parts<C, R> {
    ghost use Rattle.rb_interp.specs.RecordSlots.{in_slot};
    ghost use Rattle.rb_interp.specs.PartsMemory.{memory_of, part_range, may_write, record_has};
    ghost use Rattle.rb_interp.specs.inner.Lending.{LendsRangeOfStack, LendsRangeOfRecord};
    ghost use Rattle.rb_interp.specs.Lending.{LendsPart, RestsIfOutside, IsWritableRangeOf};

    /// Returns the `len` bytes from index `off` of a part on, or `Outside` if and only if they do not lie inside the
    /// part.
    ///
    /// `off` counts from the part's first byte. An empty range lies inside the part at each index from 0 to the part's
    /// length. No range lies inside an empty slot.
    pub fn read(&self, part: Part, off: usize, len: usize) -> Result<&[u8], Outside>
        ensures value { MatchResult result
            (λ bytes. part_range off len (memory_of R.bytes_of C.shown self.now part) ≡ Some bytes.now)
            (λ _. part_range off len (memory_of R.bytes_of C.shown self.now part) ≡ None) }
    {
        let bytes = match part {
            Part::Stack => self.stack.bytes(),
            Part::Ctx => self.context.bytes(),
            Part::Record(slot) => match self.records.get(slot) {
                None => return Err(Outside),
                Some(owned) => owned.bytes(),
            },
        };
        if fits(off, len, bytes.len()) {
            return Ok(&bytes[off..off + len]);
        }
        Err(Outside)
    }

    #[inline(always)]
    /// Returns the `len` bytes from index `off` of a part on, which must lie inside the part. `off` counts as in
    /// `read`.
    pub fn range(&self, part: Part, off: usize, len: usize) -> &[u8]
        requires { part_range off len (memory_of R.bytes_of C.shown self.now part) ≢ None }
        ensures value { part_range off len (memory_of R.bytes_of C.shown self.now part) ≡ Some result.now }
        ensures length { length result.now ≡ len }
    {
        match part {
            Part::Stack => &self.stack.bytes()[off..off + len],
            Part::Ctx => &self.context.bytes()[off..off + len],
            Part::Record(slot) => match self.records.get(slot) {
                Some(owned) => &owned.bytes()[off..off + len],
                None => {
                    known(false);
                    unreachable!()
                }
            },
        }
    }

    /// Whether the `len` bytes from index `off` on lie inside a part that can be written: the stack or a record that is
    /// held, but never the context or an empty slot.
    pub fn can_write(&self, part: Part, off: usize, len: usize) -> bool
        ensures { result ≡ may_write R.bytes_of self.now part off len }
    {
        match part {
            Part::Stack => fits(off, len, 512),
            Part::Ctx => false,
            Part::Record(slot) => match self.records.get(slot) {
                None => false,
                Some(owned) => fits(off, len, owned.bytes().len()),
            },
        }
    }

    // Borrows a range inside the stack for writing.
    fn stack_range(&mut self, off: usize, len: usize) -> &mut [u8]
        requires { off + len ≤ 512 }
        ensures* writes_back { sem 𝓛 (LendsRangeOfStack C.row R.row self.entry off result) }
        ensures value { result.now ≡ take len (drop off self.old.stack) }
        ensures length { length result.now ≡ len }
        ensures size { length self.old.stack ≡ 512 }
    {
        self.stack.range_mut(off, len)
    }

    // Borrows a range inside the record in a slot for writing.
    fn record_range(&mut self, slot: Slot, off: usize, len: usize) -> &mut [u8]
        requires { record_has R.bytes_of (in_slot self.old.records slot) off len ≡ true }
        ensures* writes_back { sem 𝓛 (LendsRangeOfRecord C.row R.row R.with_bytes R.bytes_of self.entry slot off result) }
        ensures value { option_map (λ x. take len (drop off (R.bytes_of x))) (in_slot self.old.records slot) ≡ Some result.now }
        ensures length { length result.now ≡ len }
    {
        let owned = self.records.record_mut(slot);
        owned.range_mut(off, len)
    }

    /// Borrows the `len` bytes from index `off` of a part on for writing. They must be writable, as `can_write`
    /// reports. Everything else is unchanged.
    pub fn range_mut(&mut self, part: Part, off: usize, len: usize) -> &mut [u8]
        requires { may_write R.bytes_of self.old part off len ≡ true }
        ensures* writes_back { sem 𝓛 (LendsPart C.row R.row R.with_bytes R.bytes_of self.entry part off result) }
        ensures value { part_range off len (memory_of R.bytes_of C.shown self.old part) ≡ Some result.now }
        ensures length { length result.now ≡ len }
    {
        match part {
            Part::Stack => return self.stack_range(off, len),
            Part::Record(slot) => return self.record_range(slot, off, len),
            Part::Ctx => {
                known(false);
                unreachable!()
            }
        }
    }

    /// Returns the `len` bytes from index `off` of a part on, to be borrowed for writing by
    /// `WritableRange::into_bytes`, or `Outside` if and only if they can't be written; then nothing is changed.
    pub fn write(
        &mut self,
        part: Part,
        off: usize,
        len: usize,
    ) -> Result<WritableRange<'_, C, R>, Outside>
        ensures* refused { sem 𝓛 (RestsIfOutside C.row R.row self.entry result) }
        ensures cases { MatchResult result
            (λ s. IsWritableRangeOf self.old part off len s × (may_write R.bytes_of self.old part off len ≡ true))
            (λ _. may_write R.bytes_of self.old part off len ≡ false) }
        ensures same_parts { IfOk result (λ s. s.parts.ghost_name ≡ self.entry.ghost_name) }
    {
        if self.can_write(part, off, len) {
            return Ok(WritableRange {
                parts: self,
                part,
                off,
                len,
            });
        }
        Err(Outside)
    }
}

// Whether the `len` bytes from index `off` on lie within the first `size` bytes.
fn fits(off: usize, len: usize, size: usize) -> bool
    ensures { result ≡ nat_le (off + len) size }
{
    off <= size && len <= size - off
}
