//! The pointers that a program keeps on its stack, in a table that is created for the first one.

ghost use Rattle.std.specs.Prelude.{◌≡◌, ◌<◌, [], ◌∷◌, None};
ghost use Rattle.rb_semantics.specs.StackPointers.{pointer_at};
ghost use Rattle.rb_interp.specs.inner.KeptPointers.{pointers_written, beginning_at};

use crate::kept_pointers::KeptPointers;
use rb_semantics::{MemoryRegion, Value};
use std::marker::Model;

/// The pointers on the stack. Their table of two kilobytes is created when the first pointer is stored, so a machine
/// whose program stores none does not have to clear it.
///
/// Contracts see the pointers with their places, the newest first.
#[derive(Drop)]
pub(crate) struct PointerTable {
    table: Option<KeptPointers>,
}

impl Model for PointerTable {
    ghost use Rattle.rb_semantics.specs.StackPointers.{StackPointers};
    ghost use Rattle.rb_interp.specs.inner.KeptPointers.{kept_in};

    ghost Value = { StackPointers };

    ghost view = { λ p. kept_in p.table };
}

impl PointerTable {
    /// Returns an empty set of pointers without a table.
    pub(crate) fn new() -> PointerTable
        ensures { result ≡ [] }
    {
        PointerTable { table: None }
    }

    #[inline(always)]
    /// Removes all pointers. A table that was created stays.
    pub(crate) fn clear(&mut self)
        ensures { self.new ≡ [] }
    {
        match &mut self.table {
            Some(kept) => kept.clear(),
            None => {}
        }
    }

    #[inline(always)]
    #[tactic(auto, using(crate::proofs::KeptEntries::none_beginning))]
    /// Returns the pointer at the place that begins at a byte of the stack, if there is one.
    pub(crate) fn beginning(&self, byte: i64) -> Option<Value>
        ensures { result ≡ beginning_at byte self.now }
    {
        match &self.table {
            Some(kept) => kept.beginning(byte),
            None => None,
        }
    }

    #[inline(always)]
    #[tactic(auto, using(crate::proofs::KeptEntries::none_written))]
    /// Updates the pointers for a write of the `len` bytes from byte `at` of a part on: places of the stack that
    /// overlap them lose their pointers.
    pub(crate) fn write(&mut self, part: MemoryRegion, at: usize, len: usize)
        ensures { self.new ≡ pointers_written part at len self.old }
    {
        match &mut self.table {
            Some(kept) => kept.write(part, at, len),
            None => {}
        }
    }

    /// Stores a pointer at a place that has none.
    pub(crate) fn keep(&mut self, place: u8, value: Value)
        requires inside { place < 64 }
        requires empty { pointer_at place self.old ≡ None }
        ensures { self.new ≡ (place, value) ∷ self.old }
    {
        match &mut self.table {
            Some(kept) => kept.keep(place, value),
            None => {
                let mut kept = KeptPointers::new();
                kept.keep(place, value);
                self.table = Some(kept);
            }
        }
    }
}
