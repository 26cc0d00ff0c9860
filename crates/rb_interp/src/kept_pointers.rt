//! The pointers that a program keeps on its stack.

ghost use Rattle.std.specs.Prelude.{◌≡◌, ◌<◌, length, filter, IfSome, IfNone, false, true, slice_index_or};
ghost use Rattle.rb_verifier.specs.StackPlaces.{touches};
ghost use Rattle.rb_semantics.specs.StackPointers.{is_pointer_among, pointer_at};
ghost use Rattle.rb_interp.specs.inner.KeptPointers.{pointers_of, entry_left};

use arrayvec::ArrayVec;
use rb_semantics::{MemoryRegion, Value};
use std::marker::Model;

/// A pointer or a ring on the stack, with its place (an aligned 8-byte slot).
#[derive(Clone, Copy, Debug)]
pub struct KeptPointer {
    pub place: u8,
    pub value: Value,
}

impl Default for KeptPointer {
    fn default() -> KeptPointer {
        KeptPointer {
            place: 0,
            value: Value::Nothing,
        }
    }
}

/// The pointers on the stack, at most one at each of its 64 places. Contracts see them with their places, the newest
/// first.
#[derive(Drop)]
pub(crate) struct KeptPointers {
    entries: ArrayVec<KeptPointer, 64>,
}

impl Model for KeptPointers {
    ghost use Rattle.rb_semantics.specs.StackPointers.{StackPointers};
    ghost use Rattle.rb_interp.specs.inner.KeptPointers.{pointers_of, AreAtPlaces};

    ghost Value = { StackPointers };

    ghost view = { λ k. pointers_of k.entries.items };

    ghost invariant = { λ k. AreAtPlaces 64 (pointers_of k.entries.items) };
}

/// Whether a place overlaps the `len` bytes from byte `at` on.
fn touches_place(at: usize, len: usize, place: u8) -> bool
    ensures { result ≡ touches at len place }
{
    let first = usize::from(place) * 8;
    at < first + 8 && 0 < len && (first < at || first - at < len)
}

/// Returns the index of the first entry whose place overlaps the `len` bytes from byte `at` on.
fn first_touched(entries: &[KeptPointer], at: usize, len: usize) -> Option<usize>
    ensures found { IfSome result (λ i. (i < length entries.now) × ((d : KeptPointer) → touches at len (slice_index_or entries.now i d).place ≡ true)) }
    ensures none { IfNone result (is_pointer_among at len (pointers_of entries.now) ≡ false) }
{
    for (i, entry) in entries.iter().enumerate() {
        if touches_place(at, len, entry.place) {
            return Some(i);
        }
    }
    None
}

#[inline(always)]
/// Removes the entries whose places overlap the `len` bytes from byte `at` on.
fn remove_touched(entries: &mut ArrayVec<KeptPointer, 64>, at: usize, len: usize)
    ensures { entries.new.items ≡ filter (entry_left at len) entries.old.items }
{
    if !entries.is_empty() {
        remove_each_touched(entries, at, len);
    }
}

#[inline(never)]
/// Removes, one by one, the entries whose places overlap the `len` bytes from byte `at` on.
fn remove_each_touched(entries: &mut ArrayVec<KeptPointer, 64>, at: usize, len: usize)
    ensures { entries.new.items ≡ filter (entry_left at len) entries.old.items }
{
    while let Some(i) = first_touched(entries.as_slice(), at, len) {
        let _ = entries.remove(i);
    }
}

/// Returns the pointer that the entries hold at a place.
fn kept_at(entries: &[KeptPointer], place: usize) -> Option<Value>
    ensures { result ≡ pointer_at place (pointers_of entries.now) }
{
    for entry in entries {
        if usize::from(entry.place) == place {
            return Some(entry.value);
        }
    }
    None
}

impl KeptPointers {
    ghost use Rattle.std.specs.Prelude.{◌≡◌, ◌<◌, [], ◌∷◌, None};
    ghost use Rattle.rb_semantics.specs.StackPointers.{pointer_at};
    ghost use Rattle.rb_interp.specs.inner.KeptPointers.{pointers_written, beginning_at};

    /// Returns an empty set of pointers.
    pub(crate) fn new() -> KeptPointers
        ensures { result ≡ [] }
    {
        KeptPointers {
            entries: ArrayVec::new(),
        }
    }

    /// Removes all pointers.
    pub(crate) fn clear(&mut self)
        ensures { self.new ≡ [] }
    {
        self.entries.clear();
    }

    #[inline(always)]
    /// Returns the pointer at the place that begins at a byte of the stack, if there is one.
    pub(crate) fn beginning(&self, byte: i64) -> Option<Value>
        ensures { result ≡ beginning_at byte self.now }
    {
        if self.entries.is_empty() {
            return None;
        }
        self.beginning_among(byte)
    }

    #[inline(never)]
    /// Returns the same if the set is not empty.
    fn beginning_among(&self, byte: i64) -> Option<Value>
        ensures { result ≡ beginning_at byte self.now }
    {
        if byte < 0 || byte % 8 != 0 {
            return None;
        }
        kept_at(self.entries.as_slice(), (byte / 8) as usize)
    }

    #[inline(always)]
    /// Updates the pointers for a write of the `len` bytes from byte `at` of a part on: places of the stack that
    /// overlap them lose their pointers.
    pub(crate) fn write(&mut self, part: MemoryRegion, at: usize, len: usize)
        ensures { self.new ≡ pointers_written part at len self.old }
    {
        match part {
            MemoryRegion::Stack => remove_touched(&mut self.entries, at, len),
            MemoryRegion::Context => {}
            MemoryRegion::Record(_) => {}
        }
    }

    /// Stores a pointer at a place that has none.
    pub(crate) fn keep(&mut self, place: u8, value: Value)
        requires inside { place < 64 }
        requires empty { pointer_at place self.old ≡ None }
        ensures { self.new ≡ (place, value) ∷ self.old }
    {
        self.entries.insert(0, KeptPointer { place, value });
    }
}
