//! The memory that a program can access: its parts, and the names of the records in them.

ghost use Rattle.std.specs.Prelude.{◌≡◌, ◌≢◌, ℕ, ◌<◌, ◌≤◌, ◌+◌, [], ◌∷◌, ◌++◌, None, Some, replicate, length, take, drop};
ghost use Rattle.byteorder.specs.Endian.{little_bytes};
ghost use Rattle.rb_insn.specs.Sizes.{byte_count};
ghost use Rattle.rb_lend.specs.Ranges.{written_at};
ghost use Rattle.rb_semantics.specs.ProgramMemory.{byte_of, place_at, read, write, spill};
ghost use Rattle.rb_interp.specs.StoredMemory.{StoredMemory, program_memory_of, held_record, others, Rewrites};
ghost use Rattle.rb_interp.specs.inner.NearOffsets.{IsNear};
ghost use Rattle.rb_interp.specs.inner.SlotTable.{part_named};
ghost use Rattle.rb_interp.specs.inner.KeptPointers.{filled, IsSlotPlace};

use crate::byte_numbers::put_number;
use crate::compiler_facts::known;
use crate::pointer_table::PointerTable;
use crate::slot_table::{SlotEntry, entry_of, remove_entries};
use crate::{Context, Part, Parts};
use arrayvec::ArrayVec;
use rb_insn::Size;
use rb_lend::Lent;
use rb_semantics::{MemoryRegion, Value, writes_take_pointers_out};
use std::marker::Model;

/// The memory that a program can access.
///
/// Contracts see the bytes of the stack, the pointers on it, the context, and the records that are held, each with its
/// name, in the order in which they were reserved.
#[derive(Drop)]
pub(crate) struct MachineMemory<C, R> {
    parts: Parts<C, R>,
    pointers: PointerTable,
    entries: ArrayVec<SlotEntry, 4>,
}

impl<C, R> Model for MachineMemory<C, R> {
    ghost use Rattle.rb_interp.specs.StoredMemory.{StoredMemory};
    ghost use Rattle.rb_interp.specs.inner.SlotTable.{named, IsTable};

    ghost Value = { StoredMemory C R };

    ghost view = { λ m. record { stack = m.parts.stack; pointers = m.pointers; context = m.parts.context; records = named m.entries.items m.parts.records } };

    ghost invariant = { λ m. IsTable m.entries.items m.parts.records };
}

impl<C, R> MachineMemory<C, R> {
    /// Creates a memory with a zeroed stack without pointers, a context, and no records.
    pub(crate) fn new(context: C) -> MachineMemory<C, R>
        ensures { result ≡ record { stack = replicate 512 0; pointers = []; context = context; records = [] } }
    {
        MachineMemory {
            parts: Parts::new(context),
            pointers: PointerTable::new(),
            entries: ArrayVec::new(),
        }
    }

    /// Resets the memory, in place, and drops the records of the previous program. The pointer table's storage is not
    /// cleared.
    pub(crate) fn restart(&mut self, context: C)
    where
        C: Drop,
        R: Drop,
        ensures { self.new ≡ record { stack = replicate 512 0; pointers = []; context = context; records = [] } }
    {
        self.parts.restart(context);
        self.pointers.clear();
        self.entries.clear();
    }

    /// Adds a record.
    pub(crate) fn hold(&mut self, id: u32, owned: R)
    where
        R: Drop,
        requires few { length self.old.records < 4 }
        requires fresh { held_record id self.old.records ≡ None }
        ensures { self.new ≡ record self.old { records = self.old.records ++ (id, owned) ∷ [] } }
    {
        match self.parts.records.hold(owned) {
            Ok(slot) => self.entries.push(SlotEntry { id, slot }),
            Err(_) => {
                known(false);
                unreachable!()
            }
        }
    }

    /// Removes and returns a record.
    pub(crate) fn give(&mut self, id: u32) -> R
        requires { held_record id self.old.records ≢ None }
        ensures given { held_record id self.old.records ≡ Some result }
        ensures rest { self.new ≡ record self.old { records = others id self.old.records } }
    {
        let Some(entry) = entry_of(self.entries.as_slice(), id) else {
            known(false);
            unreachable!()
        };
        let Some(owned) = self.parts.records.give(entry.slot) else {
            known(false);
            unreachable!()
        };
        remove_entries(&mut self.entries, id);
        owned
    }
}

#[inline(always)]
/// Returns the part that `place` names, and the index of the byte at `offset`, counted from the part's first byte.
fn located(entries: &[SlotEntry], place: MemoryRegion, offset: i64) -> (Part, usize)
    requires near { IsNear offset }
    requires held { part_named entries.now place ≢ None }
    requires counted { byte_of place offset ≢ None }
    ensures part { part_named entries.now place ≡ Some result.0 }
    ensures byte { byte_of place offset ≡ Some result.1 }
{
    match place {
        MemoryRegion::Stack => (Part::Stack, (offset + 512) as usize),
        MemoryRegion::Context => (Part::Ctx, offset as usize),
        MemoryRegion::Record(id) => match entry_of(entries, id) {
            Some(entry) => (Part::Record(entry.slot), offset as usize),
            None => {
                known(false);
                unreachable!()
            }
        },
    }
}

/// Returns the place of the stack that begins at an offset.
fn place_beginning(offset: i64) -> u8
    requires near { IsNear offset }
    requires place { IsSlotPlace (place_at MemoryRegion.Stack offset) }
    ensures { place_at MemoryRegion.Stack offset ≡ Some result }
{
    ((offset + 512) as usize / 8) as u8
}

impl<C: Context, R: Lent> MachineMemory<C, R> {
    #[inline(always)]
    /// Returns the `len` bytes from an offset of a part on.
    pub(crate) fn read(&self, place: MemoryRegion, offset: i64, len: usize) -> &[u8]
        requires near { IsNear offset }
        requires inside { read (program_memory_of R.bytes_of C.shown self.now) place offset len ≢ None }
        ensures bytes { read (program_memory_of R.bytes_of C.shown self.now) place offset len ≡ Some result.now }
        ensures length { length result.now ≡ len }
    {
        let (part, at) = located(self.entries.as_slice(), place, offset);
        self.parts.range(part, at, len)
    }

    #[inline(always)]
    /// Writes the low bytes of a number from an offset of a part on, the lowest first.
    pub(crate) fn store(&mut self, place: MemoryRegion, offset: i64, size: Size, number: u64)
        requires near { IsNear offset }
        requires stack { length self.old.stack ≡ 512 }
        requires inside { write (program_memory_of R.bytes_of C.shown self.old) place offset (little_bytes (byte_count size) number) ≢ None }
        ensures written { write (program_memory_of R.bytes_of C.shown self.old) place offset (little_bytes (byte_count size) number) ≡ Some (program_memory_of R.bytes_of C.shown self.new) }
        ensures same { Rewrites R.with_bytes self.old.records self.new.records }
    {
        let (part, at) = located(self.entries.as_slice(), place, offset);
        let len = size.bytes();
        self.pointers.write(place, at, len);
        let bytes = self.parts.range_mut(part, at, len);
        put_number(size, bytes, number);
    }

    /// Stores a pointer at the place of the stack that begins at an offset.
    pub(crate) fn keep(&mut self, place: MemoryRegion, offset: i64, value: Value)
        requires near { IsNear offset }
        requires stack { length self.old.stack ≡ 512 }
        requires inside { spill (program_memory_of R.bytes_of C.shown self.old) place offset value ≢ None }
        ensures kept { spill (program_memory_of R.bytes_of C.shown self.old) place offset value ≡ Some (program_memory_of R.bytes_of C.shown self.new) }
        ensures same { Rewrites R.with_bytes self.old.records self.new.records }
    {
        writes_take_pointers_out();
        self.store(place, offset, Size::Double, 0);
        self.pointers.keep(place_beginning(offset), value);
    }

    #[inline(always)]
    /// Returns the pointer that a load finds at an offset of a part, if there is one.
    pub(crate) fn found(&self, size: Size, place: MemoryRegion, offset: i64) -> Option<Value>
        requires { IsNear offset }
        ensures { result ≡ filled size (program_memory_of R.bytes_of C.shown self.now) place offset }
    {
        match (size, place) {
            (Size::Double, MemoryRegion::Stack) => self.pointers.beginning(offset + 512),
            _ => None,
        }
    }

    #[inline(always)]
    /// Returns the `len` bytes of the stack from byte `at` on.
    pub(crate) fn stack_bytes(&self, at: usize, len: usize) -> &[u8]
        requires { at + len ≤ length self.now.stack }
        ensures bytes { result.now ≡ take len (drop at self.now.stack) }
        ensures length { length result.now ≡ len }
    {
        &self.parts.stack.bytes()[at..at + len]
    }

    #[inline(always)]
    /// Writes the low bytes of a number to the stack from byte `at` on, the lowest first. The bytes must not belong to
    /// a pointer.
    pub(crate) fn store_on_stack(&mut self, at: usize, size: Size, number: u64)
        requires { at + byte_count size ≤ 512 }
        ensures { self.new ≡ record self.old { stack = written_at at self.old.stack (little_bytes (byte_count size) number) } }
    {
        let bytes = self.parts.stack.range_mut(at, size.bytes());
        put_number(size, bytes, number);
    }
}
