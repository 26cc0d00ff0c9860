//! The registers r0 to r10.

ghost use Rattle.std.specs.Prelude.{◌≡◌, length, replicate, slice_index_or, slice_set, IfSome, pos};
ghost use Rattle.rb_semantics.specs.declared.value.MemoryRegion.TheVariants.{Stack, Context};
ghost use Rattle.rb_semantics.specs.declared.value.Value.TheVariants.{Nothing, Pointer};
ghost use Rattle.rb_interp.specs.inner.RegisterValues.{IsKeptAs, renumbered, shown_value};

use crate::offsets::{signed, unsigned};
use rb_insn::Reg;
use rb_semantics::{MemoryRegion, Value};
use std::marker::Model;

/// The kind of a register's value; for a pointer, the part of memory that it points to.
#[derive(Clone, Copy)]
pub(crate) enum Kind {
    /// No value.
    Nothing,
    /// A number.
    Number,
    /// A pointer to the stack.
    Stack,
    /// A pointer to the context.
    Context,
    /// A pointer to the record with this name.
    Record(u32),
    /// The ring with this number.
    Ring(u32),
}

/// The registers r0 to r10: for each, a number, which for a pointer is its offset in two's complement, and beside it
/// the kind, which arithmetic neither reads nor writes. Contracts see the values.
#[derive(Drop)]
pub(crate) struct Registers {
    kinds: [Kind; 11],
    numbers: [u64; 11],
}

impl Model for Registers {
    ghost use Rattle.std.specs.Prelude.{◌≡◌, length};
    ghost use Rattle.rb_interp.specs.inner.RegisterValues.{RegisterValues, shown_values};

    ghost Value = { RegisterValues };

    ghost view = { λ r. shown_values r.kinds r.numbers };

    ghost invariant = { λ r. length r.kinds ≡ 11 };
}

impl Registers {
    /// Creates the registers with which a program starts: r1 points to its context, r10 to the end of its stack, and
    /// the others have no value.
    pub(crate) fn at_entry() -> Registers
        ensures { result ≡ slice_set (slice_set (replicate 11 Nothing) 1 (Pointer Context (pos 0))) 10 (Pointer Stack (pos 0)) }
    {
        let mut registers = Registers {
            kinds: [Kind::Nothing; 11],
            numbers: [0; 11],
        };
        registers.set_entry();
        registers
    }

    /// Resets the registers to those with which a program starts.
    pub(crate) fn set_entry(&mut self)
        ensures { self.new ≡ slice_set (slice_set (replicate 11 Nothing) 1 (Pointer Context (pos 0))) 10 (Pointer Stack (pos 0)) }
    {
        self.kinds = [Kind::Nothing; 11];
        self.numbers = [0; 11];
        self.set(Reg::R1, Value::Pointer(MemoryRegion::Context, 0));
        self.set(Reg::R10, Value::Pointer(MemoryRegion::Stack, 0));
    }

    #[inline(always)]
    /// The invariant that there are eleven registers. For the proofs of callers; it does nothing at run time.
    pub(crate) fn facts(&self)
        ensures { length self.now ≡ 11 }
    {
        let _ = &self.kinds;
        let _ = &self.numbers;
    }

    #[inline(always)]
    /// Returns the value of a register.
    pub(crate) fn get(&self, reg: Reg) -> Value
        ensures { result ≡ slice_index_or self.now reg.number Nothing }
    {
        let at = reg.index();
        shown(self.kinds[at], self.numbers[at])
    }

    #[inline(always)]
    /// Returns the value of a register if it is a number.
    pub(crate) fn get_number(&self, reg: Reg) -> Option<Value>
        ensures { IfSome result (λ v. v ≡ slice_index_or self.now reg.number Nothing) }
    {
        match self.kinds[reg.index()] {
            Kind::Number => Some(self.get(reg)),
            _ => None,
        }
    }

    #[inline(always)]
    /// Returns the value of a register if it is a stack pointer.
    pub(crate) fn get_stack(&self, reg: Reg) -> Option<Value>
        ensures { IfSome result (λ v. v ≡ slice_index_or self.now reg.number Nothing) }
    {
        match self.kinds[reg.index()] {
            Kind::Stack => Some(self.get(reg)),
            _ => None,
        }
    }

    #[inline(always)]
    /// Returns the value of a register if it is a record pointer.
    pub(crate) fn get_record(&self, reg: Reg) -> Option<Value>
        ensures { IfSome result (λ v. v ≡ slice_index_or self.now reg.number Nothing) }
    {
        match self.kinds[reg.index()] {
            Kind::Record(_) => Some(self.get(reg)),
            _ => None,
        }
    }

    #[inline(always)]
    /// Returns the number in a register, or the offset of its pointer in two's complement.
    pub(crate) fn number(&self, reg: Reg) -> u64
        ensures { IsKeptAs (slice_index_or self.now reg.number Nothing) result }
    {
        self.numbers[reg.index()]
    }

    #[inline(always)]
    /// Sets a register.
    pub(crate) fn set(&mut self, reg: Reg, value: Value)
        ensures { self.new ≡ slice_set self.old reg.number value }
    {
        let (kind, number) = kept(value);
        let at = reg.index();
        self.kinds[at] = kind;
        self.numbers[at] = number;
    }

    #[inline(always)]
    /// Makes r1 to r5, which pass a call's arguments, unreadable.
    pub(crate) fn clear_arguments(&mut self)
        ensures { self.new ≡ slice_set (slice_set (slice_set (slice_set (slice_set self.old 1 Nothing) 2 Nothing) 3 Nothing) 4 Nothing) 5 Nothing }
    {
        self.kinds[1] = Kind::Nothing;
        self.kinds[2] = Kind::Nothing;
        self.kinds[3] = Kind::Nothing;
        self.kinds[4] = Kind::Nothing;
        self.kinds[5] = Kind::Nothing;
    }

    #[inline(always)]
    /// Copies a register to another.
    pub(crate) fn copy(&mut self, dst: Reg, src: Reg)
        ensures { self.new ≡ slice_set self.old dst.number (slice_index_or self.old src.number Nothing) }
    {
        self.kinds[dst.index()] = self.kinds[src.index()];
        self.numbers[dst.index()] = self.numbers[src.index()];
    }

    #[inline(always)]
    /// Replaces the number in a register, or the offset of its pointer.
    pub(crate) fn renumber(&mut self, reg: Reg, number: u64)
        ensures { self.new ≡ slice_set self.old reg.number (renumbered (slice_index_or self.old reg.number Nothing) number) }
    {
        self.numbers[reg.index()] = number;
    }
}

#[inline(always)]
/// Returns the value with this kind and this stored number.
fn shown(kind: Kind, number: u64) -> Value
    ensures { result ≡ shown_value kind number }
{
    match kind {
        Kind::Nothing => Value::Nothing,
        Kind::Number => Value::Number(number),
        Kind::Stack => Value::Pointer(MemoryRegion::Stack, signed(number)),
        Kind::Context => Value::Pointer(MemoryRegion::Context, signed(number)),
        Kind::Record(id) => Value::Pointer(MemoryRegion::Record(id), signed(number)),
        Kind::Ring(ring) => Value::Ring(ring),
    }
}

#[inline(always)]
/// Returns the kind of a value, and the number to store for it.
fn kept(value: Value) -> (Kind, u64)
    ensures { shown_value result.0 result.1 ≡ value }
{
    match value {
        Value::Nothing => (Kind::Nothing, 0),
        Value::Number(number) => (Kind::Number, number),
        Value::Pointer(MemoryRegion::Stack, offset) => (Kind::Stack, unsigned(offset)),
        Value::Pointer(MemoryRegion::Context, offset) => (Kind::Context, unsigned(offset)),
        Value::Pointer(MemoryRegion::Record(id), offset) => (Kind::Record(id), unsigned(offset)),
        Value::Ring(ring) => (Kind::Ring(ring), 0),
    }
}
