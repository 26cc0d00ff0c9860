//! The abstract contents of the stack.

ghost use Rattle.std.specs.Prelude.{◌≡◌, ◌≤◌, ◌<◌, ◌+◌, ◌-◌, ◌↔◌, ℕ, IfOk, ◌≢◌, IsErr, IsTrue, true, false, length, slice_index_or};
ghost use Rattle.rb_verifier.specs.AbstractValues.{BelowValue};
ghost use Rattle.rb_verifier.specs.StackPlaces.{touches, whole_place};
ghost use Rattle.rb_verifier.specs.KeptPointers.{IsPlaceValue, all_data, known_in, listed_places, with_place, with_data, may_keep, MayKeepPointer};
ghost use Rattle.rb_verifier.specs.inner.ChangedValues.{place_after};
ghost use Rattle.rb_verifier.specs.inner.ValueJoins.{IsJoinValue};

use crate::join_order::{is_below, is_number, join_value};
use crate::reference_changes::Change;
use crate::value::Abs;
use std::alloc::{AllocError, Global};
use std::marker::Model;

/// The number of the last place of the stack.
const LAST_PLACE: u64 = 63;

/// The abstract contents of the 64 *places* of the stack, its aligned 8-byte slots: for each, the abstract value of a
/// register that loads it.
///
/// Place 0 has the first eight bytes of the stack. The value of data is never tracked, so a place with data is a
/// `Number`. Takes memory for the places from the end of the stack down to the lowest one that may hold a pointer.
///
/// Contracts see the abstract value of each place.
#[derive(Debug, Drop)]
pub struct Places {
    /// The places from the last one down; places that are not listed hold data.
    items: Vec<Abs>,
}

impl Model for Places {
    ghost use Rattle.std.specs.Prelude.{List};
    ghost use Rattle.rb_verifier.specs.declared.value.Abs.{Abs};
    ghost use Rattle.rb_verifier.specs.KeptPointers.{listed_places};
    ghost use Rattle.rb_verifier.specs.inner.KeptList.{from_last, IsKeptList};

    ghost Value = { List Abs };

    ghost view = { λ p. listed_places (from_last p.items.items) };

    ghost invariant = { λ p. IsKeptList p.items.items };
}

/// Returns the place that has exactly the `len` bytes from byte `at` on.
pub(crate) fn whole_place(at: u64, len: u64) -> Option<u64>
    ensures { result ≡ whole_place at len }
{
    if len == 8 && at % 8 == 0 {
        Some(at / 8)
    } else {
        None
    }
}

/// Returns whether a place overlaps the `len` bytes from byte `at` on.
fn touches(at: u64, len: u64, place: u64) -> bool
    requires { at + len ≤ 512 }
    ensures { result ≡ touches at len place }
{
    0 < len && at / 8 <= place && place <= (at + len - 1) / 8
}

/// Returns whether all of these are `Number`.
fn are_numbers(values: &[Abs]) -> bool
    ensures all { result ≡ true → (k : ℕ) → slice_index_or values.now k Abs.Number ≡ Abs.Number }
    ensures other { result ≡ false → (k : ℕ) × (k < length values.now) × (slice_index_or values.now k Abs.Number ≢ Abs.Number) }
{
    for value in values {
        if *value != Abs::Number {
            return false;
        }
    }
    true
}

impl Places {
    /// Returns places that all hold data. Allocates nothing.
    pub(crate) fn without_pointers(alloc: Global) -> Places
        ensures { result ≡ all_data }
    {
        Places {
            items: Vec::new(alloc),
        }
    }

    /// Returns whether every place holds data.
    fn have_data(&self) -> bool
        ensures all { result ≡ true → self.now ≡ all_data }
        ensures pointer { result ≡ false → MayKeepPointer self.now }
    {
        are_numbers(self.items.as_slice())
    }

    /// Returns a copy of the places. Allocates only if one may hold a pointer.
    pub(crate) fn copy(&self) -> Result<Places, AllocError>
        ensures same { IfOk result (λ copy. copy ≡ self.now) }
        ensures memory { IsErr result → MayKeepPointer self.now }
    {
        if self.have_data() {
            return Ok(Places::without_pointers(*self.items.allocator()));
        }
        let items = Vec::from_slice(*self.items.allocator(), self.items.as_slice())?;
        Ok(Places { items })
    }

    /// Returns the abstract value of a place. It is never a known number.
    pub fn get(&self, place: u64) -> Abs
        ensures known { result ≡ known_in self.now place }
        ensures value { IsPlaceValue result }
    {
        let count = self.items.len();
        if place > LAST_PLACE {
            return Abs::Number;
        }
        let index = (LAST_PLACE - place) as usize;
        if index < count {
            self.items[index]
        } else {
            Abs::Number
        }
    }

    /// Returns the abstract value of place `here` after `place` is set to `value`.
    fn value_after_set(&self, here: u64, place: u64, value: Abs) -> Abs
        requires { IsPlaceValue value }
        ensures known { result ≡ with_place place value (known_in self.now) here }
        ensures value { IsPlaceValue result }
    {
        if here == place { value } else { self.get(here) }
    }

    /// Returns the abstract value of place `here` after data is stored to the `len` bytes from byte `at` on.
    fn value_after_data(&self, here: u64, at: u64, len: u64) -> Abs
        requires { at + len ≤ 512 }
        ensures known { result ≡ with_data at len (known_in self.now) here }
        ensures value { IsPlaceValue result }
    {
        if touches(at, len, here) {
            Abs::Number
        } else {
            self.get(here)
        }
    }

    /// Returns how many places, from the last one down, may hold a pointer.
    fn count(&self) -> usize
        ensures few { result ≤ 64 }
        ensures others { (place : ℕ) → result + place ≤ 63 → known_in self.now place ≡ Abs.Number }
        ensures beyond { (place : ℕ) → 63 < place → known_in self.now place ≡ Abs.Number }
    {
        self.items.len()
    }

    /// Returns a copy of the places in which `place` has this value, which must not be a known number: a place with
    /// data is a `Number`. Allocates.
    pub fn with_place(&self, place: u64, value: Abs) -> Result<Places, AllocError>
        requires place { place ≤ 63 }
        requires value { IsPlaceValue value }
        ensures { IfOk result (λ new. new ≡ listed_places (with_place place value (known_in self.now))) }
    {
        let index = (LAST_PLACE - place) as usize;
        let count = self.count().max(index + 1);
        let mut items = Vec::with_capacity(*self.items.allocator(), count)?;
        for i in 0..count {
            let here = LAST_PLACE - i as u64;
            items.push(self.value_after_set(here, place, value))?;
        }
        Ok(Places { items })
    }

    /// Returns a copy of the places in which those that overlap the `len` bytes from byte `at` on hold data.
    pub(crate) fn with_data(&self, at: u64, len: u64) -> Result<Places, AllocError>
        requires { at + len ≤ 512 }
        ensures stored { IfOk result (λ new. new ≡ listed_places (with_data at len (known_in self.now))) }
        ensures memory { IsErr result → MayKeepPointer self.now }
    {
        if self.have_data() {
            return Ok(Places::without_pointers(*self.items.allocator()));
        }
        let mut items = Vec::with_capacity(*self.items.allocator(), self.count())?;
        for i in 0..self.count() {
            let here = LAST_PLACE - i as u64;
            items.push(self.value_after_data(here, at, len))?;
        }
        Ok(Places { items })
    }

    /// Returns the places after a change of a reference.
    pub(crate) fn changed(&self, change: Change) -> Result<Places, AllocError>
        ensures changed { IfOk result (λ new. new ≡ listed_places (λ place. place_after change (known_in self.now place))) }
        ensures memory { IsErr result → MayKeepPointer self.now }
    {
        if self.have_data() {
            return Ok(Places::without_pointers(*self.items.allocator()));
        }
        let mut items = Vec::with_capacity(*self.items.allocator(), self.count())?;
        for i in 0..self.count() {
            let here = LAST_PLACE - i as u64;
            items.push(self.get(here).changed_place(change))?;
        }
        Ok(Places { items })
    }

    /// Returns the least places above both, place by place.
    pub(crate) fn joined(&self, other: &Places) -> Result<Places, AllocError>
        ensures joined { IfOk result (λ join. (place : ℕ) → IsJoinValue (known_in self.now place) (known_in other.now place) (known_in join place)) }
        ensures memory { IsErr result → ¬ ((self.now ≡ all_data) × (other.now ≡ all_data)) }
    {
        if self.have_data() && other.have_data() {
            return Ok(Places::without_pointers(*self.items.allocator()));
        }
        let count = self.count().max(other.count());
        let mut items = Vec::with_capacity(*self.items.allocator(), count)?;
        for i in 0..count {
            let here = LAST_PLACE - i as u64;
            items.push(join_value(self.get(here), other.get(here)))?;
        }
        Ok(Places { items })
    }

    /// Returns whether each place is below that of `upper`.
    pub(crate) fn are_below(&self, upper: &Places) -> bool
        ensures { IsTrue result ↔ ((place : ℕ) → BelowValue (known_in self.now place) (known_in upper.now place)) }
    {
        for i in 0..self.count().max(upper.count()) {
            let here = LAST_PLACE - i as u64;
            if !is_below(self.get(here), upper.get(here)) {
                return false;
            }
        }
        true
    }

    /// Returns whether one of the `len` bytes from byte `at` on may belong to a pointer.
    pub(crate) fn may_keep(&self, at: u64, len: u64) -> bool
        requires { at + len ≤ 512 }
        ensures { result ≡ may_keep at len (known_in self.now) }
    {
        for i in 0..self.count() {
            let here = LAST_PLACE - i as u64;
            if touches(at, len, here) && !is_number(self.get(here)) {
                return true;
            }
        }
        false
    }
}
