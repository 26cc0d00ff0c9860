//! The records that a program holds, in four slots.

ghost use Rattle.std.specs.Prelude.{◌≡◌, IfOk, IfErr, IsSome, Some, None, option_map};
ghost use Rattle.std.specs.Borrow.{sem};
ghost use Rattle.rb_interp.specs.inner.SomeOf.{LendsSome};

use crate::compiler_facts::known;
use rb_lend::Lent;

/// One of the four slots for a record.
#[derive(Debug, Clone, Copy, PartialEq, Eq)]
pub enum Slot {
    /// The lowest slot.
    First,
    /// The second lowest slot.
    Second,
    /// The second highest slot.
    Third,
    /// The highest slot.
    Fourth,
}

/// The records that are held, by slot. The calls allocate nothing and examine at most four slots.
#[derive(Drop)]
pub struct Records<R> {
    /// The content of the lowest slot.
    pub first: Option<R>,
    /// The content of the second lowest slot.
    pub second: Option<R>,
    /// The content of the second highest slot.
    pub third: Option<R>,
    /// The content of the highest slot.
    pub fourth: Option<R>,
}

impl<R> Records<R> {
    ghost use Rattle.rb_interp.specs.inner.Lending.{LendsSlot};
    ghost use Rattle.rb_interp.specs.Lending.{LendsRecordIn};
    ghost use Rattle.rb_interp.specs.RecordSlots.{in_slot, with_slot, lowest_empty};

    /// Creates four empty slots.
    pub(crate) fn new() -> Records<R>
        ensures first { result.first ≡ None }
        ensures second { result.second ≡ None }
        ensures third { result.third ≡ None }
        ensures fourth { result.fourth ≡ None }
    {
        Records {
            first: None,
            second: None,
            third: None,
            fourth: None,
        }
    }

    /// Drops the record of each slot that holds one. Does not write to a slot that is empty.
    pub(crate) fn clear(&mut self)
    where
        R: Drop,
        ensures first { self.new.first ≡ None }
        ensures second { self.new.second ≡ None }
        ensures third { self.new.third ≡ None }
        ensures fourth { self.new.fourth ≡ None }
    {
        if self.first.is_some() {
            self.first = None;
        }
        if self.second.is_some() {
            self.second = None;
        }
        if self.third.is_some() {
            self.third = None;
        }
        if self.fourth.is_some() {
            self.fourth = None;
        }
    }

    /// Returns the content of a slot: `None` if and only if it is empty.
    pub(crate) fn get(&self, slot: Slot) -> &Option<R>
        ensures { result.now ≡ in_slot self.now slot }
    {
        match slot {
            Slot::First => &self.first,
            Slot::Second => &self.second,
            Slot::Third => &self.third,
            Slot::Fourth => &self.fourth,
        }
    }

    // Borrows the content of a slot for writing.
    fn slot_mut(&mut self, slot: Slot) -> &mut Option<R>
        ensures* writes_back { sem 𝓛 (LendsSlot R.row self.entry slot result) }
        ensures value { result.now ≡ in_slot self.old slot }
    {
        match slot {
            Slot::First => return &mut self.first,
            Slot::Second => return &mut self.second,
            Slot::Third => return &mut self.third,
            Slot::Fourth => return &mut self.fourth,
        }
    }

    /// Borrows the record in a slot that is not empty for writing. The other slots are unchanged.
    pub(crate) fn record_mut(&mut self, slot: Slot) -> &mut R
        requires { IsSome (in_slot self.old slot) }
        ensures* writes_back { sem 𝓛 (LendsRecordIn R.row self.entry slot result) }
        ensures value { Some result.now ≡ in_slot self.old slot }
    {
        let place = self.slot_mut(slot);
        some_mut(place)
    }

    // Replaces the content of a slot by this record.
    fn put(&mut self, slot: Slot, owned: R)
    where
        R: Drop,
        ensures { self.new ≡ with_slot self.old slot (Some owned) }
    {
        match slot {
            Slot::First => self.first = Some(owned),
            Slot::Second => self.second = Some(owned),
            Slot::Third => self.third = Some(owned),
            Slot::Fourth => self.fourth = Some(owned),
        }
    }

    // Returns the lowest empty slot, if there is one.
    fn empty_slot(&self) -> Option<Slot>
        ensures { result ≡ lowest_empty self.now }
    {
        if self.first.is_none() {
            return Some(Slot::First);
        }
        if self.second.is_none() {
            return Some(Slot::Second);
        }
        if self.third.is_none() {
            return Some(Slot::Third);
        }
        if self.fourth.is_none() {
            return Some(Slot::Fourth);
        }
        None
    }

    /// Puts a record into the lowest empty slot and returns that slot, or returns the record if and only if four are
    /// held already.
    pub(crate) fn hold(&mut self, owned: R) -> Result<Slot, R>
    where
        R: Drop,
        ensures lowest { IfOk result (λ slot. lowest_empty self.old ≡ Some slot) }
        ensures held { IfOk result (λ slot. self.new ≡ with_slot self.old slot (Some owned)) }
        ensures full { IfErr result (λ _. lowest_empty self.old ≡ None) }
        ensures handed_back { IfErr result (λ back. back ≡ owned) }
        ensures unchanged { IfErr result (λ _. self.new ≡ self.old) }
    {
        match self.empty_slot() {
            Some(slot) => {
                self.put(slot, owned);
                Ok(slot)
            }
            None => Err(owned),
        }
    }

    /// Empties a slot and returns its record, the same value that was put in, with the bytes written since. Returns
    /// `None` if and only if the slot was empty.
    pub(crate) fn give(&mut self, slot: Slot) -> Option<R>
        ensures value { result ≡ in_slot self.old slot }
        ensures rest { self.new ≡ with_slot self.old slot None }
    {
        match slot {
            Slot::First => self.first.take(),
            Slot::Second => self.second.take(),
            Slot::Third => self.third.take(),
            Slot::Fourth => self.fourth.take(),
        }
    }
}

impl<R: Lent> Records<R> {
    ghost use Rattle.rb_interp.specs.Lending.{LendsBytesIn};
    ghost use Rattle.rb_interp.specs.RecordSlots.{in_slot};

    /// Borrows the bytes of the record in a slot that is not empty for writing. The other slots are unchanged.
    pub(crate) fn bytes_mut(&mut self, slot: Slot) -> &mut [u8]
        requires { IsSome (in_slot self.old slot) }
        ensures* writes_back { sem 𝓛 (LendsBytesIn R.row R.with_bytes self.entry slot result) }
        ensures value { option_map R.bytes_of (in_slot self.old slot) ≡ Some result.now }
    {
        let owned = self.record_mut(slot);
        owned.bytes_mut()
    }
}

// Borrows the value of an option that is not `None` for writing.
fn some_mut<T>(place: &mut Option<T>) -> &mut T
    requires { IsSome place.old }
    ensures* writes_back { sem 𝓛 (LendsSome T.row place.entry result) }
    ensures value { Some result.now ≡ place.old }
{
    match place {
        Some(value) => value,
        None => {
            known(false);
            unreachable!()
        }
    }
}
