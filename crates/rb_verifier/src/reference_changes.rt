//! How a null test, and the submit or discard of a record, change every register, place of the stack and reference.

ghost use Rattle.std.specs.Prelude.{◌≡◌, map, IfOk, IsErr};
ghost use Rattle.rb_verifier.specs.KeptPointers.{MayKeepPointer};
ghost use Rattle.rb_verifier.specs.ReferenceChanges.{null_state, there_state, given_back_state};
ghost use Rattle.rb_verifier.specs.inner.ChangedValues.{after_change, place_after};

use crate::state::AbsState;
use crate::value::Abs;
use std::alloc::AllocError;

/// A change of a reservation, identified by its id.
#[derive(Clone, Copy)]
pub(crate) enum Change {
    /// The null test found null.
    IsNull(u32),
    /// The null test found a record.
    IsThere(u32),
    /// The record was submitted or discarded.
    GivenBack(u32),
}

impl Abs {
    /// Returns the abstract value after the change.
    fn changed(self, change: Change) -> Abs
        ensures { result ≡ after_change change self }
    {
        match (change, self) {
            (Change::IsNull(id), Abs::Perhaps(other)) if other == id => Abs::Known(0),
            (Change::IsThere(id), Abs::Perhaps(other)) if other == id => Abs::Record(id, 0),
            (Change::GivenBack(id), Abs::Record(other, _)) if other == id => Abs::Unreadable,
            _ => self,
        }
    }

    /// Returns the abstract value of a stack place after the change: a place that holds a null has data.
    pub(crate) fn changed_place(self, change: Change) -> Abs
        ensures { result ≡ place_after change self }
    {
        match (change, self) {
            (Change::IsNull(id), Abs::Perhaps(other)) if other == id => Abs::Number,
            _ => self.changed(change),
        }
    }
}

/// Returns the abstract values of all registers after the change.
fn changed_values(mut values: [Abs; 11], change: Change) -> [Abs; 11]
    ensures { result ≡ map (after_change change) values }
{
    for i in 0..11 {
        values[i] = values[i].changed(change);
    }
    values
}

impl AbsState {
    /// Returns the state in which the reservation was null.
    pub(crate) fn assuming_null(&self, id: u32) -> Result<AbsState, AllocError>
        ensures changed { IfOk result (λ state. state ≡ null_state id self.now) }
        ensures memory { IsErr result → MayKeepPointer self.now.places }
    {
        let change = Change::IsNull(id);
        let places = self.places.changed(change)?;
        let others = self.held.without(id);
        Ok(AbsState {
            values: changed_values(self.values, change),
            held: others,
            places,
        })
    }

    /// Returns the state in which the reservation was a record.
    pub(crate) fn assuming_record(&self, id: u32) -> Result<AbsState, AllocError>
        ensures changed { IfOk result (λ state. state ≡ there_state id self.now) }
        ensures memory { IsErr result → MayKeepPointer self.now.places }
    {
        let change = Change::IsThere(id);
        let places = self.places.changed(change)?;
        Ok(AbsState {
            values: changed_values(self.values, change),
            held: self.held.tested(id),
            places,
        })
    }

    /// Returns the state after the record was submitted or discarded.
    pub(crate) fn after_commit(&self, id: u32) -> Result<AbsState, AllocError>
        ensures changed { IfOk result (λ state. state ≡ given_back_state id self.now) }
        ensures memory { IsErr result → MayKeepPointer self.now.places }
    {
        let change = Change::GivenBack(id);
        let places = self.places.changed(change)?;
        Ok(AbsState {
            values: changed_values(self.values, change),
            held: self.held.without(id),
            places,
        })
    }
}
