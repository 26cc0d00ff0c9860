//! The order of abstract states, and their join.

ghost use Rattle.std.specs.Prelude.{◌≡◌, ◌≢◌, ◌↔◌, IsTrue, MatchOption, IfOk, IsErr};
ghost use Rattle.rb_verifier.specs.KeptPointers.{all_data};
ghost use Rattle.rb_verifier.specs.AbstractValues.{IsNumber, BelowValue};
ghost use Rattle.rb_verifier.specs.AbstractStates.{Below};
ghost use Rattle.rb_verifier.specs.Joins.{IsJoin};
ghost use Rattle.rb_verifier.specs.inner.ValueJoins.{IsJoinValue};

use crate::state::AbsState;
use crate::value::Abs;
use std::alloc::AllocError;

/// Returns whether an abstract value is a number, known or not.
pub(crate) fn is_number(value: Abs) -> bool
    ensures { IsTrue result ↔ IsNumber value }
{
    match value {
        Abs::Number | Abs::Known(_) => true,
        _ => false,
    }
}

/// Returns whether `value` is below `upper`: every concrete value that `value` describes, `upper` describes too.
pub(crate) fn is_below(value: Abs, upper: Abs) -> bool
    ensures { IsTrue result ↔ BelowValue value upper }
{
    match upper {
        Abs::Unreadable => true,
        Abs::Number => is_number(value),
        _ => value == upper,
    }
}

/// Returns the least abstract value above both.
pub(crate) fn join_value(left: Abs, right: Abs) -> Abs
    ensures { IsJoinValue left right result }
{
    if left == right {
        left
    } else if is_number(left) && is_number(right) {
        Abs::Number
    } else {
        Abs::Unreadable
    }
}

/// Returns whether a state is below another: the references are the same, and the abstract value of each register and
/// of each place of the stack is below.
pub fn below(state: &AbsState, upper: &AbsState) -> bool
    ensures { IsTrue result ↔ Below state.now upper.now }
{
    if !state.held.is_same(&upper.held) {
        return false;
    }
    for i in 0..11 {
        if !is_below(state.values[i], upper.values[i]) {
            return false;
        }
    }
    state.places.are_below(&upper.places)
}

/// Returns the join of two states, the least state above both, or `None` exactly if their references differ.
///
/// Allocates only if the stack may hold pointers.
pub fn join(left: &AbsState, right: &AbsState) -> Result<Option<AbsState>, AllocError>
    ensures joined { IfOk result (λ answer. MatchOption answer (left.now.held ≢ right.now.held) (λ join. IsJoin left.now right.now join)) }
    ensures memory { IsErr result → ¬ ((left.now.places ≡ all_data) × (right.now.places ≡ all_data)) }
{
    if !left.held.is_same(&right.held) {
        return Ok(None);
    }
    let places = left.places.joined(&right.places)?;
    let mut values = left.values;
    for i in 0..11 {
        values[i] = join_value(values[i], right.values[i]);
    }
    Ok(Some(AbsState {
        values,
        held: left.held.copy(),
        places,
    }))
}
