//! The abstract states that arrive at each unit during the pass.

ghost use Rattle.std.specs.Prelude.{◌≡◌, ◌≢◌, ◌<◌, ◌≤◌, ℕ, Some, IfOk, OnOk, vec_len};
ghost use Rattle.rb_verifier.specs.AbstractStates.{along_jump};
ghost use Rattle.rb_verifier.specs.inner.Sweep.{IsMerged, TakesArrival, Flows, AreFirstArrivals, noted_at};

use crate::{AbsState, join};
use std::alloc::{AllocError, Global};
use std::mem;

/// The merge of the states that have arrived at a unit so far.
#[derive(Drop)]
pub(crate) enum Arrival {
    /// No state has arrived yet.
    Nothing,
    /// The join of the states that arrived: the least state above all of them.
    Least(AbsState),
    /// Two states with different references arrived.
    Differ,
}

#[inline(never)]
/// Joins another arriving state with `least`. Kept out of line, because the common case is a single arrival.
fn joined(least: &AbsState, state: AbsState) -> Result<Arrival, AllocError>
    ensures { IfOk result (IsMerged (Arrival.Least least.now) state) }
{
    match join(least, &state) {
        Ok(Some(least)) => Ok(Arrival::Least(least)),
        Ok(None) => Ok(Arrival::Differ),
        Err(memory) => Err(memory),
    }
}

#[inline(always)]
/// Merges a state into the arrivals at its target, if there is a target.
pub(crate) fn flow(
    arrivals: &mut Vec<Arrival>,
    target: Option<u32>,
    state: AbsState,
) -> Result<(), AllocError>
    requires { (to : ℕ) → target ≡ Some to → to < vec_len arrivals.old }
    ensures { OnOk result (Flows target state arrivals.old.items arrivals.new.items) }
{
    if let Some(to) = target {
        let unit = to as usize;
        match &arrivals[unit] {
            Arrival::Nothing => arrivals[unit] = Arrival::Least(state),
            Arrival::Least(least) => {
                let arrival = joined(least, state)?;
                arrivals[unit] = arrival;
            }
            Arrival::Differ => {}
        }
    }
    Ok(())
}

#[inline(always)]
/// Merges the state along a jump's edge into the arrivals at its target, if there is a target.
///
/// That state is `jump` if present, otherwise a copy of `next`, the state along the other edge.
pub(crate) fn flow_jump(
    arrivals: &mut Vec<Arrival>,
    target: Option<u32>,
    jump: Option<AbsState>,
    next: &AbsState,
) -> Result<(), AllocError>
    requires { (to : ℕ) → target ≡ Some to → to < vec_len arrivals.old }
    ensures { OnOk result (Flows target (along_jump jump next.now) arrivals.old.items arrivals.new.items) }
{
    match (target, jump) {
        (None, _) => Ok(()),
        (Some(_), Some(jump)) => flow(arrivals, target, jump),
        (Some(_), None) => flow(arrivals, target, next.copy()?),
    }
}

#[inline(always)]
/// Removes and returns the arrival at a unit.
pub(crate) fn take(arrivals: &mut Vec<Arrival>, unit: u32) -> Arrival
    requires { unit < vec_len arrivals.old }
    ensures noted { result ≡ noted_at arrivals.old.items unit }
    ensures rest { TakesArrival unit arrivals.old.items arrivals.new.items }
{
    mem::replace(&mut arrivals[unit as usize], Arrival::Nothing)
}

/// Returns the initial arrivals: the entry state at the first unit, and nothing at the others.
pub(crate) fn first_arrivals(alloc: Global, units: u32) -> Result<Vec<Arrival>, AllocError>
    requires { 0 < units }
    ensures { IfOk result (λ arrivals. AreFirstArrivals units arrivals.items) }
{
    let mut arrivals = Vec::with_capacity(alloc, units as usize)?;
    arrivals.push(Arrival::Least(AbsState::entry(alloc)))?;
    for _unit in 1..units {
        arrivals.push(Arrival::Nothing)?;
    }
    Ok(arrivals)
}
