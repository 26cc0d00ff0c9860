//! The verifier's pass over a program in unit order.

ghost use Rattle.std.specs.Prelude.{◌≡◌, ◌+◌, ◌++◌, [], ◌∷◌, ◌<◌, ℕ, Some, length, IfOk, IfErr, OnOk};
ghost use Rattle.rb_program.specs.Program.{unit_count, slot_at};
ghost use Rattle.rb_verifier.specs.AbstractStates.{entry_state};
ghost use Rattle.rb_verifier.specs.Annotation.{IsLeast, state_at};
ghost use Rattle.rb_verifier.specs.inner.Sweep.{Progress};
ghost use Rattle.rb_verifier.specs.Refusals.{IsRightRefusal};

use crate::arrivals::{Arrival, first_arrivals, flow, flow_jump, take};
use crate::refusal::Refusal;
use crate::{AbsState, Limits, Rule, StepFault, step_in_place};
use rb_insn::Insn;
use rb_program::{Shape, jump_target, next_unit};
use std::alloc::Global;

#[inline(always)]
/// Appends a copy of a state. Copies it field by field, so that the copy is built in place.
fn keep(states: &mut Vec<AbsState>, state: &AbsState) -> Result<(), Refusal>
    ensures pushed { OnOk result (states.new.items ≡ states.old.items ++ state.now ∷ []) }
    ensures memory { IfErr result (λ refusal. refusal ≡ Refusal.Memory) }
{
    let Ok(places) = state.places.copy() else {
        return Err(Refusal::Memory);
    };
    let kept = AbsState {
        values: state.values,
        held: state.held.copy(),
        places,
    };
    match states.push(kept) {
        Ok(()) => Ok(()),
        Err(_) => Err(Refusal::Memory),
    }
}

/// Processes the instruction at `unit`: stores the join of the states that arrived, and propagates its effect along its
/// edges.
fn visit(
    limits: Limits,
    shape: &Shape,
    unit: u32,
    insn: &Insn,
    states: &mut Vec<AbsState>,
    arrivals: &mut Vec<Arrival>,
) -> Result<(), Refusal>
    requires begins { slot_at shape.now unit ≡ Some insn.now }
    requires inside { unit < unit_count shape.now }
    requires progress { Progress limits shape.now states.old.items arrivals.old.items unit }
    ensures progress { OnOk result (Progress limits shape.now states.new.items arrivals.new.items (unit + 1)) }
    ensures refused { IfErr result (IsRightRefusal limits shape.now) }
{
    shape.facts();
    shape.program().facts();
    let mut state = match take(arrivals, unit) {
        Arrival::Nothing => unreachable!(),
        Arrival::Differ => {
            let rule = Rule::ReferencesDiffer;
            return Err(Refusal::Rule { unit, rule });
        }
        Arrival::Least(state) => state,
    };
    let Ok(()) = keep(states, &state) else {
        return Err(Refusal::Memory);
    };
    let jump = match step_in_place(limits, unit, insn, &mut state) {
        Ok(jump) => jump,
        Err(StepFault::Rule(rule)) => return Err(Refusal::Rule { unit, rule }),
        Err(StepFault::Memory) => return Err(Refusal::Memory),
    };
    let Ok(()) = flow_jump(arrivals, jump_target(unit, insn), jump, &state) else {
        return Err(Refusal::Memory);
    };
    let Ok(()) = flow(arrivals, next_unit(unit, insn), state) else {
        return Err(Refusal::Memory);
    };
    Ok(())
}

/// Stores the entry state, which nothing reads, for a unit at which no instruction begins.
fn sweep_over(alloc: Global, states: &mut Vec<AbsState>) -> Result<(), Refusal>
    ensures pushed { OnOk result (states.new.items ≡ states.old.items ++ entry_state ∷ []) }
    ensures memory { IfErr result (λ refusal. refusal ≡ Refusal.Memory) }
{
    match states.push(AbsState::entry(alloc)) {
        Ok(()) => Ok(()),
        Err(_) => Err(Refusal::Memory),
    }
}

/// Processes one unit.
fn sweep_unit(
    alloc: Global,
    limits: Limits,
    shape: &Shape,
    unit: u32,
    states: &mut Vec<AbsState>,
    arrivals: &mut Vec<Arrival>,
) -> Result<(), Refusal>
    requires inside { unit < unit_count shape.now }
    requires progress { Progress limits shape.now states.old.items arrivals.old.items unit }
    ensures progress { OnOk result (Progress limits shape.now states.new.items arrivals.new.items (unit + 1)) }
    ensures refused { IfErr result (IsRightRefusal limits shape.now) }
{
    shape.facts();
    match shape.program().at(unit) {
        Some(insn) => visit(limits, shape, unit, insn, states, arrivals),
        None => sweep_over(alloc, states),
    }
}

/// Returns the states of the least valid annotation, one for each unit, or the first rule that is broken.
pub(crate) fn annotate(
    alloc: Global,
    limits: Limits,
    shape: &Shape,
) -> Result<Vec<AbsState>, Refusal>
    ensures count { IfOk result (λ states. length states.items ≡ unit_count shape.now) }
    ensures least { IfOk result (λ states. IsLeast limits shape.now (state_at states.items)) }
    ensures refused { IfErr result (IsRightRefusal limits shape.now) }
{
    shape.program().facts();
    let units = shape.program().units();
    let Ok(mut arrivals) = first_arrivals(alloc, units) else {
        return Err(Refusal::Memory);
    };
    let Ok(mut states) = Vec::with_capacity(alloc, units as usize) else {
        return Err(Refusal::Memory);
    };
    for unit in 0..units {
        sweep_unit(alloc, limits, shape, unit, &mut states, &mut arrivals)?;
    }
    Ok(states)
}
