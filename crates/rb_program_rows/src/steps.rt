//! Single steps of the verifier, the order of its states, and what two of them have in common.

ghost use Rattle.rb_verifier.specs.References.{AreEarlier};

use crate::answer_text::AnswerText;
use crate::decoded::insn_of;
use crate::state_changes::tell_changes;
use crate::states::{are_earlier, state_of};
use rb_insn::Insn;
use rb_verifier::{AbsState, Effect, Limits, StepFault, below, join, step, step_in_place};
use std::alloc::Global;

/// How a step is made.
#[derive(Clone, Copy)]
pub(crate) enum Way {
    /// From the state to two others.
    Copied,
    /// In the state itself.
    InPlace,
}

/// Writes the rule that an instruction at a unit violates in a state, or the changes along its edges; for a step in
/// place, also whether both edges have the same state.
pub(crate) fn answer_step(
    alloc: Global,
    (way, limits, unit): (Way, Limits, u32),
    state: &str,
    hex: &str,
    out: &mut AnswerText,
) {
    match (insn_of(alloc, hex), state_of(alloc, state, out)) {
        (None, _) => out.push("no instruction"),
        (Some(_), None) => out.push("no state"),
        (Some(insn), Some(state)) => tell_any_step(way, limits, unit, &insn, &state, out),
    }
}

fn tell_any_step(
    way: Way,
    limits: Limits,
    unit: u32,
    insn: &Insn,
    state: &AbsState,
    out: &mut AnswerText,
) {
    if !are_earlier(unit, &state.held) {
        return out.push("no earlier references");
    }
    match way {
        Way::Copied => tell_step(state, step(limits, unit, insn, state), out),
        Way::InPlace => step_copy(limits, unit, insn, state, out),
    }
}

fn tell_step(before: &AbsState, effect: Result<Effect, StepFault>, out: &mut AnswerText) {
    match effect {
        Ok(effect) => {
            out.push("next");
            tell_changes(before, &effect.next, out);
            out.push("; jump");
            tell_changes(before, &effect.jump, out);
        }
        Err(fault) => tell_fault(fault, out),
    }
}

fn tell_fault(fault: StepFault, out: &mut AnswerText) {
    match fault {
        StepFault::Rule(rule) => out.field("V", &rule.number()),
        StepFault::Memory => out.push("refused memory"),
    }
}

// Makes a step in a copy of a state.
fn step_copy(limits: Limits, unit: u32, insn: &Insn, before: &AbsState, out: &mut AnswerText)
    requires { AreEarlier unit before.now.held }
{
    match before.copy() {
        Ok(mut state) => {
            let jump = step_in_place(limits, unit, insn, &mut state);
            tell_step_in_place(before, &state, jump, out);
        }
        Err(_) => out.lack(),
    }
}

fn tell_step_in_place(
    before: &AbsState,
    state: &AbsState,
    jump: Result<Option<AbsState>, StepFault>,
    out: &mut AnswerText,
) {
    match jump {
        Ok(jump) => {
            out.push("next");
            tell_changes(before, state, out);
            tell_jump(before, jump, out);
        }
        Err(fault) => tell_fault(fault, out),
    }
}

fn tell_jump(before: &AbsState, jump: Option<AbsState>, out: &mut AnswerText) {
    match jump {
        Some(jump) => {
            out.push("; jump");
            tell_changes(before, &jump, out);
        }
        None => out.push("; no other jump"),
    }
}

/// Writes what two states have in common, as changes of the first, which of the two are below it, and whether the
/// first is below the second.
pub(crate) fn answer_join(alloc: Global, first: &str, second: &str, out: &mut AnswerText) {
    match (state_of(alloc, first, out), state_of(alloc, second, out)) {
        (Some(first), Some(second)) => tell_join(&first, &second, out),
        _ => out.push("no state"),
    }
}

fn tell_join(first: &AbsState, second: &AbsState, out: &mut AnswerText) {
    match join(first, second) {
        Ok(Some(both)) => tell_both(first, second, &both, out),
        Ok(None) => out.push("no join"),
        Err(_) => out.lack(),
    }
    out.field("; first below second ", &below(first, second));
}

// Appends what two states have in common.
fn tell_both(first: &AbsState, second: &AbsState, both: &AbsState, out: &mut AnswerText) {
    out.push("join");
    tell_changes(first, both, out);
    out.push("; above both ");
    out.debug(&(below(first, both), below(second, both)));
    out.field(" below the first ", &below(both, first));
}
