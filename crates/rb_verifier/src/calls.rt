//! Helper calls: the checks on their arguments, and the state after the call.

ghost use Rattle.std.specs.Prelude.{◌≡◌, ◌<◌, length, IfErr};
ghost use Rattle.rb_verifier.specs.HelperChecks.{after_answer, after_reserve, check_output, check_reserve, check_give_back, check_query, check_call};
ghost use Rattle.rb_verifier.specs.References.{AreEarlier};
ghost use Rattle.rb_verifier.specs.AbstractStates.{effect_left, IsLeft};

use crate::helper::Helper;
use crate::kept_pointers::{check_data, check_reach};
use crate::limits::Limits;
use crate::references::Reference;
use crate::rule::{Rule, StepFault};
use crate::state::AbsState;
use crate::value::Abs;
use crate::value_checks::{
    check_known_size, check_number, check_part_pointer, check_record_size, check_record_start,
    check_ring, check_tested,
};
use rb_insn::Reg;

impl AbsState {
    /// Sets the registers as a call leaves them: r0 holds the result, and r1 to r5 are unreadable.
    fn answer(&mut self, answer: Abs)
        ensures { self.new ≡ after_answer answer self.old }
    {
        self.put(Reg::R0, answer);
        self.put(Reg::R1, Abs::Unreadable);
        self.put(Reg::R2, Abs::Unreadable);
        self.put(Reg::R3, Abs::Unreadable);
        self.put(Reg::R4, Abs::Unreadable);
        self.put(Reg::R5, Abs::Unreadable);
    }

    /// Adds the reference of a reservation by the CALL at `unit`, and sets the registers.
    fn add_reference(&mut self, unit: u32, ring: u32, size: u32)
        requires room { length self.old.held < 4 }
        requires earlier { AreEarlier unit self.old.held }
        ensures { self.new ≡ after_reserve unit ring size self.old }
    {
        let reference = Reference {
            id: unit,
            ring,
            size,
            sure: false,
        };
        self.held = self.held.added(reference);
        self.answer(Abs::Perhaps(unit));
    }
}

/// Checks `output(ring, data, size, flags)`.
fn check_output(limits: Limits, state: &mut AbsState) -> Result<Option<AbsState>, Rule>
    ensures effect { effect_left result state.new ≡ check_output limits state.old }
    ensures unchanged { IfErr result (λ _. state.new ≡ state.old) }
{
    let [_, ring, data, size, flags, ..] = state.values;
    check_ring(ring)?;
    check_tested(data)?;
    check_part_pointer(data)?;
    let size = check_known_size(size)?;
    let byte = check_reach(limits, &state.held, data, 0, size)?;
    check_data(byte, size, &state.places)?;
    check_number(Rule::HelperArgument, flags)?;
    state.answer(Abs::Number);
    Ok(None)
}

/// Checks `reserve(ring, size, flags)`.
fn check_reserve(unit: u32, state: &mut AbsState) -> Result<Option<AbsState>, Rule>
    requires { AreEarlier unit state.old.held }
    ensures effect { effect_left result state.new ≡ check_reserve unit state.old }
    ensures unchanged { IfErr result (λ _. state.new ≡ state.old) }
{
    let [_, ring, size, flags, ..] = state.values;
    let ring = check_ring(ring)?;
    let size = check_record_size(size)?;
    check_number(Rule::HelperArgument, flags)?;
    if state.held.is_full() {
        return Err(Rule::TooManyReferences);
    }
    state.add_reference(unit, ring, size);
    Ok(None)
}

/// Checks `submit(record, flags)` and `discard(record, flags)`.
fn check_give_back(state: &mut AbsState) -> Result<Option<AbsState>, StepFault>
    ensures effect { IsLeft result state.new (check_give_back state.old) }
    ensures unchanged { IfErr result (λ _. state.new ≡ state.old) }
{
    let [_, record, flags, ..] = state.values;
    let id = check_record_start(record)?;
    check_number(Rule::HelperArgument, flags)?;
    *state = state.after_commit(id)?;
    state.answer(Abs::Unreadable);
    Ok(None)
}

/// Checks `query(ring, what)`.
fn check_query(state: &mut AbsState) -> Result<Option<AbsState>, Rule>
    ensures effect { effect_left result state.new ≡ check_query state.old }
    ensures unchanged { IfErr result (λ _. state.new ≡ state.old) }
{
    let [_, ring, what, ..] = state.values;
    check_ring(ring)?;
    check_number(Rule::HelperArgument, what)?;
    state.answer(Abs::Number);
    Ok(None)
}

/// Checks a helper call at `unit`.
pub(crate) fn check_call(
    limits: Limits,
    unit: u32,
    helper: Option<Helper>,
    state: &mut AbsState,
) -> Result<Option<AbsState>, StepFault>
    requires { AreEarlier unit state.old.held }
    ensures effect { IsLeft result state.new (check_call limits unit helper state.old) }
    ensures unchanged { IfErr result (λ _. state.new ≡ state.old) }
{
    match helper {
        None => Err(StepFault::Rule(Rule::UnknownHelper)),
        Some(Helper::Output) => Ok(check_output(limits, state)?),
        Some(Helper::Reserve) => Ok(check_reserve(unit, state)?),
        Some(Helper::Submit | Helper::Discard) => check_give_back(state),
        Some(Helper::Query) => Ok(check_query(state)?),
    }
}
