//! The abstract step: the checks and the effect of each instruction.

ghost use Rattle.std.specs.Prelude.{◌≡◌, ◌<◌, ◌^◌, ℕ, IfErr};
ghost use Rattle.rb_insn.specs.inner.InsnGroups.{IsLoadOrStore};
ghost use Rattle.rb_insn.specs.ArithmeticAndJumps.{IsArithmetic};
ghost use Rattle.rb_verifier.specs.declared.limits.Limits.{Limits};
ghost use Rattle.rb_verifier.specs.References.{AreEarlier};
ghost use Rattle.rb_verifier.specs.AbstractStates.{effect_left, IsLeft, IsStep};
ghost use Rattle.rb_verifier.specs.VerifierChecks.{abstract_step, check_assign, check_copy, check_convert, check_unary, check_binary, check_ring_load, check_load, check_store, check_exit};

use crate::arithmetic::{
    Direction, abstract_result, check_arithmetic, direction_of, operand_value,
};
use crate::branches::{check_branch, null_test_of};
use crate::calls::check_call;
use crate::helper::Helper;
use crate::kept_pointers::{check_loaded, check_reach, store_to};
use crate::limits::Limits;
use crate::rule::{Rule, StepFault};
use crate::state::{AbsState, Effect};
use crate::value::Abs;
use crate::value_checks::{
    check_not_context, check_number, check_readable, check_tested, check_writable,
};
use rb_insn::{Insn, Operand, Reg, Width};

/// Sets a register to this value, whatever it held.
fn check_assign(dst: Reg, value: Abs, state: &mut AbsState) -> Result<Option<AbsState>, Rule>
    ensures effect { effect_left result state.new ≡ check_assign dst value state.old }
    ensures unchanged { IfErr result (λ _. state.new ≡ state.old) }
{
    check_writable(dst)?;
    state.put(dst, value);
    Ok(None)
}

/// Checks a 64-bit move, which copies pointers too.
fn check_copy(dst: Reg, src: Reg, state: &mut AbsState) -> Result<Option<AbsState>, Rule>
    ensures effect { effect_left result state.new ≡ check_copy dst src state.old }
    ensures unchanged { IfErr result (λ _. state.new ≡ state.old) }
{
    check_writable(dst)?;
    let value = state.value(src);
    check_readable(value)?;
    state.put(dst, value);
    Ok(None)
}

/// Checks a move that computes its result from a number in src.
fn check_convert(
    insn: &Insn,
    dst: Reg,
    src: Reg,
    state: &mut AbsState,
) -> Result<Option<AbsState>, Rule>
    requires { IsArithmetic insn.now }
    ensures effect { effect_left result state.new ≡ check_convert insn.now dst src state.old }
    ensures unchanged { IfErr result (λ _. state.new ≡ state.old) }
{
    check_writable(dst)?;
    let value = state.value(src);
    check_number(Rule::PointerArithmetic, value)?;
    state.put(dst, abstract_result(insn, Abs::Known(0), value));
    Ok(None)
}

/// Checks arithmetic on the number in dst alone.
fn check_unary(insn: &Insn, dst: Reg, state: &mut AbsState) -> Result<Option<AbsState>, Rule>
    requires { IsArithmetic insn.now }
    ensures effect { effect_left result state.new ≡ check_unary insn.now dst state.old }
    ensures unchanged { IfErr result (λ _. state.new ≡ state.old) }
{
    check_writable(dst)?;
    let value = state.value(dst);
    check_number(Rule::PointerArithmetic, value)?;
    state.put(dst, abstract_result(insn, value, Abs::Known(0)));
    Ok(None)
}

/// Checks arithmetic on dst and a second operand.
fn check_binary(
    direction: Option<Direction>,
    insn: &Insn,
    dst: Reg,
    operand: Operand,
    state: &mut AbsState,
) -> Result<Option<AbsState>, Rule>
    requires { IsArithmetic insn.now }
    ensures effect { effect_left result state.new ≡ check_binary direction insn.now dst operand state.old }
    ensures unchanged { IfErr result (λ _. state.new ≡ state.old) }
{
    check_writable(dst)?;
    let left = state.value(dst);
    let right = operand_value(operand, state);
    check_readable(left)?;
    check_readable(right)?;
    let value = check_arithmetic(direction, insn, left, right)?;
    state.put(dst, value);
    Ok(None)
}

/// Checks a load of the ring with this number.
fn check_ring_load(
    limits: Limits,
    dst: Reg,
    ring: u32,
    state: &mut AbsState,
) -> Result<Option<AbsState>, Rule>
    ensures effect { effect_left result state.new ≡ check_ring_load limits dst ring state.old }
    ensures unchanged { IfErr result (λ _. state.new ≡ state.old) }
{
    check_writable(dst)?;
    if ring >= limits.rings {
        return Err(Rule::HelperArgument);
    }
    state.put(dst, Abs::Ring(ring));
    Ok(None)
}

/// Checks a load: of a whole place of the stack, or of data.
fn check_load(
    limits: Limits,
    dst: Reg,
    base: Reg,
    offset: i16,
    len: u64,
    state: &mut AbsState,
) -> Result<Option<AbsState>, Rule>
    ensures effect { effect_left result state.new ≡ check_load limits dst base offset len state.old }
    ensures unchanged { IfErr result (λ _. state.new ≡ state.old) }
{
    check_writable(dst)?;
    let base = state.value(base);
    check_tested(base)?;
    let byte = check_reach(limits, &state.held, base, i64::from(offset), len)?;
    let value = check_loaded(byte, len, &state.places)?;
    state.put(dst, value);
    Ok(None)
}

/// Checks a store of a value: of a number, or of a pointer to a whole place of the stack.
fn check_store(
    limits: Limits,
    base: Reg,
    offset: i16,
    len: u64,
    value: Abs,
    state: &mut AbsState,
) -> Result<Option<AbsState>, StepFault>
    ensures effect { IsLeft result state.new (check_store limits base offset len value state.old) }
    ensures unchanged { IfErr result (λ _. state.new ≡ state.old) }
{
    let base = state.value(base);
    check_tested(base)?;
    check_not_context(base)?;
    let byte = check_reach(limits, &state.held, base, i64::from(offset), len)?;
    store_to(byte, len, value, &mut state.places)?;
    Ok(None)
}

/// Checks the exit of the program.
fn check_exit(state: &mut AbsState) -> Result<Option<AbsState>, Rule>
    ensures effect { effect_left result state.new ≡ check_exit state.old }
    ensures unchanged { IfErr result (λ _. state.new ≡ state.old) }
{
    if !state.held.is_empty() {
        return Err(Rule::ReferenceLeft);
    }
    let [result, ..] = state.values;
    check_number(Rule::ResultNotNumber, result)?;
    Ok(None)
}

#[tactic(auto, unfolding(crate::specs::VerifierChecks::abstract_step))]
/// Does the abstract step of an arithmetic instruction.
fn step_arithmetic(insn: &Insn, state: &mut AbsState) -> Result<Option<AbsState>, Rule>
    requires { IsArithmetic insn.now }
    ensures effect { (limits : Limits) (unit : ℕ) → effect_left result state.new ≡ abstract_step limits unit insn.now state.old }
    ensures unchanged { IfErr result (λ _. state.new ≡ state.old) }
{
    match *insn {
        Insn::Move {
            dst,
            operand: Operand::Immediate(_),
            ..
        } => check_assign(dst, Abs::Known(rb_insn::value(insn, 0, 0)), state),
        Insn::Move {
            width: Width::W64,
            dst,
            operand: Operand::Register(src),
        } => check_copy(dst, src, state),
        Insn::Move {
            width: Width::W32,
            dst,
            operand: Operand::Register(src),
        }
        | Insn::MoveExtended32 { dst, src, .. }
        | Insn::MoveExtended64 { dst, src, .. } => check_convert(insn, dst, src, state),
        Insn::Negate { dst, .. } | Insn::Reorder { dst, .. } => check_unary(insn, dst, state),
        Insn::Division { dst, operand, .. } => check_binary(None, insn, dst, operand, state),
        Insn::Binary {
            width,
            op,
            dst,
            operand,
        } => check_binary(direction_of(width, op), insn, dst, operand, state),
        _ => unreachable!(),
    }
}

#[tactic(auto, unfolding(crate::specs::VerifierChecks::abstract_step))]
/// Does the abstract step of a load or a store.
fn step_load_or_store(
    limits: Limits,
    insn: &Insn,
    state: &mut AbsState,
) -> Result<Option<AbsState>, StepFault>
    requires { IsLoadOrStore insn.now }
    ensures effect { (unit : ℕ) → IsLeft result state.new (abstract_step limits unit insn.now state.old) }
    ensures unchanged { IfErr result (λ _. state.new ≡ state.old) }
{
    match *insn {
        Insn::LoadNumber { dst, value } => Ok(check_assign(dst, Abs::Known(value), state)?),
        Insn::LoadRing { dst, ring } => Ok(check_ring_load(limits, dst, ring, state)?),
        Insn::Load {
            size,
            dst,
            base,
            offset,
        } => Ok(check_load(limits, dst, base, offset, size.bytes() as u64, state)?),
        Insn::LoadSigned {
            size,
            dst,
            base,
            offset,
        } => Ok(check_load(limits, dst, base, offset, size.bytes() as u64, state)?),
        Insn::StoreImmediate {
            size,
            base,
            offset,
            ..
        } => check_store(
            limits,
            base,
            offset,
            size.bytes() as u64,
            Abs::Number,
            state,
        ),
        Insn::StoreRegister {
            size,
            base,
            offset,
            src,
        } => check_store(
            limits,
            base,
            offset,
            size.bytes() as u64,
            state.value(src),
            state,
        ),
        _ => unreachable!(),
    }
}

#[tactic(auto, unfolding(crate::specs::VerifierChecks::abstract_step))]
/// Does the abstract step of the instruction at `unit`, in place.
///
/// On success, `state` becomes the state along the edge to the next instruction; the result is the state along the
/// jump's edge if that differs. An error is the first rule that the instruction breaks, or `Memory`, and leaves `state`
/// unchanged. The held references must have been reserved at earlier units.
///
/// Allocates only if the stack may hold pointers. Takes constant time.
pub fn step_in_place(
    limits: Limits,
    unit: u32,
    insn: &Insn,
    state: &mut AbsState,
) -> Result<Option<AbsState>, StepFault>
    requires { AreEarlier unit state.old.held }
    ensures effect { IsLeft result state.new (abstract_step limits unit insn.now state.old) }
    ensures unchanged { IfErr result (λ _. state.new ≡ state.old) }
{
    match *insn {
        Insn::Move { .. }
        | Insn::MoveExtended32 { .. }
        | Insn::MoveExtended64 { .. }
        | Insn::Negate { .. }
        | Insn::Reorder { .. }
        | Insn::Division { .. }
        | Insn::Binary { .. } => Ok(step_arithmetic(insn, state)?),
        Insn::LoadNumber { .. }
        | Insn::LoadRing { .. }
        | Insn::Load { .. }
        | Insn::LoadSigned { .. }
        | Insn::StoreImmediate { .. }
        | Insn::StoreRegister { .. } => step_load_or_store(limits, insn, state),
        Insn::Branch {
            width,
            condition,
            dst,
            operand,
            ..
        } => check_branch(
            null_test_of(width, condition, operand),
            state.value(dst),
            operand_value(operand, state),
            state,
        ),
        Insn::Jump { .. } | Insn::JumpFar { .. } => Ok(None),
        Insn::Call { helper } => check_call(limits, unit, Helper::from_number(helper), state),
        Insn::Exit => Ok(check_exit(state)?),
    }
}

/// Returns the abstract effect of the instruction at `unit`: the state along each edge out of it.
///
/// An error is the first rule that the instruction breaks, or `Memory`. The held references must have been reserved at
/// earlier units. Allocates only if the stack may hold pointers. Takes constant time.
pub fn step(limits: Limits, unit: u32, insn: &Insn, state: &AbsState) -> Result<Effect, StepFault>
    requires { AreEarlier unit state.now.held }
    ensures { IsStep state.now result (abstract_step limits unit insn.now state.now) }
{
    let mut next = state.copy()?;
    match step_in_place(limits, unit, insn, &mut next)? {
        Some(jump) => Ok(Effect { next, jump }),
        None => Ok(next.along_both()?),
    }
}
