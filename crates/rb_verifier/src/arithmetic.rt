//! Abstract arithmetic: the abstract value that an arithmetic instruction produces.

ghost use Rattle.std.specs.Prelude.{◌≡◌, MatchOption};
ghost use Rattle.rb_insn.specs.ArithmeticAndJumps.{IsArithmetic};
ghost use Rattle.rb_verifier.specs.AbstractArithmetic.{operand_value, abstract_result, check_numbers, direction_of, moved_offset, check_near, check_arithmetic};

use crate::rule::Rule;
use crate::state::AbsState;
use crate::value::Abs;
use crate::value_checks::check_number;
use rb_insn::{BinaryOp, Insn, Operand, Width};

/// The largest distance of a pointer's offset from offset 0: the first byte of its part, or the end of the stack.
const NEAR: i64 = 1 << 30;

/// The direction in which an addition or a subtraction moves a pointer.
#[derive(Clone, Copy)]
pub(crate) enum Direction {
    /// An addition.
    Forward,
    /// A subtraction.
    Back,
}

/// Returns the abstract value of the second operand.
pub(crate) fn operand_value(operand: Operand, state: &AbsState) -> Abs
    ensures { result ≡ operand_value operand state.now }
{
    match operand {
        Operand::Immediate(k) => Abs::Known(i64::from(k).cast_unsigned()),
        Operand::Register(register) => state.value(register),
    }
}

/// Returns the result of an instruction: a known number if both operands are known, otherwise any number.
pub(crate) fn abstract_result(insn: &Insn, dst: Abs, src: Abs) -> Abs
    requires { IsArithmetic insn.now }
    ensures { result ≡ abstract_result insn.now dst src }
{
    match (dst, src) {
        (Abs::Known(dst), Abs::Known(src)) => Abs::Known(rb_insn::value(insn, dst, src)),
        _ => Abs::Number,
    }
}

/// Checks an arithmetic instruction on numbers and returns its result.
pub(crate) fn check_numbers(insn: &Insn, dst: Abs, src: Abs) -> Result<Abs, Rule>
    requires { IsArithmetic insn.now }
    ensures { result ≡ check_numbers insn.now dst src }
{
    check_number(Rule::PointerArithmetic, dst)?;
    check_number(Rule::PointerArithmetic, src)?;
    Ok(abstract_result(insn, dst, src))
}

/// Returns the direction in which the instruction moves a pointer, if it can move one.
pub(crate) fn direction_of(width: Width, op: BinaryOp) -> Option<Direction>
    ensures { result ≡ direction_of width op }
{
    match (width, op) {
        (Width::W64, BinaryOp::Add) => Some(Direction::Forward),
        (Width::W64, BinaryOp::Sub) => Some(Direction::Back),
        _ => None,
    }
}

/// Checks that an offset is within the bounds; `None` is an offset that does not fit 64 bits.
fn check_near(offset: Option<i64>) -> Result<i64, Rule>
    ensures { MatchOption offset (result ≡ Err Rule.PointerArithmetic) (λ offset. result ≡ check_near offset) }
{
    match offset {
        Some(offset) if -NEAR <= offset && offset <= NEAR => Ok(offset),
        _ => Err(Rule::PointerArithmetic),
    }
}

/// Returns the offset of a pointer after it is moved by a number, read as signed.
fn moved_offset(direction: Direction, offset: i64, by: u64) -> Result<i64, Rule>
    ensures { result ≡ check_near (moved_offset direction offset by) }
{
    let by = by.cast_signed();
    match direction {
        Direction::Forward => check_near(offset.checked_add(by)),
        Direction::Back => check_near(offset.checked_sub(by)),
    }
}

/// Checks an arithmetic instruction and returns its result.
///
/// A pointer into a part (the context, the stack or a record) may move by a known number; any other operands must be
/// numbers.
pub(crate) fn check_arithmetic(
    direction: Option<Direction>,
    insn: &Insn,
    dst: Abs,
    src: Abs,
) -> Result<Abs, Rule>
    requires { IsArithmetic insn.now }
    ensures { result ≡ check_arithmetic direction insn.now dst src }
{
    match (direction, dst, src) {
        (Some(direction), Abs::Ctx(offset), Abs::Known(by)) => {
            Ok(Abs::Ctx(moved_offset(direction, offset, by)?))
        }
        (Some(direction), Abs::Stack(offset), Abs::Known(by)) => {
            Ok(Abs::Stack(moved_offset(direction, offset, by)?))
        }
        (Some(direction), Abs::Record(id, offset), Abs::Known(by)) => {
            Ok(Abs::Record(id, moved_offset(direction, offset, by)?))
        }
        _ => check_numbers(insn, dst, src),
    }
}
