//! Finds the reason for which Linux refuses an instruction, given the abstract state before it.

ghost use Rattle.std.specs.Prelude.{◌≡◌, ◌<◌, ◌≤◌, ℕ, ◌+ℤ◌, ◌-ℤ◌};
ghost use Rattle.rb_verifier.specs.AbstractStates.{value_in};
ghost use Rattle.rb_portable.specs.Portability as portability;

use crate::linux_class::LinuxClass;
use rb_insn::{BinaryOp, Insn, Operand, Reg, Width};
use rb_verifier::{Abs, AbsState, Helper};

/// Linux refuses to move a pointer by this distance or more (kernel/bpf/verifier.c: BPF_MAX_VAR_OFF).
const FAR: i128 = 1 << 29;

// Returns the abstract value of a register.
fn value_of(state: &AbsState, register: Reg) -> Abs
    ensures { result ≡ value_in state.now register.number }
{
    state.values[register.index()]
}

// Returns a known number, read as signed.
fn known_distance(value: Abs) -> Option<i64>
    ensures { result ≡ portability.known_distance value }
{
    match value {
        Abs::Known(n) => Some(n.cast_signed()),
        _ => None,
    }
}

// Returns the value of the second operand, if it is known.
fn distance_of(operand: Operand, state: &AbsState) -> Option<i64>
    ensures { result ≡ portability.distance_of operand state.now }
{
    match operand {
        Operand::Immediate(k) => Some(i64::from(k)),
        Operand::Register(register) => known_distance(value_of(state, register)),
    }
}

// Returns `class` unless the condition holds.
fn unless(holds: bool, class: LinuxClass) -> Option<LinuxClass>
    ensures { result ≡ portability.unless holds class }
{
    if holds { None } else { Some(class) }
}

// Returns an offset modulo a size.
fn residue(offset: i64, size: u64) -> u64
    requires { 0 < size }
    ensures value { result ≡ portability.residue offset size }
    ensures below { result < size }
{
    offset.cast_unsigned() % size
}

// Returns whether `at + by` is a multiple of `size`.
fn is_aligned(at: i64, by: i64, size: u64) -> bool
    requires positive { 0 < size }
    requires short { size ≤ 8 }
    ensures { result ≡ portability.is_aligned at by size }
{
    (residue(at, size) + residue(by, size)) % size == 0
}

// Returns the class of a load or a store of `size` bytes at `pointer + by`.
fn access_class(pointer: Abs, by: i64, size: u64) -> Option<LinuxClass>
    requires positive { 0 < size }
    requires short { size ≤ 8 }
    ensures { result ≡ portability.access_class pointer by size }
{
    match pointer {
        Abs::Stack(at) => unless(is_aligned(at, by, size), LinuxClass::StackAlignment),
        Abs::Ctx(0) => unless(is_aligned(0, by, size), LinuxClass::ContextAlignment),
        Abs::Ctx(_) => Some(LinuxClass::ContextMoved),
        _ => None,
    }
}

// Returns whether Linux allows a distance or an offset.
fn is_close(offset: i128) -> bool
    ensures { result ≡ portability.is_close offset }
{
    -FAR < offset && offset < FAR
}

// Returns the class of moving a pointer by `by`, to offset `to`.
fn move_class(by: i64, to: i128) -> Option<LinuxClass>
    ensures { result ≡ portability.move_class by to }
{
    let is_allowed = is_close(i128::from(by)) && is_close(to);
    unless(is_allowed, LinuxClass::PointerFar)
}

// Returns the sum of two numbers.
fn sum(first: i64, second: i64) -> i128
    ensures { result ≡ first +ℤ second }
{
    i128::from(first) + i128::from(second)
}

// Returns the difference of two numbers.
fn difference(first: i64, second: i64) -> i128
    ensures { result ≡ first -ℤ second }
{
    i128::from(first) - i128::from(second)
}

// Returns the class of a 64-bit addition to a register.
fn add_class(dst: Abs, by: Option<i64>) -> Option<LinuxClass>
    ensures { result ≡ portability.add_class dst by }
{
    match (dst, by) {
        (Abs::Ctx(at), Some(by)) => move_class(by, sum(at, by)),
        (Abs::Stack(at), Some(by)) => move_class(by, sum(at, by)),
        (Abs::Record(_, at), Some(by)) => move_class(by, sum(at, by)),
        _ => None,
    }
}

// Returns the class of a 64-bit subtraction from a register.
fn sub_class(dst: Abs, by: Option<i64>) -> Option<LinuxClass>
    ensures { result ≡ portability.sub_class dst by }
{
    match (dst, by) {
        (Abs::Stack(_), _) => Some(LinuxClass::StackSubtraction),
        (Abs::Ctx(at), Some(by)) => move_class(by, difference(at, by)),
        (Abs::Record(_, at), Some(by)) => move_class(by, difference(at, by)),
        _ => None,
    }
}

fn bit_count(width: Width) -> i32
    ensures { result ≡ portability.bit_count width }
{
    match width {
        Width::W32 => 32,
        Width::W64 => 64,
    }
}

fn shift_class(width: Width, operand: Operand) -> Option<LinuxClass>
    ensures { result ≡ portability.shift_class width operand }
{
    match operand {
        Operand::Immediate(by) => unless(0 <= by && by < bit_count(width), LinuxClass::Shift),
        Operand::Register(_) => None,
    }
}

// Returns the class of an arithmetic instruction, given the abstract values of its operands.
fn binary_class(
    width: Width,
    op: BinaryOp,
    operand: Operand,
    dst: Abs,
    by: Option<i64>,
) -> Option<LinuxClass>
    ensures { result ≡ portability.binary_class width op operand dst by }
{
    match (width, op) {
        (Width::W64, BinaryOp::Add) => add_class(dst, by),
        (Width::W64, BinaryOp::Sub) => sub_class(dst, by),
        (_, BinaryOp::Lsh) | (_, BinaryOp::Rsh) | (_, BinaryOp::Arsh) => shift_class(
            width, operand,
        ),
        _ => None,
    }
}

fn division_class(operand: Operand) -> Option<LinuxClass>
    ensures { result ≡ portability.division_class operand }
{
    match operand {
        Operand::Immediate(0) => Some(LinuxClass::Division),
        _ => None,
    }
}

// Returns the class of an output of the bytes that `bytes` points to.
fn output_class(bytes: Abs) -> Option<LinuxClass>
    ensures { result ≡ portability.output_class bytes }
{
    match bytes {
        Abs::Ctx(_) => Some(LinuxClass::ContextOutput),
        Abs::Stack(0) => Some(LinuxClass::FrameTop),
        _ => None,
    }
}

// Returns the class of a call, given the abstract value of its second argument.
fn call_class(helper: Option<Helper>, bytes: Abs) -> Option<LinuxClass>
    ensures { result ≡ portability.call_class helper bytes }
{
    match helper {
        Some(Helper::Output) => output_class(bytes),
        _ => None,
    }
}

// Returns the class of a load or a store of `size` bytes at `base + offset`.
fn access_class_at(state: &AbsState, base: Reg, offset: i16, size: usize) -> Option<LinuxClass>
    requires positive { 0 < size }
    requires short { size ≤ 8 }
    ensures { result ≡ portability.access_class (value_in state.now base.number) offset size }
{
    access_class(value_of(state, base), i64::from(offset), size as u64)
}

/// Returns why Linux refuses this instruction in this abstract state, or `None` if Linux accepts it.
///
/// The instruction must be part of an accepted program.
pub fn class_of(state: &AbsState, insn: &Insn) -> Option<LinuxClass>
    ensures { result ≡ portability.class_of state.now insn.now }
{
    match *insn {
        Insn::Load {
            size,
            base,
            offset,
            ..
        } => access_class_at(state, base, offset, size.bytes()),
        Insn::LoadSigned {
            size,
            base,
            offset,
            ..
        } => access_class_at(state, base, offset, size.bytes()),
        Insn::StoreImmediate {
            size,
            base,
            offset,
            ..
        } => access_class_at(state, base, offset, size.bytes()),
        Insn::StoreRegister {
            size,
            base,
            offset,
            ..
        } => access_class_at(state, base, offset, size.bytes()),
        Insn::Binary {
            width,
            op,
            dst,
            operand,
        } => binary_class(
            width,
            op,
            operand,
            value_of(state, dst),
            distance_of(operand, state),
        ),
        Insn::Division { operand, .. } => division_class(operand),
        Insn::Call { helper } => call_class(Helper::from_number(helper), state.values[2]),
        _ => None,
    }
}
