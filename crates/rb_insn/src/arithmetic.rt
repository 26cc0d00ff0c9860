//! The results of arithmetic instructions.

ghost use Rattle.std.specs.Prelude.{◌≡◌, ℕ, ◌*◌, ◌^◌, ◌<◌};
ghost use Rattle.rb_insn.specs.WholeNumbers.{low_bits, reversed_bytes, binary_of};
ghost use Rattle.rb_insn.specs.ArithmeticAndJumps.{bits_of, division_of, extend32_bits, extend64_bits, sign_extended, reordered, swap_bytes_of, IgnoresDestination, IgnoresSource, IsArithmetic, value_of};

use crate::operands::{low_bits, operand_value, shift_count, signed};
use crate::{
    BinaryOp, ByteOrder, DivisionOp, Extend32, Extend64, Insn, Signedness, SwapWidth, Width,
};

#[inline(always)]
#[tactic(auto, unfolding(crate::specs::ArithmeticAndJumps::value_of))]
/// Returns the result of an arithmetic instruction whose destination register holds `dst` and whose source register
/// holds `src` (RFC 9669, sections 4.1 and 4.2).
///
/// An instruction with an immediate operand ignores `src`, and a move ignores `dst`. The result wraps at the
/// instruction's width; all bits above the width are zero. Takes constant time.
pub fn value(insn: &Insn, dst: u64, src: u64) -> u64
    requires { IsArithmetic insn.now }
    ensures value { result ≡ value_of insn.now dst src }
    ensures source_unread { IgnoresSource insn.now → (other : ℕ) → result ≡ value_of insn.now dst other }
    ensures destination_unread { IgnoresDestination insn.now → (other : ℕ) → result ≡ value_of insn.now other src }
{
    match *insn {
        Insn::Binary {
            width,
            op,
            operand,
            ..
        } => {
            let second = operand_value(operand, src);
            match width {
                Width::W32 => binary_at(Width::W32, op, dst, second),
                Width::W64 => binary_at(Width::W64, op, dst, second),
            }
        }
        Insn::Division {
            width,
            op,
            sign,
            operand,
            ..
        } => {
            let divisor = low_bits(width, operand_value(operand, src));
            division(sign, width, op, low_bits(width, dst), divisor)
        }
        Insn::Negate { width, .. } => low_bits(width, dst.wrapping_neg()),
        Insn::Move { width, operand, .. } => low_bits(width, operand_value(operand, src)),
        Insn::MoveExtended32 { from, .. } => extended_to_32(from, src),
        Insn::MoveExtended64 { from, .. } => sign_extended(from, src),
        Insn::Reorder { order, width, .. } => reordered(order, width, dst),
        _ => unreachable!(),
    }
}

#[inline(always)]
/// Computes on the low bits of two numbers, as many as the width has.
///
/// Callers pass a constant width, so the compiler specializes this for each one.
fn binary_at(width: Width, op: BinaryOp, dst: u64, src: u64) -> u64
    ensures { result ≡ binary_of (bits_of width) op (low_bits (bits_of width) dst) (low_bits (bits_of width) src) }
{
    binary(width, op, low_bits(width, dst), low_bits(width, src))
}

#[inline(always)]
#[tactic(auto, unfolding(crate::specs::WholeNumbers::binary_of))]
/// Computes on two numbers that fit the width.
fn binary(width: Width, op: BinaryOp, a: u64, b: u64) -> u64
    requires first { a < 2 ^ bits_of width }
    requires second { b < 2 ^ bits_of width }
    ensures { result ≡ binary_of (bits_of width) op a b }
{
    match op {
        BinaryOp::Add => low_bits(width, a.wrapping_add(b)),
        BinaryOp::Sub => low_bits(width, a.wrapping_sub(b)),
        BinaryOp::Mul => low_bits(width, a.wrapping_mul(b)),
        BinaryOp::Or => a | b,
        BinaryOp::And => a & b,
        BinaryOp::Lsh => low_bits(width, a << shift_count(width, b)),
        BinaryOp::Rsh => a >> shift_count(width, b),
        BinaryOp::Xor => a ^ b,
        BinaryOp::Arsh => {
            let shifted = signed(width, a) >> shift_count(width, b);
            low_bits(width, shifted.cast_unsigned())
        }
    }
}

#[tactic(auto, unfolding(crate::specs::WholeNumbers::unsigned_division, crate::specs::WholeNumbers::signed_division, crate::specs::ArithmeticAndJumps::division_of))]
/// Returns the quotient or the remainder of two numbers that fit the width.
fn division(sign: Signedness, width: Width, op: DivisionOp, a: u64, b: u64) -> u64
    requires first { a < 2 ^ bits_of width }
    requires second { b < 2 ^ bits_of width }
    ensures { result ≡ division_of sign (bits_of width) op a b }
{
    match (sign, op) {
        (_, DivisionOp::Div) if b == 0 => 0,
        (_, DivisionOp::Mod) if b == 0 => a,
        (Signedness::Unsigned, DivisionOp::Div) => a / b,
        (Signedness::Unsigned, DivisionOp::Mod) => a % b,
        (Signedness::Signed, DivisionOp::Div) => {
            let quotient = signed(width, a).wrapping_div(signed(width, b));
            low_bits(width, quotient.cast_unsigned())
        }
        (Signedness::Signed, DivisionOp::Mod) => {
            let remainder = signed(width, a).wrapping_rem(signed(width, b));
            low_bits(width, remainder.cast_unsigned())
        }
    }
}

#[tactic(auto, unfolding(crate::specs::ArithmeticAndJumps::sign_extended))]
/// Returns the low bits of a number, sign-extended to 32 bits.
fn extended_to_32(from: Extend32, number: u64) -> u64
    ensures { result ≡ sign_extended (extend32_bits from) 32 number }
{
    let extended = match from {
        Extend32::From8 => i32::from(((number % (1 << 8)) as u8).cast_signed()),
        Extend32::From16 => i32::from(((number % (1 << 16)) as u16).cast_signed()),
    };
    u64::from(extended.cast_unsigned())
}

#[tactic(auto, unfolding(crate::specs::ArithmeticAndJumps::sign_extended))]
/// Returns the low bits of a number, sign-extended to 64 bits (RFC 9669, section 4.1). Sign-extending loads use it too.
pub fn sign_extended(from: Extend64, number: u64) -> u64
    ensures { result ≡ sign_extended (extend64_bits from) 64 number }
{
    let extended = match from {
        Extend64::From8 => i64::from(((number % (1 << 8)) as u8).cast_signed()),
        Extend64::From16 => i64::from(((number % (1 << 16)) as u16).cast_signed()),
        Extend64::From32 => i64::from(((number % (1 << 32)) as u32).cast_signed()),
    };
    extended.cast_unsigned()
}

#[tactic(auto, unfolding(crate::specs::ArithmeticAndJumps::reordered))]
/// Returns the low bytes in the given byte order; all bits above them are zero.
fn reordered(order: ByteOrder, width: SwapWidth, number: u64) -> u64
    ensures { result ≡ reordered order (swap_bytes_of width) number }
{
    match order {
        ByteOrder::Little => low_bytes(width, number),
        ByteOrder::Big | ByteOrder::Swap => swapped(width, number),
    }
}

/// Returns the low bytes of a number.
fn low_bytes(width: SwapWidth, number: u64) -> u64
    ensures { result ≡ low_bits (8 * swap_bytes_of width) number }
{
    match width {
        SwapWidth::B16 => number % (1 << 16),
        SwapWidth::B32 => number % (1 << 32),
        SwapWidth::B64 => number,
    }
}

#[tactic(auto, unfolding(crate::specs::WholeNumbers::reversed_bytes))]
/// Returns the low bytes of a number in reverse order.
fn swapped(width: SwapWidth, number: u64) -> u64
    ensures { result ≡ reversed_bytes (swap_bytes_of width) number }
{
    match width {
        SwapWidth::B16 => u64::from(((number % (1 << 16)) as u16).swap_bytes()),
        SwapWidth::B32 => u64::from(((number % (1 << 32)) as u32).swap_bytes()),
        SwapWidth::B64 => number.swap_bytes(),
    }
}
