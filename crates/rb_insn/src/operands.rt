//! Operands at the width of an instruction.

ghost use Rattle.std.specs.Prelude.{◌≡◌, ◌%◌, ◌^◌, ◌<◌};
ghost use Rattle.rb_insn.specs.WholeNumbers.{low_bits, signed_of};
ghost use Rattle.rb_insn.specs.ArithmeticAndJumps.{bits_of, operand_of};

use crate::{Operand, Width};

#[inline(always)]
/// Returns the second operand as a 64-bit number: the sign-extended immediate, or the source register.
pub(crate) fn operand_value(operand: Operand, src: u64) -> u64
    ensures { result ≡ operand_of operand src }
{
    match operand {
        Operand::Immediate(value) => i64::from(value).cast_unsigned(),
        Operand::Register(_) => src,
    }
}

#[inline(always)]
/// Returns a shift count: the operand modulo the width in bits.
pub(crate) fn shift_count(width: Width, operand: u64) -> u32
    ensures { result ≡ operand % bits_of width }
{
    match width {
        Width::W32 => (operand % 32) as u32,
        Width::W64 => (operand % 64) as u32,
    }
}

#[inline(always)]
/// Returns the low bits of a number, as many as the width has.
pub(crate) fn low_bits(width: Width, number: u64) -> u64
    ensures { result ≡ low_bits (bits_of width) number }
{
    match width {
        Width::W32 => number % (1 << 32),
        Width::W64 => number,
    }
}

#[inline(always)]
/// Returns a number that fits the width, read as signed.
pub(crate) fn signed(width: Width, number: u64) -> i64
    requires { number < 2 ^ bits_of width }
    ensures { result ≡ signed_of (bits_of width) number }
{
    match width {
        Width::W32 => i64::from((number as u32).cast_signed()),
        Width::W64 => number.cast_signed(),
    }
}
