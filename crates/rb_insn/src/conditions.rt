//! The conditions of jumps.

ghost use Rattle.std.specs.Prelude.{◌≡◌, ℕ, ◌^◌, ◌<◌};
ghost use Rattle.rb_insn.specs.WholeNumbers.{condition_holds, low_bits};
ghost use Rattle.rb_insn.specs.ArithmeticAndJumps.{bits_of, IgnoresSource, IsConditional, jumps_of};

use crate::operands::{low_bits, operand_value, signed};
use crate::{Condition, Insn, Width};

#[inline(always)]
#[tactic(auto, unfolding(crate::specs::ArithmeticAndJumps::jumps_of))]
/// Returns whether a conditional jump is taken if its destination register holds `dst` and its source register holds
/// `src` (RFC 9669, section 4.3).
///
/// An instruction with an immediate operand ignores `src`. Takes constant time.
pub fn jumps(insn: &Insn, dst: u64, src: u64) -> bool
    requires { IsConditional insn.now }
    ensures jumps { result ≡ jumps_of insn.now dst src }
    ensures source_unread { IgnoresSource insn.now → (other : ℕ) → result ≡ jumps_of insn.now dst other }
{
    match *insn {
        Insn::Branch {
            width,
            condition,
            operand,
            ..
        } => {
            let second = operand_value(operand, src);
            match width {
                Width::W32 => holds_at(Width::W32, condition, dst, second),
                Width::W64 => holds_at(Width::W64, condition, dst, second),
            }
        }
        _ => unreachable!(),
    }
}

#[inline(always)]
/// Returns whether the condition holds for the low bits of two numbers, as many as the width has.
///
/// Callers pass a constant width, so the compiler specializes this for each one.
fn holds_at(width: Width, condition: Condition, dst: u64, src: u64) -> bool
    ensures { result ≡ condition_holds (bits_of width) condition (low_bits (bits_of width) dst) (low_bits (bits_of width) src) }
{
    holds(width, condition, low_bits(width, dst), low_bits(width, src))
}

#[inline(always)]
#[tactic(auto, unfolding(crate::specs::WholeNumbers::condition_holds))]
/// Returns whether the condition holds for two numbers that fit the width.
fn holds(width: Width, condition: Condition, a: u64, b: u64) -> bool
    requires first { a < 2 ^ bits_of width }
    requires second { b < 2 ^ bits_of width }
    ensures { result ≡ condition_holds (bits_of width) condition a b }
{
    match condition {
        Condition::Equal => a == b,
        Condition::NotEqual => a != b,
        Condition::AnyBit => a & b != 0,
        Condition::Above => a > b,
        Condition::AtLeast => a >= b,
        Condition::Below => a < b,
        Condition::AtMost => a <= b,
        Condition::SignedAbove => signed(width, a) > signed(width, b),
        Condition::SignedAtLeast => signed(width, a) >= signed(width, b),
        Condition::SignedBelow => signed(width, a) < signed(width, b),
        Condition::SignedAtMost => signed(width, a) <= signed(width, b),
    }
}
