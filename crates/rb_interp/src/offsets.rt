//! Offsets of pointers, and signed numbers.

ghost use Rattle.std.specs.Prelude.{◌≡◌, ◌+ℤ◌, true};
ghost use Rattle.rb_insn.specs.WholeNumbers.{signed_of, wrapped};
ghost use Rattle.rb_verifier.specs.AbstractArithmetic.{is_near};
ghost use Rattle.rb_interp.specs.inner.NearOffsets.{IsNear};

/// Returns a signed number as a 64-bit number in two's complement.
pub(crate) fn unsigned(number: i64) -> u64
    ensures value { result ≡ wrapped 64 number }
    ensures back { signed_of 64 result ≡ number }
{
    number.cast_unsigned()
}

/// Returns a 64-bit number, read as signed.
pub(crate) fn signed(number: u64) -> i64
    ensures { result ≡ signed_of 64 number }
{
    number.cast_signed()
}

/// Returns the offset `start + by`.
pub(crate) fn behind(start: i64, by: i16) -> i64
    requires { is_near start ≡ true }
    ensures sum { result ≡ start +ℤ by }
    ensures near { IsNear result }
{
    start + i64::from(by)
}
