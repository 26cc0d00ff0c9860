//! The bytes of memory that a pointer may access.

ghost use Rattle.std.specs.Prelude.{◌≡◌, ◌^◌, ℕ, pos, negsuc, ◌≤ℤ◌, ◌+ℤ◌};
ghost use Rattle.rb_verifier.specs.Extents.{contains_range, reaches};

use crate::limits::Limits;
use crate::references::Held;
use crate::value::Abs;

/// The offset of the first byte of the stack; the last byte is at offset -1.
const STACK_FIRST: i64 = -512;

/// Returns whether the `len` bytes at `offset + by` lie between the first byte of a part and its end.
fn contains_range(first: i64, end: i64, offset: i64, by: i64, len: u64) -> bool
    requires first { negsuc 511 ≤ℤ first }
    requires end { end ≤ℤ pos (2 ^ 32) }
    ensures { result ≡ contains_range (record { first = first; end = end }) (offset +ℤ by) len }
{
    let Some(from) = offset.checked_add(by) else {
        return false;
    };
    if from < first {
        return false;
    }
    if end < from {
        return false;
    }
    len <= (end - from).unsigned_abs()
}

/// Returns whether the `len` bytes at `value + by` lie in the part that the pointer points to. False if `value` is not
/// a pointer.
pub(crate) fn reaches(limits: Limits, held: &Held, value: Abs, by: i64, len: u64) -> bool
    ensures { result ≡ reaches limits held.now value by len }
{
    match value {
        Abs::Ctx(offset) => { contains_range(0, i64::from(limits.ctx_len), offset, by, len) }
        Abs::Stack(offset) => contains_range(STACK_FIRST, 0, offset, by, len),
        Abs::Record(id, offset) => match held.get(id) {
            None => false,
            Some(reference) => contains_range(0, i64::from(reference.size), offset, by, len),
        },
        _ => false,
    }
}
