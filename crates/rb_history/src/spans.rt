//! The number of bytes by which a record advances a ring's positions.

ghost use Rattle.std.specs.Prelude.{◌≡◌, ℕ, ◌+◌, ◌*◌, ◌≤◌};
ghost use Rattle.rb_history.specs.Span as spans;

/// Returns the number of bytes that a record of `n` bytes occupies in a ring: eight for its header, plus its payload
/// rounded up to a multiple of eight. At most 4,294,967,304. (The header is that of Linux
/// Documentation/bpf/ringbuf.rst; the rounding is own.)
///
/// Takes constant time.
pub fn span(n: u32) -> u64
    ensures value { result ≡ spans.span n }
    ensures holds { 8 + n ≤ result }
    ensures least { (k : ℕ) → n ≤ 8 * k → result ≤ 8 + 8 * k }
{
    8 + ((u64::from(n) + 7) & !7)
}
