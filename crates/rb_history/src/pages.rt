//! The pages of a ring's bytes.

ghost use Rattle.std.specs.Prelude.{◌≡◌};
ghost use Rattle.std.specs.Int.{IsPowerOfTwo};
ghost use Rattle.rb_history.specs.TapeBytes as tapes;

// The size of a page in bytes (Linux Documentation/bpf/ringbuf.rst gives a record's offset in pages).
const PAGE: u64 = 4096;

#[inline(always)]
/// Returns the number of the page of 4,096 bytes that contains `position`, counted from the start of the bytes of a
/// ring of this size, a power of two. (Linux Documentation/bpf/ringbuf.rst.)
///
/// Takes constant time and does not divide.
pub fn page_of(size: u64, position: u64) -> u64
    requires size { IsPowerOfTwo size }
    ensures value { result ≡ tapes.page_of size position }
{
    (position & (size - 1)) / PAGE
}
