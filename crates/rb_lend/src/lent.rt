//! Values that lend their bytes.

ghost use Rattle.std.specs.Prelude.{◌≡◌, ◌+◌, ◌≤◌, ℕ, List, length, take, drop};
ghost use Rattle.std.specs.Borrow.{sem, Lends, Array, u8 as byte};
ghost use Rattle.rb_lend.specs.Ranges.{written_at};

/// A value that lends its bytes, for reading and for writing. Its calls receive neither an allocator nor a runtime.
pub trait Lent {
    /// The bytes of a value.
    ghost bytes_of: { Self → List ℕ };

    /// The value after a loan that leaves these bytes.
    ghost with_bytes: { Self → List ℕ → Self };

    /// Lends the bytes for reading.
    fn bytes(&self) -> &[u8]
        ensures { result.now ≡ bytes_of self.now };

    /// Lends the bytes for writing. Their number does not change, and nothing but the bytes changes.
    fn bytes_mut(&mut self) -> &mut [u8]
        ensures* writes_back { sem 𝓛 (Lends Self.row (Array byte 0) self.entry result (with_bytes self.old)) }
        ensures value { result.now ≡ bytes_of self.old };

    /// Lends `len` bytes from index `at` for writing. The range must lie inside the bytes. The other bytes do not
    /// change.
    fn range_mut(&mut self, at: usize, len: usize) -> &mut [u8]
        requires { at + len ≤ length (bytes_of self.old) }
        ensures* writes_back { sem 𝓛 (Lends Self.row (Array byte 0) self.entry result (λ w. with_bytes self.old (written_at at (bytes_of self.old) w))) }
        ensures value { result.now ≡ take len (drop at (bytes_of self.old)) };

    /// After a loan the value has the bytes that were written, if they are as many as before.
    ghost rewritten: { (s : Self) (w : List ℕ) → length w ≡ length (bytes_of s) → bytes_of (with_bytes s w) ≡ w };
}
