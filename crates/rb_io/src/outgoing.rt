//! Writers that may hold back bytes.

ghost use Rattle.std.specs.Prelude.{◌≡◌, [], ℕ, Bool, List, Option, OnOk, is_ok};
ghost use Rattle.std.specs.Io.KnownBytes.{Keeps, append_known};

use std::io;
use std::io::Write;

/// A writer that specifies which bytes it accepted and did not pass on yet. `Write::flush` has no law about that;
/// `write_out` has.
pub trait Outgoing: Write {
    /// The bytes that were passed on to the underlying writer, if they are known.
    ghost went: { Self → Option (List ℕ) };

    /// The bytes that were accepted and not passed on yet, the oldest first.
    ghost waiting: { Self → List ℕ };

    /// Relates the states before and after a call of `write_out` that succeeded, or failed. If it relates two states,
    /// such a call happened between them.
    ghost writes_out: { Self → Bool → Self → Type 0 };

    /// Passes on all waiting bytes, and flushes the underlying writer. The error is that of the write or flush that
    /// failed; the bytes that were not written wait for the next call.
    fn write_out(&mut self) -> io::Result<()>
        ensures bytes { Keeps (Self.contents self.old) (Self.contents self.new) }
        ensures nothing_waits { OnOk result (waiting self.new ≡ []) }
        ensures called { writes_out self.old (is_ok result) self.new };

    /// The contents are the bytes that were passed on, followed by those that wait.
    ghost contents_are: { (w : Self) → Self.contents w ≡ append_known (went w) (waiting w) };
}
