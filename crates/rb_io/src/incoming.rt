//! Readers that read only when all output is written.

ghost use Rattle.std.specs.Prelude.{◌≡◌, ◌≤◌, [], ℕ, List, Option, length, take, drop, OnErr, OnOk};
ghost use Rattle.std.specs.Io.KnownBytes.{Consumes, IsAtEnd, Keeps};

use crate::outgoing::Outgoing;
use std::io;

/// A buffered reader that requires, before each read of the underlying input, that no bytes wait in the command's
/// output. So a command that is proved for any `Incoming` never waits for input while it holds back output.
pub trait Incoming {
    /// The bytes that are still to be consumed, the buffered ones first, if they are known.
    ghost remaining: { Self → Option (List ℕ) };

    /// The bytes that were read and not consumed yet, the oldest first.
    ghost held: { Self → List ℕ };

    /// Returns the bytes that were read and not consumed yet. Does not read.
    fn at_hand(&self) -> &[u8]
        ensures value { result.now ≡ held self.now };

    /// Consumes the first `count` of the buffered bytes.
    fn consume(&mut self, count: usize)
        requires within { count ≤ length (held self.old) }
        ensures bytes { Consumes (remaining self.old) (remaining self.new) (take count (held self.old)) }
        ensures rest { held self.new ≡ drop count (held self.old) };

    /// Reads once, when nothing is buffered. If nothing is buffered afterwards, the input ended.
    ///
    /// The error is that of the read. In that case nothing was read, and nothing is buffered.
    fn fill<W: Outgoing>(&mut self, out: &W) -> io::Result<()>
        requires nothing_at_hand { held self.old ≡ [] }
        requires nothing_waits { W.waiting out.now ≡ [] }
        ensures bytes { Keeps (remaining self.old) (remaining self.new) }
        ensures end { OnOk result (held self.new ≡ [] → IsAtEnd (remaining self.new)) }
        ensures failed { OnErr result (held self.new ≡ []) };
}
