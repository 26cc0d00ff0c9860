//! Contexts from memory.

ghost use Rattle.std.specs.Prelude.{◌≡◌, ◌≤◌, ◌+◌, length};

use rb_source::{Filled, Piece, Source, SourceFault};

// The bytes of every context.
static CONTEXT: [u8; 256] = [0; 256];

/// The length of a context if none is requested, in bytes.
const SHORT: u8 = 16;

/// A length of contexts: at most 255 bytes.
#[derive(Clone, Copy)]
pub(crate) struct ContextLen {
    bytes: u8,
}

impl ContextLen {
    /// Returns the requested length, or 16 bytes if it is 0 or above 255.
    pub(crate) fn or_short(bytes: u32) -> ContextLen {
        match u8::try_from(bytes) {
            Ok(0) | Err(_) => ContextLen { bytes: SHORT },
            Ok(bytes) => ContextLen { bytes },
        }
    }

    /// Returns the number of bytes.
    pub(crate) fn bytes(self) -> u32
        ensures value { result ≡ self.bytes }
        ensures bound { result ≤ 255 }
    {
        u32::from(self.bytes)
    }

    /// Returns a context of this length, whose bytes are 0.
    pub(crate) fn context(self) -> &'static [u8]
        ensures { length result.now ≡ self.bytes }
    {
        &CONTEXT[..usize::from(self.bytes)]
    }
}

/// A source that gives the same context again and again, so that its memory does not grow with their number.
#[derive(Drop)]
pub(crate) struct RepeatedContext {
    /// The length of the context.
    pub len: ContextLen,
    /// The number of contexts that are left.
    pub left: u64,
}

// Appends the context to the piece until it is full, at most `most` times, and returns how often.
fn append(piece: &mut Piece, context: &[u8], most: u64) -> u64
    requires size { length context.now ≡ piece.old.ctx_len }
    ensures size { piece.new.ctx_len ≡ piece.old.ctx_len }
    ensures count { length piece.new.contexts ≡ length piece.old.contexts + result }
{
    let mut count = 0;
    while count < most && !piece.is_full() {
        piece.push(context);
        count += 1;
    }
    count
}

impl Source for RepeatedContext {
    ghost ctx_len_of = { λ s. s.len.bytes };

    ghost gives = { λ _ _ _. Unit {0} };

    ghost is_over = { λ _. Unit {0} };

    ghost fails = { λ _ _. Unit {0} };

    ghost gives_nothing = { λ _. tt };

    ghost gives_both = { λ _ _ _ _ _ _ _. tt };

    fn ctx_len(&self) -> u32 {
        self.len.bytes()
    }

    fn fill(&mut self, piece: &mut Piece) -> Result<Filled, SourceFault> {
        let count = append(piece, self.len.context(), self.left);
        self.left = self.left.saturating_sub(count);
        if piece.is_empty() {
            return Ok(Filled::End);
        }
        Ok(Filled::More)
    }
}
