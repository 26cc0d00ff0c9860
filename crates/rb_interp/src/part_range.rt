//! A range of bytes of a part.

ghost use Rattle.std.specs.Prelude.{◌≡◌, true};
ghost use Rattle.rb_verifier.specs.AbstractArithmetic.{is_near};

use rb_semantics::MemoryRegion;

/// A range of bytes of a part.
#[derive(Clone, Copy)]
pub(crate) struct Range {
    pub(crate) place: MemoryRegion,
    pub(crate) offset: i64,
    pub(crate) len: usize,
    ghost near: { is_near offset ≡ true },
}

impl Range {
    /// Returns an empty range, at the end of the stack.
    pub(crate) fn none() -> Range {
        Range {
            place: MemoryRegion::Stack,
            offset: 0,
            len: 0,
        }
    }
}
