//! A writable range of a part.

ghost use Rattle.std.specs.Prelude.{◌≡◌, length, Some, true};
ghost use Rattle.std.specs.Borrow.{sem};

use crate::context::Context;
use crate::parts::{Part, Parts};
use rb_lend::Lent;

/// A range of a part that `Parts::write` found to be writable.
#[derive(Drop)]
pub struct WritableRange<'m, C, R> {
    /// The parts.
    pub parts: &'m mut Parts<C, R>,
    /// The part.
    pub part: Part,
    /// The index of the range's first byte, counted from the part's first byte.
    pub off: usize,
    /// The number of bytes in the range.
    pub len: usize,
}

impl<'m, C: Context, R: Lent> WritableRange<'m, C, R> {
    ghost use Rattle.rb_interp.specs.Lending.{LendsWritableRange};
    ghost use Rattle.rb_interp.specs.PartsMemory.{may_write, memory_of, part_range};

    /// Borrows the `len` bytes for writing. Everything else in the parts is unchanged.
    pub fn into_bytes(self) -> &'m mut [u8]
        requires { may_write R.bytes_of self.parts.now self.part self.off self.len ≡ true }
        ensures* writes_back { sem 𝓛 (LendsWritableRange C.row R.row R.with_bytes R.bytes_of self.entry result) }
        ensures value { part_range self.entry.off self.entry.len (memory_of R.bytes_of C.shown self.entry.parts.now self.entry.part) ≡ Some result.now }
        ensures length { length result.now ≡ self.entry.len }
    {
        let WritableRange {
            parts,
            part,
            off,
            len,
        } = self;
        parts.range_mut(part, off, len)
    }
}
