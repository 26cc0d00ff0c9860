//! A few bytes, stored inline.

ghost use Rattle.std.specs.Prelude.{◌≡◌, ◌≤◌, ◌+◌, replicate, length, take, drop};
ghost use Rattle.std.specs.Borrow.{sem};

use crate::block::Block;
use std::marker::Model;

/// The number of bytes that are stored inline.
pub(crate) const CAPACITY: usize = 16;

/// At most 16 bytes, stored inline. Contracts see the list of them.
#[derive(Drop)]
pub(crate) struct Short {
    block: Block<CAPACITY>,
    len: usize,
}

impl Model for Short {
    ghost use Rattle.std.specs.Prelude.{ℕ, List, take, ◌≤◌};

    ghost Value = { List ℕ };

    ghost view = { λ s. take s.len s.block.bytes };

    ghost invariant = { λ s. s.len ≤ 16 };
}

impl Short {
    ghost use Rattle.rb_lend.specs.inner.Short.{LendsShort, LendsShortRange};

    #[inline]
    /// Returns `len` zero bytes.
    pub(crate) fn zeros(len: usize) -> Short
        requires { len ≤ 16 }
        ensures { result ≡ replicate len 0 }
    {
        Short {
            block: Block {
                bytes: [0; CAPACITY],
            },
            len,
        }
    }

    #[inline]
    /// Returns a copy of the bytes. Takes constant time.
    pub(crate) fn copied(&self) -> Short
        ensures { result ≡ self.now }
    {
        Short {
            block: Block {
                bytes: self.block.bytes,
            },
            len: self.len,
        }
    }

    #[inline]
    /// Sets each byte to zero. Takes constant time.
    pub(crate) fn clear(&mut self)
        ensures { self.new ≡ replicate (length self.old) 0 }
    {
        self.block.bytes = [0; CAPACITY];
    }

    #[inline]
    /// Returns the number of bytes.
    pub(crate) fn len(&self) -> usize
        ensures { result ≡ length self.now }
    {
        let _ = self.block.bytes();
        self.len
    }

    #[inline]
    /// Lends the bytes for reading.
    pub(crate) fn bytes(&self) -> &[u8]
        ensures { result.now ≡ self.now }
    {
        &self.block.bytes()[..self.len]
    }

    #[inline]
    /// Lends the bytes for writing.
    pub(crate) fn bytes_mut(&mut self) -> &mut [u8]
        ensures* writes_back { sem 𝓛 (LendsShort self.entry result) }
        ensures value { result.now ≡ self.old }
    {
        let len = self.len;
        self.block.range_mut(0, len)
    }

    #[inline]
    /// Lends `len` bytes from index `at` for writing. The range must lie inside the bytes. The other bytes do not
    /// change.
    pub(crate) fn range_mut(&mut self, at: usize, len: usize) -> &mut [u8]
        requires { at + len ≤ length self.old }
        ensures* writes_back { sem 𝓛 (LendsShortRange self.entry at result) }
        ensures value { result.now ≡ take len (drop at self.old) }
    {
        self.block.range_mut(at, len)
    }
}
