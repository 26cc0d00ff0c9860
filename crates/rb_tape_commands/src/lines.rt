//! Text that is assembled in a buffer.

use crate::hex_digits::write_digits;
use std::alloc::{AllocError, Global};
use std::marker::Model;

/// Lines that are collected for one write. Space for a line is reserved before it is assembled, so its parts are plain
/// copies.
#[derive(Drop)]
pub(crate) struct Lines {
    // The first `count` of these bytes are the text; the others have no meaning.
    bytes: Vec<u8>,
    count: usize,
}

impl Model for Lines {
    ghost use Rattle.std.specs.Prelude.{◌≤◌, length, take};
    ghost use Rattle.rb_tape_commands.specs.inner.RoomForText.{RoomForText};

    ghost Value = { RoomForText };

    ghost view = { λ l. record { text = take l.count l.bytes.items; room = length l.bytes.items } };

    ghost invariant = { λ l. l.count ≤ length l.bytes.items };
}

impl Lines {
    ghost use Rattle.std.specs.Prelude.{◌≡◌, ◌<◌, ◌≤◌, ◌+◌, ◌*◌, ◌^◌, ◌++◌, [], OnOk, length};
    ghost use Rattle.hex.specs.Hex.{encode_lower};

    /// No lines. Allocates nothing yet.
    pub(crate) fn new(alloc: Global) -> Lines
        ensures empty { result.text ≡ [] }
    {
        Lines {
            bytes: Vec::new(alloc),
            count: 0,
        }
    }

    /// Removes the lines, and keeps their buffer.
    pub(crate) fn clear(&mut self)
        ensures empty { self.new.text ≡ [] }
    {
        self.count = 0;
    }

    /// Returns the text of the lines.
    pub(crate) fn text(&self) -> &[u8]
        ensures value { result.now ≡ self.now.text }
    {
        &self.bytes[..self.count]
    }

    #[inline(always)]
    /// Reserves space for `more` bytes after the text.
    pub(crate) fn reserve(&mut self, more: usize) -> Result<(), AllocError>
        requires fits { more < 2 ^ 34 }
        ensures text { self.new.text ≡ self.old.text }
        ensures room { OnOk result (length self.new.text + more ≤ self.new.room) }
    {
        if more <= self.bytes.len() - self.count {
            return Ok(());
        }
        self.grow(more)
    }

    #[cold]
    #[inline(never)]
    // Grows the buffer to this space.
    fn grow(&mut self, more: usize) -> Result<(), AllocError>
        requires fits { more < 2 ^ 34 }
        ensures text { self.new.text ≡ self.old.text }
        ensures room { OnOk result (length self.new.text + more ≤ self.new.room) }
    {
        self.bytes.resize(self.count + more, 0)
    }

    #[inline(always)]
    /// Appends a piece.
    pub(crate) fn put(&mut self, piece: &[u8])
        requires room { length self.old.text + length piece.now ≤ self.old.room }
        ensures text { self.new.text ≡ self.old.text ++ piece.now }
        ensures room { self.new.room ≡ self.old.room }
    {
        let end = self.count + piece.len();
        self.bytes[self.count..end].copy_from_slice(piece);
        self.count = end;
    }

    #[inline(always)]
    /// Appends the hex digits of some bytes.
    pub(crate) fn put_digits(&mut self, bytes: &[u8])
        requires room { length self.old.text + 2 * length bytes.now ≤ self.old.room }
        ensures text { self.new.text ≡ self.old.text ++ encode_lower bytes.now }
        ensures length { length self.new.text ≡ length self.old.text + 2 * length bytes.now }
        ensures room { self.new.room ≡ self.old.room }
    {
        let end = self.count + 2 * bytes.len();
        write_digits(bytes, &mut self.bytes[self.count..end]);
        self.count = end;
    }
}
