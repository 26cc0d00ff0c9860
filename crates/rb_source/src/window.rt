//! The window of bytes that were read and not used yet.

ghost use Rattle.std.specs.Prelude.{◌≡◌, ◌≤◌, ◌<◌, ◌-◌, ◌++◌, List, ℕ, [], IfOk, length, take, drop};
ghost use Rattle.std.specs.Io.KnownBytes.{Consumes, IsAtEnd};
ghost use Rattle.rb_source.specs.declared.window.ReadOutcome.TheVariants.{End as ended};

use std::alloc::{AllocError, Global};
use std::io::{ErrorKind, Read};
use std::marker::Model;

/// The size of a window in bytes. Each context that can be given fits into it, together with its framing.
pub(crate) const WINDOW_SIZE: usize = 131_072;

/// The result of a read.
#[derive(Clone, Copy, PartialEq, Eq)]
pub(crate) enum ReadOutcome {
    /// Bytes, or none because the read was interrupted.
    Bytes,
    /// The input has ended.
    End,
    /// The read failed.
    Fault,
}

/// The bytes that were read and not used yet. Contracts see them as a list.
#[derive(Drop)]
pub(crate) struct Window {
    // The bytes are those from `at` to `end`.
    room: Vec<u8>,
    at: usize,
    end: usize,
}

impl Model for Window {
    ghost use Rattle.std.specs.Prelude.{List, ℕ, drop, take};
    ghost use Rattle.rb_source.specs.inner.Side.{IsWindow};

    ghost Value = { List ℕ };

    ghost view = { λ w. drop w.at (take w.end w.room.items) };

    ghost invariant = { λ w. IsWindow w.at w.end w.room.items };
}

// Moves the bytes from `at` to `end` to the front.
fn move_to_front(room: &mut Vec<u8>, at: usize, end: usize)
    requires order { at ≤ end }
    requires inside { end ≤ length room.old.items }
    ensures moved { take (end - at) room.new.items ≡ drop at (take end room.old.items) }
    ensures size { length room.new.items ≡ length room.old.items }
{
    room.copy_within(at..end, 0);
}

impl Window {
    /// Returns an empty window.
    pub(crate) fn new(alloc: Global) -> Result<Window, AllocError>
        ensures empty { IfOk result (λ w. w ≡ []) }
    {
        Ok(Window {
            room: vec![in alloc; 0; WINDOW_SIZE]?,
            at: 0,
            end: 0,
        })
    }

    /// Lends the bytes.
    pub(crate) fn bytes(&self) -> &[u8]
        ensures value { result.now ≡ self.now }
        ensures bound { length result.now ≤ 131072 }
    {
        &self.room[self.at..self.end]
    }

    /// Drops the first bytes.
    pub(crate) fn drop_front(&mut self, count: usize)
        requires { count ≤ length self.old }
        ensures rest { self.new ≡ drop count self.old }
    {
        self.at += count;
    }

    /// Drops all bytes.
    pub(crate) fn clear(&mut self)
        ensures empty { self.new ≡ [] }
    {
        self.at = 0;
        self.end = 0;
    }

    /// Reads once, and appends the bytes. It waits as the reader does.
    pub(crate) fn read_from<R: Read>(&mut self, reader: &mut R) -> ReadOutcome
        requires room { length self.old < 131072 }
        ensures came { (bytes : List ℕ) × Consumes (R.remaining reader.old) (R.remaining reader.new) bytes × (self.new ≡ self.old ++ bytes) }
        ensures end { result ≡ ended → (self.new ≡ self.old) × IsAtEnd (R.remaining reader.new) }
    {
        move_to_front(&mut self.room, self.at, self.end);
        self.end -= self.at;
        self.at = 0;
        match reader.read(&mut self.room[self.end..]) {
            Ok(0) => ReadOutcome::End,
            Ok(count) => {
                self.end += count;
                ReadOutcome::Bytes
            }
            Err(error) if error.kind() == ErrorKind::Interrupted => ReadOutcome::Bytes,
            Err(_) => ReadOutcome::Fault,
        }
    }
}
