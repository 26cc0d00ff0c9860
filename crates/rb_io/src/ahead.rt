//! A buffered reader.

use crate::incoming::Incoming;
use crate::outgoing::Outgoing;
use std::alloc::{AllocError, Global};
use std::io;
use std::io::Read;
use std::marker::Model;

/// The maximal number of bytes of one read: the capacity of a pipe (pipe(7)).
const CAPACITY: usize = 65_536;

/// A reader that buffers another one, up to 65,536 bytes at a time. Unlike std's `BufReader` it reads only in
/// [`Incoming::fill`].
#[derive(Drop)]
pub struct ReadAhead<R> {
    reader: R,
    // `CAPACITY` bytes, of which those from `start` to `end` were read and not consumed yet.
    room: Vec<u8>,
    start: usize,
    end: usize,
}

impl<R> Model for ReadAhead<R> {
    ghost use Rattle.std.specs.Prelude.{◌≡◌, ◌≤◌, length, slice_range};
    ghost use Rattle.rb_io.specs.Gathered.{ReadOn};

    ghost Value = { ReadOn R };

    ghost view = { λ a. record { reader = a.reader; at_hand = slice_range a.room.items a.start a.end } };

    ghost invariant = { λ a. (length a.room.items ≡ 65536) × (a.start ≤ a.end) × (a.end ≤ 65536) };
}

impl<R: Read> ReadAhead<R> {
    ghost use Rattle.std.specs.Prelude.{◌≡◌, [], IfOk};

    /// Returns a buffer over the reader, from which nothing was read. Fails if memory for the buffer can't be
    /// allocated.
    pub fn new(alloc: Global, reader: R) -> Result<ReadAhead<R>, AllocError>
    where
        R: Drop,
        ensures reader { IfOk result (λ a. a.reader ≡ reader) }
        ensures empty { IfOk result (λ a. a.at_hand ≡ []) }
    {
        let mut room = Vec::new(alloc);
        room.resize(CAPACITY, 0)?;
        Ok(ReadAhead {
            reader,
            room,
            start: 0,
            end: 0,
        })
    }
}

impl<R: Read> Incoming for ReadAhead<R> {
    ghost use Rattle.std.specs.Io.KnownBytes.{prepend_known};

    ghost remaining = { λ a. prepend_known a.at_hand (R.remaining a.reader) };

    ghost held = { λ a. a.at_hand };

    #[inline(always)]
    fn at_hand(&self) -> &[u8] {
        &self.room[self.start..self.end]
    }

    #[inline(always)]
    fn consume(&mut self, count: usize) {
        self.start += count;
    }

    fn fill<W: Outgoing>(&mut self, _out: &W) -> io::Result<()> {
        self.start = 0;
        self.end = 0;
        self.end = self.reader.read(&mut self.room)?;
        Ok(())
    }
}
