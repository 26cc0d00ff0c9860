//! Readers and writers that transfer little at a time, and fail.

use rb_io::Outgoing;
use std::alloc::Global;
use std::io::{Error, ErrorKind, Read, Result, Write};

/// A reader that gives its bytes, at most `most` at a time, and then the end, or fails if it has a `fault`.
#[derive(Drop)]
pub struct FakeReader<'a> {
    pub rest: &'a [u8],
    pub most: usize,
    pub fault: Option<ErrorKind>,
}

impl<'a> FakeReader<'a> {
    pub(crate) fn new(bytes: &'a [u8], most: usize) -> FakeReader<'a> {
        FakeReader {
            rest: bytes,
            most,
            fault: None,
        }
    }

    pub(crate) fn failing(bytes: &'a [u8], fault: ErrorKind) -> FakeReader<'a> {
        FakeReader {
            rest: bytes,
            most: 3,
            fault: Some(fault),
        }
    }
}

impl Read for FakeReader<'_> {
    fn read(&mut self, buf: &mut [u8]) -> Result<usize> {
        if self.rest.is_empty() {
            return match self.fault {
                None => Ok(0),
                Some(kind) => Err(Error::from(kind)),
            };
        }
        let n = self.rest.len().min(buf.len()).min(self.most);
        let (front, rest) = self.rest.split_at(n);
        buf[..n].copy_from_slice(front);
        self.rest = rest;
        Ok(n)
    }
}

/// What a `FakeWriter` does when its room is exhausted.
#[derive(Clone, Copy)]
pub enum Trouble {
    TakesNothing,
    Fails(ErrorKind),
}

/// A writer that accepts bytes, at most `most` at a time, until `room` is exhausted.
#[derive(Drop)]
pub struct FakeWriter {
    pub taken: Vec<u8>,
    pub flushed: usize,
    pub room: usize,
    pub most: usize,
    pub trouble: Trouble,
    pub flush_fails: bool,
}

impl FakeWriter {
    pub(crate) fn new(alloc: Global, room: usize, most: usize, trouble: Trouble) -> FakeWriter {
        FakeWriter {
            taken: Vec::new(alloc),
            flushed: 0,
            room,
            most,
            trouble,
            flush_fails: false,
        }
    }

    /// Returns a writer that accepts everything.
    pub(crate) fn open(alloc: Global) -> FakeWriter {
        FakeWriter::new(alloc, usize::MAX, usize::MAX, Trouble::TakesNothing)
    }
}

impl Write for FakeWriter {
    fn write(&mut self, buf: &[u8]) -> Result<usize> {
        let n = buf.len().min(self.most).min(self.room);
        if n == 0 && !buf.is_empty() {
            return match self.trouble {
                Trouble::TakesNothing => Ok(0),
                Trouble::Fails(kind) => Err(Error::from(kind)),
            };
        }
        self.taken.extend_from_slice(&buf[..n])?;
        self.room -= n;
        Ok(n)
    }

    fn flush(&mut self) -> Result<()> {
        if self.flush_fails {
            return Err(Error::from(ErrorKind::BrokenPipe));
        }
        self.flushed = self.taken.len();
        Ok(())
    }
}

impl Outgoing for FakeWriter {
    ghost use Rattle.std.specs.Prelude.{[], None, ⊤, refl};

    ghost went = { λ _. None };

    ghost waiting = { λ _. [] };

    ghost writes_out = { λ _ _ _. ⊤ };

    ghost contents_are = { λ _. refl };

    fn write_out(&mut self) -> Result<()> {
        self.flush()
    }
}

/// A writer that accepts one byte in each write, except for write number `fails_at`, counted from 1, which fails.
#[derive(Drop)]
pub struct OneFailure {
    pub taken: Vec<u8>,
    pub writes: usize,
    pub fails_at: usize,
    pub trouble: Trouble,
}

impl OneFailure {
    pub(crate) fn new(alloc: Global, fails_at: usize, trouble: Trouble) -> OneFailure {
        OneFailure {
            taken: Vec::new(alloc),
            writes: 0,
            fails_at,
            trouble,
        }
    }
}

impl Write for OneFailure {
    fn write(&mut self, buf: &[u8]) -> Result<usize> {
        let n = buf.len().min(1);
        self.writes = self.writes.saturating_add(n);
        if self.writes == self.fails_at && n > 0 {
            return match self.trouble {
                Trouble::TakesNothing => Ok(0),
                Trouble::Fails(kind) => Err(Error::from(kind)),
            };
        }
        self.taken.extend_from_slice(&buf[..n])?;
        Ok(n)
    }

    fn flush(&mut self) -> Result<()> {
        Ok(())
    }
}

impl Outgoing for OneFailure {
    ghost use Rattle.std.specs.Prelude.{[], None, ⊤, refl};

    ghost went = { λ _. None };

    ghost waiting = { λ _. [] };

    ghost writes_out = { λ _ _ _. ⊤ };

    ghost contents_are = { λ _. refl };

    fn write_out(&mut self) -> Result<()> {
        self.flush()
    }
}

/// A writer over one that fails once, which fails a second time: at write number `fails_at`, counted from 1. Its first
/// `opens` calls of `write_out` succeed, and the `closed` calls after them fail.
#[derive(Drop)]
pub struct MoreFailures {
    pub inner: OneFailure,
    pub writes: usize,
    pub fails_at: usize,
    pub opens: u32,
    pub closed: u32,
}

impl Write for MoreFailures {
    fn write(&mut self, buf: &[u8]) -> Result<usize> {
        self.writes = self.writes.saturating_add(1);
        if self.writes == self.fails_at {
            return Err(Error::from(ErrorKind::StorageFull));
        }
        self.inner.write(buf)
    }

    fn flush(&mut self) -> Result<()> {
        self.inner.flush()
    }
}

impl Outgoing for MoreFailures {
    ghost use Rattle.std.specs.Prelude.{[], None, ⊤, refl};

    ghost went = { λ _. None };

    ghost waiting = { λ _. [] };

    ghost writes_out = { λ _ _ _. ⊤ };

    ghost contents_are = { λ _. refl };

    fn write_out(&mut self) -> Result<()> {
        if self.opens > 0 {
            self.opens -= 1;
        } else if self.closed > 0 {
            self.closed -= 1;
            return Err(Error::from(ErrorKind::BrokenPipe));
        }
        self.flush()
    }
}
