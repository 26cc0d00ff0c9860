//! A reader and a writer that keep the error of a call that failed.

use std::io;
use std::io::{Error, Read, Write};
use std::marker::Model;

/// The number of bytes at the start of an input that are examined.
const LOOKED_AT: u64 = 65_536;

/// What is known about the start of an input.
#[derive(Clone, Copy, Debug, Default, PartialEq, Eq)]
pub struct Front {
    /// The number of bytes read; saturates at `u64::MAX`.
    pub count: u64,
    /// How many of the first 65,536 bytes are hex digits, before the first one that is neither a digit nor ASCII white
    /// space.
    pub digits: u64,
    /// The offset of that byte, and the byte.
    pub odd: Option<(u64, u8)>,
}

impl Front {
    // Adds the next bytes of the input.
    fn add(&mut self, bytes: &[u8]) {
        let mut at = self.count;
        for byte in bytes {
            if self.odd.is_some() || at >= LOOKED_AT {
                break;
            }
            if byte.is_ascii_hexdigit() {
                self.digits = self.digits.saturating_add(1);
            } else if !byte.is_ascii_whitespace() {
                self.odd = Some((at, *byte));
            }
            at = at.saturating_add(1);
        }
        self.count = self.count.saturating_add(bytes.len() as u64);
    }
}

/// A reader that keeps the error of the last read of another reader, if it failed, and what is known about the start of
/// the input.
#[derive(Drop)]
pub struct NotedReader<R> {
    reader: R,
    /// The error of the last read, if it failed.
    pub error: Option<Error>,
    /// What is known about the start of the input.
    pub front: Front,
}

impl<R> Model for NotedReader<R> {
    ghost Value = { R };

    ghost view = { λ noted. noted.reader };
}

impl<R> NotedReader<R> {
    ghost use Rattle.std.specs.Prelude.{◌≡◌};

    /// Returns a reader over this one, from which nothing was read.
    pub fn new(reader: R) -> NotedReader<R>
        ensures { result ≡ reader }
    {
        NotedReader {
            reader,
            error: None,
            front: Front::default(),
        }
    }
}

impl<R: Read> Read for NotedReader<R> {
    ghost remaining = { λ noted. R.remaining noted };

    fn read(&mut self, buf: &mut [u8]) -> io::Result<usize> {
        match self.reader.read(buf) {
            Ok(count) => {
                self.error = None;
                self.front.add(&buf[..count]);
                Ok(count)
            }
            Err(error) => {
                self.error = Some(error);
                Err(error)
            }
        }
    }
}

/// A writer that keeps the error of the last write or flush of another writer, if it failed.
#[derive(Drop)]
pub struct NotedWriter<W> {
    writer: W,
    /// The error of the last write or flush, if it failed.
    pub error: Option<Error>,
}

impl<W> Model for NotedWriter<W> {
    ghost Value = { W };

    ghost view = { λ noted. noted.writer };
}

impl<W> NotedWriter<W> {
    ghost use Rattle.std.specs.Prelude.{◌≡◌};

    /// Returns a writer over this one, to which nothing was written.
    pub fn new(writer: W) -> NotedWriter<W>
        ensures { result ≡ writer }
    {
        NotedWriter {
            writer,
            error: None,
        }
    }
}

impl<W: Write> Write for NotedWriter<W> {
    ghost contents = { λ noted. W.contents noted };

    fn write(&mut self, piece: &[u8]) -> io::Result<usize> {
        match self.writer.write(piece) {
            Ok(taken) => {
                self.error = None;
                Ok(taken)
            }
            Err(error) => {
                self.error = Some(error);
                Err(error)
            }
        }
    }

    fn flush(&mut self) -> io::Result<()> {
        match self.writer.flush() {
            Ok(()) => {
                self.error = None;
                Ok(())
            }
            Err(error) => {
                self.error = Some(error);
                Err(error)
            }
        }
    }
}
