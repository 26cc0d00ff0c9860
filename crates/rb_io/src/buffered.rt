//! A buffered writer.

use crate::device::{DeviceFault, write_out};
use crate::outgoing::Outgoing;
use std::alloc::{AllocError, Global};
use std::io;
use std::io::{Error, ErrorKind, Write};
use std::marker::Model;

/// The size of the buffer in bytes: the capacity of a pipe (pipe(7)).
const CAPACITY: usize = 65_536;

/// A writer that collects what is written to it, and passes it on when the buffer is full or on `write_out` or `flush`.
///
/// Unlike std's `BufWriter` it treats an interrupted write as a failed one, and it writes nothing when it is dropped.
/// After a write that failed, all bytes that were not written wait for the next one. The error of a write is
/// `WriteZero`, whatever the underlying error was.
#[derive(Drop)]
pub struct Buffered<W> {
    writer: W,
    // `CAPACITY` bytes, of which the first `count` wait to be written. The others are meaningless.
    room: Vec<u8>,
    count: usize,
}

impl<W> Model for Buffered<W> {
    ghost use Rattle.std.specs.Prelude.{◌≡◌, ◌≤◌, length, take};
    ghost use Rattle.rb_io.specs.Gathered.{Gathered};

    ghost Value = { Gathered W };

    ghost view = { λ b. record { writer = b.writer; waiting = take b.count b.room.items } };

    ghost invariant = { λ b. (length b.room.items ≡ 65536) × (b.count ≤ 65536) };
}

impl<W: Write> Buffered<W> {
    ghost use Rattle.std.specs.Prelude.{◌≡◌, ◌≤◌, ◌+◌, ◌++◌, [], IfErr, IfOk, OnOk, is_ok, length};
    ghost use Rattle.std.specs.Io.KnownBytes.{Keeps, WriteAppends, append_known};
    ghost use Rattle.rb_io.specs.Gathered.{HandsOn};

    /// Returns an empty buffer over the writer. Fails if memory for the buffer can't be allocated.
    pub fn new(alloc: Global, writer: W) -> Result<Buffered<W>, AllocError>
    where
        W: Drop,
        ensures writer { IfOk result (λ b. b.writer ≡ writer) }
        ensures empty { IfOk result (λ b. b.waiting ≡ []) }
    {
        match Buffered::over(alloc, writer) {
            Ok(buffered) => Ok(buffered),
            Err(_) => Err(AllocError),
        }
    }

    /// Returns an empty buffer over the writer, or the writer itself if memory for the buffer can't be allocated.
    pub fn over(alloc: Global, writer: W) -> Result<Buffered<W>, W>
        ensures writer { IfOk result (λ b. b.writer ≡ writer) }
        ensures empty { IfOk result (λ b. b.waiting ≡ []) }
        ensures given_back { IfErr result (λ same. same ≡ writer) }
    {
        let mut room = Vec::new(alloc);
        match room.resize(CAPACITY, 0) {
            Ok(()) => Ok(Buffered {
                writer,
                room,
                count: 0,
            }),
            Err(_) => Err(writer),
        }
    }

    /// Returns the underlying writer. The waiting bytes are lost.
    pub fn into_writer(self) -> W
        ensures { result ≡ self.writer }
    {
        let Buffered {
            writer,
            room: _,
            count: _,
        } = self;
        writer
    }

    // Writes the waiting bytes, until a write fails or accepts nothing.
    fn write_waiting(&mut self) -> io::Result<()>
        ensures bytes { Keeps (append_known (W.contents self.old.writer) self.old.waiting) (append_known (W.contents self.new.writer) self.new.waiting) }
        ensures empty { OnOk result (self.new.waiting ≡ []) }
        ensures handed_on { HandsOn W.contents self.old (is_ok result) self.new }
    {
        let sent = write_out(&mut self.writer, &self.room[..self.count]);
        if sent == self.count {
            self.count = 0;
            return Ok(());
        }
        self.room.copy_within(sent..self.count, 0);
        self.count -= sent;
        Err(Error::from(ErrorKind::WriteZero))
    }

    // Appends a piece to the waiting bytes.
    #[inline(always)]
    fn put(&mut self, piece: &[u8])
        requires room { length self.old.waiting + length piece.now ≤ CAPACITY }
        ensures waits { self.new.waiting ≡ self.old.waiting ++ piece.now }
        ensures writer { self.new.writer ≡ self.old.writer }
    {
        let end = self.count + piece.len();
        self.room[self.count..end].copy_from_slice(piece);
        self.count = end;
    }

    // Writes a piece for which the buffer has no room. The error is that of an underlying write.
    #[cold]
    #[inline(never)]
    fn write_without_room(&mut self, piece: &[u8]) -> Result<usize, DeviceFault>
        ensures bound { IfOk result (λ n. n ≤ length piece.now) }
        ensures bytes { WriteAppends (append_known (W.contents self.old.writer) self.old.waiting) (append_known (W.contents self.new.writer) self.new.waiting) result piece.now }
    {
        if self.write_waiting().is_err() {
            return Err(DeviceFault);
        }
        if piece.len() > CAPACITY {
            return match self.writer.write(piece) {
                Ok(n) => Ok(n),
                Err(_) => Err(DeviceFault),
            };
        }
        self.put(piece);
        Ok(piece.len())
    }
}

impl<W: Write> Write for Buffered<W> {
    ghost use Rattle.std.specs.Io.KnownBytes.{append_known};

    ghost contents = { λ b. append_known (W.contents b.writer) b.waiting };

    #[inline(always)]
    fn write(&mut self, piece: &[u8]) -> io::Result<usize> {
        if piece.len() > CAPACITY - self.count {
            return match self.write_without_room(piece) {
                Ok(n) => Ok(n),
                Err(DeviceFault) => Err(Error::from(ErrorKind::WriteZero)),
            };
        }
        self.put(piece);
        Ok(piece.len())
    }

    fn flush(&mut self) -> io::Result<()> {
        self.write_out()
    }
}

impl<W: Write> Outgoing for Buffered<W> {
    ghost use Rattle.std.specs.Prelude.{refl};
    ghost use Rattle.rb_io.specs.Gathered.{HandsOn};

    ghost went = { λ b. W.contents b.writer };

    ghost waiting = { λ b. b.waiting };

    ghost writes_out = { HandsOn W.contents };

    ghost contents_are = { λ b. refl };

    fn write_out(&mut self) -> io::Result<()> {
        self.write_waiting()?;
        self.writer.flush()
    }
}
