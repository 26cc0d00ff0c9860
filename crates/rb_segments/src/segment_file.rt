//! The file of a segment that is being written.

use rb_io::{Buffered, Outgoing};
use std::alloc::Global;
use std::fs::OpenFile;
use std::io;
use std::io::Write;

/// A buffered file, with a second handle for syncing it.
#[derive(Drop)]
pub struct SegmentFile<F> {
    out: Buffered<F>,
    handle: F,
}

impl<F: Write + OpenFile + Drop> SegmentFile<F> {
    /// Wraps a file in an empty buffer.
    pub(crate) fn new(alloc: Global, file: F) -> io::Result<SegmentFile<F>> {
        let handle = file.try_clone()?;
        let out = Buffered::new(alloc, file)?;
        Ok(SegmentFile { out, handle })
    }

    /// Syncs the file's data to the disk. Does not flush the buffer.
    pub(crate) fn sync(&self) -> io::Result<()> {
        self.handle.sync_all()
    }
}

impl<F: Write> Write for SegmentFile<F> {
    ghost use Rattle.std.specs.Io.KnownBytes.{append_known};

    ghost contents = { λ file. append_known (F.contents file.out.writer) file.out.waiting };

    #[inline(always)]
    fn write(&mut self, piece: &[u8]) -> io::Result<usize> {
        self.out.write(piece)
    }

    fn flush(&mut self) -> io::Result<()> {
        self.out.flush()
    }
}

impl<F: Write> Outgoing for SegmentFile<F> {
    ghost use Rattle.std.specs.Prelude.{refl};
    ghost use Rattle.rb_io.specs.Gathered.{HandsOn};

    ghost went = { λ file. F.contents file.out.writer };

    ghost waiting = { λ file. file.out.waiting };

    ghost writes_out = { λ old ok new. HandsOn F.contents old.out ok new.out };

    ghost contents_are = { λ file. refl };

    fn write_out(&mut self) -> io::Result<()> {
        self.out.write_out()
    }
}
