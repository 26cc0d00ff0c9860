//! A sink that writes lines.

ghost use Rattle.std.specs.Prelude.{◌≡◌, ◌<◌, ◌^◌};
ghost use Rattle.rb_history.specs.TapeBytes.{item_len};
ghost use Rattle.rb_tape.specs.Items.{item_of};
ghost use Rattle.rb_tape.specs.TapeReading.{HasItsLength, item_read};
ghost use Rattle.rb_tape_commands.specs.TapeText.{tape_object};
ghost use Rattle.rb_outputs.specs.inner.LineWriting.{WritesLine};

use rb_chapter_ring::Chapter;
use rb_io::{DeviceFault, Outgoing, write_out};
use rb_tape::{Item, Record};
use rb_tape_commands::record_object;
use rb_workers::Sink;
use std::alloc::Global;
use std::io::Write;
use std::marker::Model;

/// Writes its records as lines, in order: for each one the JSON object that `tape --json` prints for it on a tape, also
/// if it was discarded. The first write that fails or writes nothing ends the lines, and so does a line for which memory
/// can't be allocated; everything after it is discarded. Use a buffered writer.
///
/// Whenever the ring's consumer has caught up or handed a chapter out, the sink makes the writer flush, until that fails
/// once.
#[derive(Drop)]
pub struct LineSink<W> {
    alloc: Global,
    writer: W,
    // The position of the next record.
    position: u64,
    // Whether a line was not written whole.
    failed: bool,
    // Whether the writer failed to flush.
    stalled: bool,
}

impl<W> Model for LineSink<W> {
    ghost use Rattle.rb_outputs.specs.Lines.{SinkLines};

    ghost Value = { SinkLines W };

    ghost view = { λ l. record { writer = l.writer; position = l.position; failed = l.failed; stalled = l.stalled } };
}

impl<W> LineSink<W> {
    ghost use Rattle.std.specs.Prelude.{◌≡◌, false};

    /// Returns the lines of the records from position `start` on. Nothing is written yet.
    pub fn new(alloc: Global, writer: W, start: u64) -> LineSink<W>
        ensures value { result ≡ record { writer = writer; position = start; failed = false; stalled = false } }
    {
        LineSink {
            alloc,
            writer,
            position: start,
            failed: false,
            stalled: false,
        }
    }

    /// Whether the lines ended with one that was not written whole.
    pub fn failed(&self) -> bool
        ensures value { result ≡ self.now.failed }
    {
        self.failed
    }
}

impl<W: Drop> LineSink<W> {
    ghost use Rattle.std.specs.Prelude.{◌≡◌};

    /// Returns the writer, with what was written to it.
    pub fn into_writer(self) -> W
        ensures value { result ≡ self.writer }
    {
        self.writer
    }
}

impl<W: Outgoing> LineSink<W> {
    ghost use Rattle.std.specs.Prelude.{◌≡◌};
    ghost use Rattle.std.specs.Io.KnownBytes.{Keeps};
    ghost use Rattle.rb_outputs.specs.Lines.{FlushesLines};

    // Makes the writer flush, unless the lines ended or a flush failed before.
    fn write_out(&mut self)
        ensures bytes { Keeps (W.contents self.old.writer) (W.contents self.new.writer) }
        ensures position { self.new.position ≡ self.old.position }
        ensures failed { self.new.failed ≡ self.old.failed }
        ensures called { FlushesLines W.writes_out self.old self.new }
    {
        if self.failed || self.stalled {
            return;
        }
        self.stalled = self.writer.write_out().is_err();
    }
}

// Returns the record as a reader finds it on a tape.
fn record_of<'a>(item: &Item<'a>) -> Record<'a>
    requires len { item_len (item_of item.now) < 2 ^ 32 }
    ensures record { item_read result ≡ item_of item.now }
    ensures length { HasItsLength result }
{
    match item {
        Item::Event(event) => Record {
            pos: event.pos,
            len: event.bytes.len() as u32,
            discarded: false,
            bytes: event.bytes,
        },
        Item::Skip(pos, len) => Record {
            pos: *pos,
            len: *len,
            discarded: true,
            bytes: &[],
        },
    }
}

// Writes the line of a record.
fn write_line<W: Write>(alloc: Global, writer: &mut W, item: &Item<'_>) -> Result<(), DeviceFault>
    requires len { item_len (item_of item.now) < 2 ^ 32 }
    ensures line { WritesLine (W.contents writer.old) (W.contents writer.new) (tape_object (item_of item.now)) result }
{
    let Ok(line) = record_object(alloc, &record_of(item)) else {
        return Err(DeviceFault);
    };
    write_piece(writer, line.as_slice())
}

// Writes a piece, or a part of it before a write that fails.
fn write_piece<W: Write>(writer: &mut W, piece: &[u8]) -> Result<(), DeviceFault>
    ensures piece { WritesLine (W.contents writer.old) (W.contents writer.new) piece.now result }
{
    if write_out(writer, piece) < piece.len() {
        return Err(DeviceFault);
    }
    Ok(())
}

impl<W: Outgoing> Sink for LineSink<W> {
    ghost use Rattle.rb_outputs.specs.Lines.{lines_position, lines_take};

    ghost position_of = { lines_position };

    ghost takes = { lines_take W.contents W.writes_out };

    fn position(&self) -> u64 {
        self.position
    }

    fn record(&mut self, item: &Item<'_>) {
        let span = item.span();
        self.position += span;
        if self.failed {
            return;
        }
        self.failed = write_line(self.alloc, &mut self.writer, item).is_err();
    }

    fn chapter(&mut self, _chapter: &Chapter) {
        self.write_out();
    }

    fn caught_up(&mut self) {
        self.write_out();
    }
}
