//! A sink that writes a tape.

use crate::tape_watch::TapeWatch;
use rb_chapter_ring::Chapter;
use rb_io::Outgoing;
use rb_tape::{Item, TapeWriter};
use rb_workers::Sink;
use std::io::Write;
use std::marker::Model;

/// Writes its records as a tape, in order. The first write that fails or writes nothing ends the tape; everything after
/// it is discarded. Each record takes a few writes, so use a buffered writer.
///
/// Whenever the ring's consumer has caught up or handed a chapter out, the sink makes the writer flush, until that
/// fails once. After each success it calls the watch.
#[derive(Drop)]
pub struct TapeSink<'w, W, G> {
    tape: TapeWriter<W>,
    size: u64,
    position: u64,
    failed: bool,
    // Whether the writer failed to flush.
    stalled: bool,
    watch: &'w G,
}

impl<'w, W, G> Model for TapeSink<'w, W, G> {
    ghost use Rattle.std.specs.Prelude.{◌≡◌, None, false};
    ghost use Rattle.rb_history.specs.RingModel.{IsRingSize};
    ghost use Rattle.rb_run_commands.specs.TapedRun.{SinkTape};

    ghost Value = { SinkTape W };

    ghost view = { λ t. record { writer = t.tape.writer; size = t.size; position = t.position; failed = t.failed; stalled = t.stalled } };

    ghost invariant = { λ t. IsRingSize t.size × (t.tape.size ≡ t.size) × (t.failed ≡ false → (t.tape.position ≡ t.position) × (t.tape.unfinished ≡ None)) };
}

impl<'w, W: Write, G> TapeSink<'w, W, G> {
    ghost use Rattle.std.specs.Prelude.{◌≡◌, false};
    ghost use Rattle.rb_history.specs.RingModel.{IsRingSize, IsStartPosition};

    /// A tape of a ring of `size` bytes whose first record is at `start`. Nothing is written yet.
    pub fn new(writer: W, size: u64, start: u64, watch: &'w G) -> TapeSink<'w, W, G>
        requires size { IsRingSize size }
        requires start { IsStartPosition start }
        ensures value { result ≡ record { writer = writer; size = size; position = start; failed = false; stalled = false } }
    {
        TapeSink {
            tape: TapeWriter::new(writer, size, start),
            size,
            position: start,
            failed: false,
            stalled: false,
            watch,
        }
    }

    /// Whether the tape ended with a record that was not written whole.
    pub fn failed(&self) -> bool
        ensures value { result ≡ self.now.failed }
    {
        self.failed
    }

    /// Returns the writer, with what was written to it.
    pub fn into_writer(self) -> W
        ensures value { result ≡ self.entry.writer }
    {
        self.tape.into_writer()
    }
}

impl<'w, W: Outgoing, G: TapeWatch> TapeSink<'w, W, G> {
    ghost use Rattle.std.specs.Prelude.{◌≡◌};
    ghost use Rattle.std.specs.Io.KnownBytes.{Keeps};
    ghost use Rattle.rb_run_commands.specs.TapedRun.{WritesOut};

    // Makes the writer flush, unless the tape ended or a flush failed before, and calls the watch on success.
    fn write_out(&mut self, caught_up: bool)
        ensures bytes { Keeps (W.contents self.old.writer) (W.contents self.new.writer) }
        ensures size { self.new.size ≡ self.old.size }
        ensures position { self.new.position ≡ self.old.position }
        ensures failed { self.new.failed ≡ self.old.failed }
        ensures called { WritesOut W.writes_out self.old self.new }
    {
        if self.failed || self.stalled {
            return;
        }
        self.stalled = self.tape.write_out().is_err();
        if !self.stalled {
            self.watch.written_out(self.position, self.size, caught_up);
        }
    }
}

impl<'w, W: Outgoing, G: TapeWatch> Sink for TapeSink<'w, W, G> {
    ghost use Rattle.rb_run_commands.specs.TapedRun.{tape_position, tape_takes};

    ghost position_of = { tape_position };

    ghost takes = { tape_takes W.contents W.writes_out };

    fn position(&self) -> u64 {
        self.position
    }

    // A record as long as the ring ends the tape as well. No ring grants one.
    fn record(&mut self, item: &Item<'_>) {
        let span = item.span();
        self.position += span;
        if self.failed {
            return;
        }
        if span >= self.size {
            self.failed = true;
            return;
        }
        self.failed = self.tape.put(item).is_err();
    }

    fn chapter(&mut self, _chapter: &Chapter) {
        self.write_out(false);
    }

    fn caught_up(&mut self) {
        self.write_out(true);
    }
}
