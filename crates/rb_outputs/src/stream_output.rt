//! The outputs on a stream or in a file.

ghost use Rattle.rb_outputs.specs.Outputs.{EndsFlushed};

use crate::line_sink::LineSink;
use crate::outputs::OutputEnd;
use rb_chapter_ring::Chapter;
use rb_io::Outgoing;
use rb_run_commands::TapeSink;
use rb_tape::Item;
use rb_workers::{OpenGate, Sink};

/// The output of a ring's records on one writer.
#[derive(Drop)]
pub enum StreamOutput<'w, W> {
    /// The records as a tape.
    Tape(TapeSink<'w, W, OpenGate>),
    /// The records as lines.
    Lines(LineSink<W>),
}

impl<'w, W: Outgoing + Drop> StreamOutput<'w, W> {
    ghost use Rattle.rb_outputs.specs.Outputs.{EndsFlushed, stream_failed, stream_writer};

    /// Flushes the output, and returns whether all of it was written.
    pub(crate) fn finish(self) -> OutputEnd
        ensures flushed { EndsFlushed W.writes_out (stream_writer self.entry) (stream_failed self.entry) result }
    {
        match self {
            StreamOutput::Tape(tape) => {
                let failed = tape.failed();
                finish_writer(tape.into_writer(), failed)
            }
            StreamOutput::Lines(lines) => {
                let failed = lines.failed();
                finish_writer(lines.into_writer(), failed)
            }
        }
    }
}

// Flushes the writer, and returns whether all of an output was written to it. If the output `failed`, some of it is
// missing.
fn finish_writer<W: Outgoing + Drop>(mut writer: W, failed: bool) -> OutputEnd
    ensures flushed { EndsFlushed W.writes_out writer failed result }
{
    if writer.write_out().is_ok() && !failed {
        OutputEnd::Whole
    } else {
        OutputEnd::Failed
    }
}

impl<'w, W: Outgoing> Sink for StreamOutput<'w, W> {
    ghost use Rattle.rb_outputs.specs.Outputs.{stream_position, stream_takes};

    ghost position_of = { stream_position };

    ghost takes = { stream_takes W.contents W.writes_out };

    fn position(&self) -> u64 {
        match self {
            StreamOutput::Tape(tape) => tape.position(),
            StreamOutput::Lines(lines) => lines.position(),
        }
    }

    fn record(&mut self, item: &Item<'_>) {
        match self {
            StreamOutput::Tape(tape) => tape.record(item),
            StreamOutput::Lines(lines) => lines.record(item),
        }
    }

    fn chapter(&mut self, chapter: &Chapter) {
        match self {
            StreamOutput::Tape(tape) => tape.chapter(chapter),
            StreamOutput::Lines(lines) => lines.chapter(chapter),
        }
    }

    fn caught_up(&mut self) {
        match self {
            StreamOutput::Tape(tape) => tape.caught_up(),
            StreamOutput::Lines(lines) => lines.caught_up(),
        }
    }
}
