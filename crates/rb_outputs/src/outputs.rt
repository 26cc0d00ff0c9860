//! The outputs for the records of rings.

ghost use Rattle.rb_outputs.specs.Outputs.{EndsSegments};

use crate::stream_output::StreamOutput;
use rb_chapter_ring::Chapter;
use rb_io::Outgoing;
use rb_segments::{SegmentStore, SegmentWriter};
use rb_tape::Item;
use rb_workers::{NullSink, Sink};

/// The output for the records of a ring: a tape or lines on one of two kinds of writers, a tape in segments, or none.
#[derive(Drop)]
pub enum RingOutput<'w, A, B, S: SegmentStore<F>, F: Outgoing + Drop> {
    /// On a stream, such as standard output.
    Stream(StreamOutput<'w, A>),
    /// In a file.
    File(StreamOutput<'w, B>),
    /// A tape in segments.
    Segments(SegmentWriter<S, F>),
    /// The records are counted and dropped.
    Nowhere(NullSink),
}

/// Where a ring's tape begins and ends, and what the ring's output received.
#[derive(Clone, Copy, Default)]
pub struct OutputTotals {
    /// The number of submitted records.
    pub consumed: u64,
    /// The number of discarded records.
    pub discarded: u64,
    /// The position of the next record.
    pub position: u64,
    /// The position of the oldest record that was not deleted.
    pub oldest: u64,
    /// The number of bytes of tape that were deleted.
    pub deleted: u64,
    /// The number of records that were not written completely because of a fault.
    pub unwritten: u64,
}

/// How an output ended.
#[derive(Clone, Copy, Debug, PartialEq, Eq)]
pub enum OutputEnd {
    /// It was written completely.
    Whole,
    /// Its tape was written completely, in segments, and ends at this position.
    Segments(u64),
    /// It was not written completely.
    Failed,
}

impl<
    'w,
    A: Outgoing + Drop,
    B: Outgoing + Drop,
    S: SegmentStore<F> + Drop,
    F: Outgoing + Drop,
> RingOutput<'w, A, B, S, F> {
    ghost use Rattle.std.specs.Prelude.{◌≡◌, ◌≢◌, false};
    ghost use Rattle.rb_outputs.specs.Outputs.{EndsAt, has_failed, IsEndOf, output_position};

    /// Flushes the output, and returns whether all of it was written. A tape in segments ends in order.
    pub fn finish(self) -> OutputEnd
        ensures whole { result ≢ OutputEnd.Failed → has_failed self.entry ≡ false }
        ensures end { EndsAt (output_position self.entry) result }
        ensures reported { IsEndOf A.writes_out B.writes_out self.entry result }
    {
        match self {
            RingOutput::Stream(output) => output.finish(),
            RingOutput::File(output) => output.finish(),
            RingOutput::Segments(tape) => finish_segments(tape),
            RingOutput::Nowhere(_) => OutputEnd::Whole,
        }
    }
}

impl<'w, A: Outgoing, B: Outgoing, S: SegmentStore<F>, F: Outgoing + Drop> RingOutput<
    'w,
    A,
    B,
    S,
    F,
> {
    /// Returns where the tape begins and ends, and what was deleted and not written. The records are not counted.
    pub(crate) fn totals(&self) -> OutputTotals {
        let mut totals = OutputTotals::default();
        totals.position = self.position();
        if let RingOutput::Segments(tape) = self {
            totals.oldest = tape.oldest();
            totals.deleted = tape.oldest().saturating_sub(tape.first());
            totals.unwritten = tape.unwritten();
        }
        totals
    }
}

// Ends the tape in order, and returns where it ends if all of it was written.
#[tactic(auto, using(crate::proofs::Segmented::no_fault))]
fn finish_segments<S: SegmentStore<F> + Drop, F: Outgoing + Drop>(
    tape: SegmentWriter<S, F>,
) -> OutputEnd
    ensures ends { EndsSegments tape result }
{
    let position = tape.position();
    match tape.finish() {
        (_, Some(_)) => OutputEnd::Failed,
        (_, None) => OutputEnd::Segments(position),
    }
}

impl<'w, A: Outgoing, B: Outgoing, S: SegmentStore<F>, F: Outgoing + Drop> Sink
    for RingOutput<'w, A, B, S, F> {
    ghost use Rattle.rb_outputs.specs.Outputs.{output_position, output_takes};

    ghost position_of = { output_position };

    ghost takes = { output_takes A.contents A.writes_out B.contents B.writes_out S.segments F.contents };

    fn position(&self) -> u64 {
        match self {
            RingOutput::Stream(output) => output.position(),
            RingOutput::File(output) => output.position(),
            RingOutput::Segments(tape) => tape.position(),
            RingOutput::Nowhere(sink) => sink.position(),
        }
    }

    fn record(&mut self, item: &Item<'_>) {
        match self {
            RingOutput::Stream(output) => output.record(item),
            RingOutput::File(output) => output.record(item),
            RingOutput::Segments(tape) => tape.put(item),
            RingOutput::Nowhere(sink) => sink.record(item),
        }
    }

    fn chapter(&mut self, chapter: &Chapter) {
        match self {
            RingOutput::Stream(output) => output.chapter(chapter),
            RingOutput::File(output) => output.chapter(chapter),
            RingOutput::Segments(tape) => tape.write_out(),
            RingOutput::Nowhere(sink) => sink.chapter(chapter),
        }
    }

    fn caught_up(&mut self) {
        match self {
            RingOutput::Stream(output) => output.caught_up(),
            RingOutput::File(output) => output.caught_up(),
            RingOutput::Segments(tape) => tape.write_out(),
            RingOutput::Nowhere(sink) => sink.caught_up(),
        }
    }
}
