//! An output that is watched.

use crate::outputs::{OutputEnd, OutputTotals, RingOutput};
use rb_chapter_ring::Chapter;
use rb_io::Outgoing;
use rb_segments::SegmentStore;
use rb_tape::Item;
use rb_workers::Sink;

/// Receives what outputs received.
pub trait OutputWatch {
    /// Receives the totals of the output of the ring with this number: at each chapter, and whenever the ring's consumer
    /// has caught up.
    fn taken(&self, ring: usize, totals: OutputTotals);
}

/// The output of a ring, with a watch that receives its totals.
#[derive(Drop)]
pub struct WatchedOutput<'w, A, B, S: SegmentStore<F>, F: Outgoing + Drop, M> {
    /// The output.
    pub output: RingOutput<'w, A, B, S, F>,
    watch: &'w M,
    // The number of the ring.
    ring: usize,
    // The submitted and the discarded records so far.
    consumed: u64,
    discarded: u64,
}

impl<
    'w,
    A: Outgoing + Drop,
    B: Outgoing + Drop,
    S: SegmentStore<F> + Drop,
    F: Outgoing + Drop,
    M: OutputWatch,
> WatchedOutput<'w, A, B, S, F, M> {
    ghost use Rattle.std.specs.Prelude.{◌≡◌, ◌≢◌, false};
    ghost use Rattle.rb_outputs.specs.Outputs.{EndsAt, has_failed, IsEndOf, output_position};

    /// Returns the output of the ring with this number, watched.
    pub fn new(
        inner: RingOutput<'w, A, B, S, F>,
        ring: usize,
        watch: &'w M,
    ) -> WatchedOutput<'w, A, B, S, F, M>
        ensures output { result.output ≡ inner.entry }
    {
        WatchedOutput {
            output: inner,
            watch,
            ring,
            consumed: 0,
            discarded: 0,
        }
    }

    /// Flushes the output, and returns whether all of it was written. The watch receives the totals.
    pub fn finish(self) -> OutputEnd
        ensures whole { result ≢ OutputEnd.Failed → has_failed self.entry.output ≡ false }
        ensures end { EndsAt (output_position self.entry.output) result }
        ensures reported { IsEndOf A.writes_out B.writes_out self.entry.output result }
    {
        let WatchedOutput {
            output,
            watch,
            ring,
            consumed,
            discarded,
        } = self;
        let totals = OutputTotals {
            consumed,
            discarded,
            ..output.totals()
        };
        watch.taken(ring, totals);
        output.finish()
    }
}

impl<
    'w,
    A: Outgoing,
    B: Outgoing,
    S: SegmentStore<F>,
    F: Outgoing + Drop,
    M: OutputWatch,
> WatchedOutput<'w, A, B, S, F, M> {
    // Reports the totals.
    fn report(&self) {
        let totals = OutputTotals {
            consumed: self.consumed,
            discarded: self.discarded,
            ..self.output.totals()
        };
        self.watch.taken(self.ring, totals);
    }
}

impl<'w, A: Outgoing, B: Outgoing, S: SegmentStore<F>, F: Outgoing + Drop, M: OutputWatch> Sink
    for WatchedOutput<'w, A, B, S, F, M> {
    ghost use Rattle.rb_outputs.specs.Outputs.{output_position, output_takes};

    ghost position_of = { λ w. output_position w.output };

    ghost takes = { λ old item new. output_takes A.contents A.writes_out B.contents B.writes_out S.segments F.contents old.output item new.output };

    fn position(&self) -> u64 {
        self.output.position()
    }

    fn record(&mut self, item: &Item<'_>) {
        match item {
            Item::Event(_) => self.consumed = self.consumed.saturating_add(1),
            _ => self.discarded = self.discarded.saturating_add(1),
        }
        self.output.record(item);
    }

    fn chapter(&mut self, chapter: &Chapter) {
        self.output.chapter(chapter);
        self.report();
    }

    fn caught_up(&mut self) {
        self.output.caught_up();
        self.report();
    }
}
