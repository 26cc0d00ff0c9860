//! A sink that keeps nothing.

use crate::sink::Sink;
use rb_chapter_ring::Chapter;
use rb_tape::Item;

/// A sink that drops all records and chapters, for callers who need only the counts of a run.
#[derive(Clone, Copy, Debug, Drop)]
pub struct NullSink {
    /// The position of the next record.
    pub position: u64,
}

impl Sink for NullSink {
    ghost use Rattle.std.specs.Prelude.{◌≡◌, ◌+◌, ℕ};
    ghost use Rattle.rb_workers.specs.Sink.{SinkItem, sink_span};

    ghost position_of = { λ s. s.position };

    ghost takes = { λ old item new. new.position ≡ old.position + sink_span item };

    fn position(&self) -> u64 {
        self.position
    }

    fn record(&mut self, item: &Item<'_>) {
        self.position += item.span();
    }

    fn chapter(&mut self, _chapter: &Chapter) {}

    fn caught_up(&mut self) {}
}
