//! Sinks, which receive records and chapters.

ghost use Rattle.std.specs.Prelude.{◌≡◌, ◌+◌, ◌<◌, ◌≤◌, ◌^◌, ℕ};
ghost use Rattle.rb_history.specs.TapeBytes.{item_len, item_position, item_span};
ghost use Rattle.rb_tape.specs.Items.{item_of, item_taken};
ghost use Rattle.rb_workers.specs.Sink.{SinkItem};
ghost use Rattle.rb_workers.specs.Sink.SinkItem.{CaughtUp, Chapter as ChapterItem, Record as RecordItem};

use rb_chapter_ring::Chapter;
use rb_tape::Item;

/// A sink receives a ring's records from its consumer, one by one and in the order of their positions, and each chapter
/// that the ring hands out. It has a position, which advances with the consumer's.
pub trait Sink {
    ghost position_of: { Self → ℕ };

    /// The effect of one item on a sink. With it, callers who run jobs know which items each sink was given, and in
    /// which order.
    ghost takes: { Self → SinkItem → Self → Type 0 };

    /// Returns the position of the next record.
    fn position(&self) -> u64
        ensures position { result ≡ position_of self.now };

    /// Receives the record at the sink's position: an event, or a discarded record that was skipped.
    fn record(&mut self, item: &Item<'_>)
        requires next { item_position (item_of item.now) ≡ position_of self.old }
        requires len { item_len (item_of item.now) < 2 ^ 32 }
        requires end { position_of self.old + item_span (item_of item.now) ≤ 2 ^ 62 }
        ensures moved { position_of self.new ≡ position_of self.old + item_span (item_of item.now) }
        ensures took { takes self.old (RecordItem (item_taken item.now)) self.new };

    /// Receives a chapter that the ring handed out, as a whole; it is cleared and reused after the call. The chapters
    /// come in the order of their numbers. Together with the last one, which the closed ring has, they bind to the
    /// ring's whole history.
    fn chapter(&mut self, chapter: &Chapter)
        ensures stays { position_of self.new ≡ position_of self.old }
        ensures took { takes self.old (ChapterItem chapter.now) self.new };

    /// Is called after each batch of records that is not full, that is, when the ring's consumer has taken all that it
    /// could: the ring was empty, or its first record busy.
    ///
    /// No record is given and the position does not change, so a sink that buffers its output can flush here. It may be
    /// called again before the next record.
    fn caught_up(&mut self)
        ensures stays { position_of self.new ≡ position_of self.old }
        ensures took { takes self.old CaughtUp self.new };
}
