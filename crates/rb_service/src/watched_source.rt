//! A source that is watched.

use crate::watch::SourceWatch;
use rb_source::{ContextCounts, Filled, FramedReader, Piece, Source, SourceFault};
use std::io::Read;

/// Gives the contexts of a reader, and reports their counts after each piece.
#[derive(Drop)]
pub(crate) struct WatchedSource<'w, R, M> {
    source: FramedReader<R>,
    watch: &'w M,
}

impl<'w, R: Read, M: SourceWatch> WatchedSource<'w, R, M> {
    ghost use Rattle.std.specs.Prelude.{◌≡◌};

    /// Returns a source that gives the contexts of this one.
    pub(crate) fn new(source: FramedReader<R>, watch: &'w M) -> WatchedSource<'w, R, M>
        ensures source { result.source ≡ source }
    {
        WatchedSource { source, watch }
    }

    /// Returns the counts of the contexts so far.
    pub(crate) fn counts(&self) -> ContextCounts
        ensures value { result ≡ self.now.source.counts }
    {
        self.source.counts()
    }
}

impl<'w, R: Read, M: SourceWatch> Source for WatchedSource<'w, R, M> {
    ghost use Rattle.std.specs.Prelude.{◌≡◌, true};
    ghost use Rattle.rb_source.specs.Form.{form_len};
    ghost use Rattle.rb_source.specs.Stream.{FailsAs, Gives};
    ghost use Rattle.rb_source.specs.StreamLaws.{gives_nothing, gives_both};

    ghost ctx_len_of = { λ s. form_len s.source.form };

    ghost gives = { λ old contexts new. Gives R.remaining old.source contexts new.source };

    ghost is_over = { λ s. s.source.over ≡ true };

    ghost fails = { λ s. FailsAs R.remaining s.source };

    ghost gives_nothing = { λ s. gives_nothing R.remaining s.source };

    ghost gives_both = { λ a b c. gives_both R.remaining a.source b.source c.source };

    fn ctx_len(&self) -> u32 {
        self.source.ctx_len()
    }

    fn fill(&mut self, piece: &mut Piece) -> Result<Filled, SourceFault> {
        let filled = self.source.fill(piece);
        self.watch.read(self.source.counts());
        filled
    }
}
