//! Sources of contexts.

ghost use Rattle.std.specs.Prelude.{◌≡◌, ◌≤◌, ◌++◌, ℕ, List, [], IfErr};
ghost use Rattle.rb_source.specs.Given.{HasGiven, OnEnd};
ghost use Rattle.rb_source.specs.Piece.{empty_piece};
ghost use Rattle.rb_source.specs.declared.source.SourceFault.{SourceFault};

use crate::piece::Piece;
use thiserror::Error;

/// The result of a call of `Source::fill`.
#[derive(Clone, Copy, Debug, PartialEq, Eq)]
pub enum Filled {
    /// One or more contexts are in the piece, and more may come.
    More,
    /// The input has ended. The piece is empty, because all contexts were given before.
    End,
}

/// Why a source can't continue. All contexts before the fault were given.
#[derive(Clone, Copy, Debug, Error, PartialEq, Eq)]
pub enum SourceFault {
    /// The input can't be read.
    #[error("the input cannot be read")]
    Read,
    /// The input ends inside a context. The number counts the contexts before it, given and skipped; it saturates at
    /// `u64::MAX`.
    #[error("the input ends inside context {0}")]
    EndsInside(u64),
}

/// A source gives contexts of one length, in order, a piece at a time.
pub trait Source {
    /// The length of each context.
    ghost ctx_len_of: { Self → ℕ };

    /// The source gives these contexts, in this order, which leads from the old value to the new one.
    ghost gives: { Self → List (List ℕ) → Self → Type 0 };

    /// The input is over: all of its contexts were given.
    ghost is_over: { Self → Type 0 };

    /// The meaning of a fault for the source and its input.
    ghost fails: { Self → SourceFault → Type 0 };

    /// Returns the length of each context, in bytes: at most 65,536.
    fn ctx_len(&self) -> u32
        ensures value { result ≡ ctx_len_of self.now }
        ensures bound { result ≤ 65536 };

    /// Fills an empty piece with the next contexts.
    ///
    /// It waits for the first context. The contexts of one read of the input are returned at once, so a slow input adds
    /// no delay. At `More`, the piece holds one or more contexts. At `End` and at a fault it is empty, because all
    /// contexts before were given by earlier calls.
    fn fill(&mut self, piece: &mut Piece) -> Result<Filled, SourceFault>
        requires empty { piece.old ≡ empty_piece (ctx_len_of self.old) }
        ensures gave { gives self.old piece.new.contexts self.new }
        ensures count { HasGiven piece.new.contexts result }
        ensures piece_len { piece.new.ctx_len ≡ piece.old.ctx_len }
        ensures source_len { ctx_len_of self.new ≡ ctx_len_of self.old }
        ensures over { OnEnd result (is_over self.new) }
        ensures fault { IfErr result (fails self.new) };

    /// A source that is not called gives nothing.
    ghost gives_nothing: { (s : Self) → gives s [] s };

    /// The contexts that are given first, followed by those that are given next, are those given in all.
    ghost gives_both: { (a b c : Self) (xs ys : List (List ℕ)) → gives a xs b → gives b ys c → gives a (xs ++ ys) c };
}
