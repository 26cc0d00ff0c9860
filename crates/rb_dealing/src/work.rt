//! The workers of lanes.

ghost use Rattle.std.specs.Prelude.{◌++◌, [], ℕ, List};

use rb_source::Piece;

/// A worker that runs contexts, in order.
pub trait Work {
    /// The precondition of running a piece.
    ghost ready: { Self → Type 0 };

    /// Running these contexts, one after another, leads from the old value of the worker to the new one.
    ghost runs: { Self → List (List ℕ) → Self → Type 0 };

    /// Runs the contexts of a piece, in order.
    fn run(&mut self, piece: &Piece)
        requires ready { ready self.old }
        ensures ready { ready self.new }
        ensures ran { runs self.old piece.now.contexts self.new };

    /// Returns whether the worker can't continue, so that the reader should stop. Nothing is assumed about the result.
    fn is_short(&self) -> bool;

    /// A worker that is not called runs nothing.
    ghost runs_none: { (w : Self) → runs w [] w };

    /// The contexts that are run first, followed by those that are run next, are those run in all.
    ghost runs_both: { (a b c : Self) (xs ys : List (List ℕ)) → runs a xs b → runs b ys c → runs a (xs ++ ys) c };
}

/// States for each `Work` that the contexts which are run first, followed by those that are run next, are those run in
/// all. The function does nothing; its contract is the law.
pub(crate) fn runs_compose<W: Work>()
    ensures law { (a b c : _) (xs ys : List (List ℕ)) → W.runs a xs b → W.runs b ys c → W.runs a (xs ++ ys) c }
{}
