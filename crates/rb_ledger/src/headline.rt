//! The crate's main theorem, which specs/Headline.antt states in words.

ghost use Rattle.rb_ledger.specs.Headline.{WheneverFree, OnceGathered};

/// States that whenever the lock is free, the history under it is one run of the ring of one thread; and that once all
/// seats are gathered, its records are those that the seats made, sent and took.
///
/// The first clause is about every moment at which the state is in the lock; it follows from the lock's rule, which
/// each call preserves. The second follows from what `SharedRing::close` promises if it returns Ok. No proof says that
/// a call returns, that a thread gets its turn, or how long anything takes.
pub fn headline_holds()
    ensures whenever_free { WheneverFree }
    ensures once_gathered { OnceGathered }
{}
