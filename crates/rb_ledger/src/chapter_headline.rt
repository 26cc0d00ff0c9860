//! The main theorem of a ring with chapters that threads share, which specs/ChapterHeadline.antt states in words.

ghost use Rattle.rb_ledger.specs.ChapterClosing.{ClosedWhereGathered};
ghost use Rattle.rb_ledger.specs.ChapterHeadline.{WheneverFreeByChapter, GatheredOnceBound};

/// States that whenever the lock is free, the chapter under it is legal from its opening, as one thread's run that
/// continues the chapters that were handed out, and the ring's state agrees with it; and that once all seats, the
/// consumer and the chapters that the ring handed out are gathered and bound, the history's records are those that the
/// seats made, sent and took.
///
/// The first clause is about every moment at which the state is in the lock; it follows from the lock's rule, which
/// each step preserves. The second describes the state that a pass with all roles took out, and the third follows from
/// that and from what binding promises. No proof says that a call returns, that a thread gets its turn, or how long
/// anything takes.
///
/// The function does nothing; its contract is the law.
pub fn chapter_headline_holds()
    ensures whenever_free { WheneverFreeByChapter }
    ensures closed { ClosedWhereGathered }
    ensures once_bound { GatheredOnceBound }
{}
