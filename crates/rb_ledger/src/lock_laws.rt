//! Laws of the lock of a ring with chapters, each the contract of a function that does nothing.

ghost use Rattle.rb_ledger.specs.ChapterLockLaws.{CallsMayPut, HandsOutMayPut, FactsMakeRing, HoldsAtFirst, KeptWhereOpened, KeptWhereTakenOut, KeptWherePutBack, IsAwayWhereOut, KeptWhereSplit, KeptWhereJoined};

/// States that each step of each thread at the lock preserves its rule, from the first one on. The function does
/// nothing; its contract is the law.
pub fn chapter_lock_rule_is_kept()
    ensures first { HoldsAtFirst }
    ensures opened { KeptWhereOpened }
    ensures taken_out { KeptWhereTakenOut }
    ensures put_back { KeptWherePutBack }
    ensures away { IsAwayWhereOut }
    ensures split { KeptWhereSplit }
    ensures joined { KeptWhereJoined }
{}

/// States that a call which is a step of its role, over the whole history, may put the state back, and that the
/// consumer may put it back after it handed out the chapter: the whole ring is then unchanged. Of the state itself,
/// only the invariants of the ring of one thread are needed. The function does nothing; its contract is the law.
pub fn state_may_be_put_back()
    ensures after_a_call { CallsMayPut }
    ensures handed_out { HandsOutMayPut }
    ensures facts { FactsMakeRing }
{}
