//! Laws of the lock of a ring with hands, each the contract of a function that does nothing.

ghost use Rattle.rb_ledger.specs.HandLockLaws.{HandsHoldAtFirst, HandsAreAwayWhereOut, HandsKeptWhereJoined, HandsKeptWhereOpened, HandsKeptWherePutBack, HandsKeptWhereSplit, HandsKeptWhereTakenOut, OneHandLeavesOthers};

/// States that each step of each thread at the lock preserves its rule with hands, from the first one on, and that a
/// change of one worker's hand, as a call makes it, leaves the hands of all others unchanged.
///
/// The function does nothing; its contract is the law.
pub fn hand_lock_rule_is_kept()
    ensures first { HandsHoldAtFirst }
    ensures opened { HandsKeptWhereOpened }
    ensures taken_out { HandsKeptWhereTakenOut }
    ensures put_back { HandsKeptWherePutBack }
    ensures away { HandsAreAwayWhereOut }
    ensures split { HandsKeptWhereSplit }
    ensures joined { HandsKeptWhereJoined }
    ensures others { OneHandLeavesOthers }
{}
