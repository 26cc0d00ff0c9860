//! A law of the consumer's calls that concern a chapter, as the contract of a function that does nothing.

ghost use Rattle.rb_ledger.specs.LockedChapterCalls.{EachCallIsWhole};

/// States that asking how much of a ring's chapter is used, and handing out the chapter, changes nothing of the ring
/// with its whole history, and that the number of a chapter that is handed out is the number of chapters that were
/// handed out before. All other calls are specified over that history.
///
/// The function does nothing; its contract is the law.
pub fn each_locked_call_is_whole()
    ensures law { EachCallIsWhole }
{}
