//! Laws of chapters, each the contract of a function that does nothing.

ghost use Rattle.rb_chapter_ring.specs.WholeHistory.{CountedFromOpening, ChaptersJoin, OnceBound, EntriesKeepRoom, NextHasRoom, CallsKeepChapters, StandsAlike, CallsAlike};

/// States that what is counted from an opening agrees with the whole history, if the opening is the summary of a legal
/// history; and that entries are legal from the opening if and only if they are legal after that history. The function
/// does nothing; its contract is the law.
pub fn counted_from_the_opening()
    ensures law { CountedFromOpening }
{}

/// States that chapters which begin with number 0 and the empty ring, each of which is legal and meets the next, join
/// to a legal history, whose summary is the one at the end of the last chapter: for the first chapter and the rest
/// (`joins`), and for the chapters that were handed out and the last one (`binds`). The function does nothing; its
/// contract is the law.
pub fn chapters_join()
    ensures joins { ChaptersJoin }
    ensures binds { OnceBound }
{}

/// States that after a lawful entry a chapter has room for everything that its records will log if and only if it had
/// room for the entry, and that a chapter which succeeds one with that room has it too. Each call of a ring leaves a
/// chapter with that room that is legal from its opening. The function does nothing; its contract is the law.
pub fn room_is_kept()
    ensures entries { EntriesKeepRoom }
    ensures next { NextHasRoom }
    ensures calls { CallsKeepChapters }
{}

/// States that a ring's state agrees with its chapter if and only if it agrees with its whole history, and that each of
/// its calls is the call over that history. The function does nothing; its contract is the law.
pub fn calls_are_alike()
    ensures stands { StandsAlike }
    ensures calls { CallsAlike }
{}
