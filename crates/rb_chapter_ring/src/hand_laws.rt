//! Laws of hands, each the contract of a function that does nothing.

ghost use Rattle.rb_chapter_ring.specs.HandLaws.{AtMostFourBusy, BookBeginsFree, BookGoesOn, BookIsWhole, EachCallKeepsHands, InHandIsBusy, OneHandChanges};

/// States that changing one hand leaves all others unchanged, those of its worker and those of other workers. The
/// function does nothing; its contract is the law.
pub fn one_hand_changes()
    ensures law { OneHandChanges }
{}

/// States that the book of free hands is that of the empty history, that each entry of a legal history preserves the
/// book, and that a worker has at most four busy records. The function does nothing; its contract is the law.
pub fn book_goes_on()
    ensures begins { BookBeginsFree }
    ensures entries { BookGoesOn }
    ensures at_most_four { AtMostFourBusy }
{}

/// States that each call of a ring preserves its book of hands, and so does handing out a chapter; that a record in a
/// hand is busy; and that the book is that of the whole history. The function does nothing; its contract is the law.
pub fn each_call_keeps_hands()
    ensures calls { EachCallKeepsHands }
    ensures busy { InHandIsBusy }
    ensures whole { BookIsWhole }
{}
