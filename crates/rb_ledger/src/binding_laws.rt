//! Laws of a ring that was closed and bound, each the contract of a function that does nothing.

ghost use Rattle.rb_ledger.specs.ChapterHeadline.{BindsWhereItMay, HandedOutBind, TiedOnceBound};

/// States that chapters which are legal, as each `Chapter` is, may be bound if and only if they are those of a ring;
/// the chapters that a ring handed out are. The function does nothing; its contract is the law.
pub fn chapters_may_be_bound()
    ensures exact { BindsWhereItMay }
    ensures handed_out { HandedOutBind }
{}

/// States that all seats agree with the history once all were gathered at a ring and it was bound, whatever the
/// chapters. The function does nothing; its contract is the law.
pub fn seats_tie_once_bound()
    ensures law { TiedOnceBound }
{}
