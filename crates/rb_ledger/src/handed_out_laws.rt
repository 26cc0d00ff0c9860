//! Laws of what a seat knows about the chapters that were handed out.

ghost use Rattle.rb_ledger.specs.HandedOut.{HandedOutIsKnown, HandingOutMakesRoom};

/// States that a seat knows of the chapters that its ring handed out before the last entry that the seat saw. So if
/// handing them out left room for a grant's entries, a reserve for which the ring has room is granted: it does not
/// report that the chapter is full.
///
/// The function does nothing; its contract is the law.
pub fn handing_out_makes_room()
    ensures known { HandedOutIsKnown }
    ensures room { HandingOutMakesRoom }
{}
