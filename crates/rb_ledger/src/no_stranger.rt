//! No stranger, which specs/NoStranger.antt states in words.

ghost use Rattle.rb_ledger.specs.NoStranger.{HandsAreSeen, HeldUntilGivenBack, NoStranger, OwnBusyIsSeen, SeenHandsAreBusy, StaysShown, TakenAsShown};

/// States that a record which was granted at a seat is held until that seat submits or discards it: its submit and its
/// discard are not refused, whatever other threads have done since, and every other call of the seat leaves it
/// unchanged. The function does nothing; its contract is the law.
pub fn seats_hold_what_they_granted()
    ensures law { HeldUntilGivenBack }
{}

/// States that what a seat's hand shows is busy on the ring, and in the ring's book, at every moment and wherever the
/// ring's state is; that a state which is taken out meets the precondition of its submit and its discard; and that what
/// a call leaves in a hand is still shown. The function does nothing; its contract is the law.
pub fn no_reservation_is_a_stranger()
    ensures at_every_moment { NoStranger }
    ensures where_taken_out { TakenAsShown }
    ensures once_put_back { StaysShown }
{}

/// States that a worker's hands in the ring's book hold exactly its busy records in the history that its seat has seen,
/// and that these remain busy at every later point. The function does nothing; its contract is the law.
pub fn hands_are_what_was_seen()
    ensures own_busy { OwnBusyIsSeen }
    ensures hands { HandsAreSeen }
    ensures later { SeenHandsAreBusy }
{}
