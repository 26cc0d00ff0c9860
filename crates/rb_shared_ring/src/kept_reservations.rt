//! A law of the calls of a seat, as the contract of a function that does nothing.

ghost use Rattle.rb_shared_ring.specs.KeptReservations.{ReservationsAreKept};

/// States that the record of a reservation is in a hand of its seat, and busy, from its grant until the seat commits
/// it: its submit and its discard are accepted, and every other call of the seat leaves it there, including refused
/// ones. The law is stated over `SharedRing`'s calls by the names of their clauses.
///
/// The function does nothing; its contract is the law.
pub fn reservations_are_kept()
    ensures law { ReservationsAreKept }
{}
