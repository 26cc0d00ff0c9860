//! The seats' counts agree with the ring's counts.

ghost use Rattle.rb_ledger.specs.Headline.{OnceClosed};

/// States how the seats' counts relate to the ring's once all seats and the consumer are gathered: each seat submitted
/// and discarded at most as many records as it was granted; what the seats submitted is consumed or waiting, what they
/// discarded is discarded, and the rest of what they made is busy. So none is busy if and only if each seat has
/// submitted or discarded everything that it made.
///
/// It is a law about what `SharedRing::close` promises, and runs no code. For a seat at an open ring, `Seat::facts`
/// states the first part.
pub fn numbers_agree()
    ensures once_closed { OnceClosed }
{}
