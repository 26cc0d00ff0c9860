//! The laws about the cost of runs, and about the required size of a ring.

ghost use Rattle.rb_cost.specs.RingSize.{NoneIsRefusedBehind, RoomIsLeft};
ghost use Rattle.rb_cost.specs.RunMoments.{RunsHaveMoments};
ghost use Rattle.rb_cost.specs.Runs.{RunsStayWithin};

/// States that every run of a verified program stays within the program's cost at each of its moments, for any answers
/// to its calls: the steps and calls that it executed, the records and bytes of a ring that it requested (by reserve
/// and by output) and was granted, and those that it holds.
///
/// The function does nothing; its contract is the law.
pub fn runs_stay_within_their_cost()
    ensures { RunsStayWithin }
{}

/// States that every run of a program has moments, which `runs_stay_within_their_cost` bounds: they begin in the run's
/// first state, their calls and answers are the run's, and the last of them ends as the run does.
///
/// The function does nothing; its contract is the law.
pub fn runs_have_moments()
    ensures { RunsHaveMoments }
{}

/// States the room rule as it is used to choose a size: if no position exceeds 2^62, there is room for a record if and
/// only if its span and the untaken bytes, including those of waiting records, are at most the ring's size minus one.
///
/// The function does nothing; its contract is the law.
pub fn room_is_what_is_left()
    ensures { RoomIsLeft }
{}

/// States that a record is not refused for lack of room if the ring is larger than what some jobs request together, and
/// its untaken records and this one belong to these jobs: those that the workers run, and those by which the consumer
/// is late.
///
/// The function does nothing; its contract is the law.
pub fn none_is_refused_behind()
    ensures { NoneIsRefusedBehind }
{}
