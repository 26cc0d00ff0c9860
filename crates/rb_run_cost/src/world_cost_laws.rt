//! The theorems on what a world's rings hold.

ghost use Rattle.rb_run_cost.specs.WorldCosts.{BusyBytesAreBounded, WorkersStayWithin};

/// After the turns of any list of actors, the busy records of a ring take at most as many bytes as its unfinished
/// workers together may hold there, by the costs of their programs.
pub fn busy_bytes_are_bounded()
    ensures { BusyBytesAreBounded }
{}

/// After the turns of any list of actors, each running worker has stayed within the cost of its program at every moment
/// of its run, whatever its calls were answered and whatever turns others took in between.
pub fn workers_stay_within_their_cost()
    ensures { WorkersStayWithin }
{}
