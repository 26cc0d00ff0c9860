//! The laws about calls with seats.

ghost use Rattle.rb_jobs.specs.SeatLaws.{HelpersLead, SeatsGoOn, SeatsMayAnswer, SeatsRise};

/// The law about calls that lead from one state of a worker's seats to another: the seats still belong to the same
/// worker and rings, and their counts grow exactly by what the calls and their results say. Each call that failed for
/// lack of room or memory is a refusal in a ring's history, or unlogged. The function does nothing; its contract is the
/// law.
pub fn seats_rise()
    ensures { SeatsRise }
{}

/// The law that the results of such calls are results that bpf-helpers(7) allows. The function does nothing; its
/// contract is the law.
pub fn seats_may_answer()
    ensures { SeatsMayAnswer }
{}

/// The law that what each seat has seen after such calls begins with what it had seen before. The function does
/// nothing; its contract is the law.
pub fn seats_go_on()
    ensures { SeatsGoOn }
{}

/// The law that calls that lead from one value of the helpers to another are appended to the trace, and lead from the
/// seats of the former to those of the latter. The function does nothing; its contract is the law.
pub fn helpers_lead()
    ensures { HelpersLead }
{}
