//! The laws about what running jobs are refused.

ghost use Rattle.rb_run_cost.specs.RunCosts.{NoJobIsRefused, RunsCutHistories};

use rb_workers::Sink;

/// The law that, by every report of a run whose consumers keep up, no worker is refused a record, and each record that
/// a call requested was made or is unlogged: its ring was not called, or the ring's chapter had no room.
///
/// The premise on each ring is that its consumer was never late by more than `behind` runs (runs that have ended and
/// left a record that is not taken), which the schedule decides. The ring is larger than what one run of each of its
/// workers and `behind` more request together. A run requests at most the cost of its program, and a record belongs to
/// the run whose call reserved it: both are proved, and no part of the premise. The function does nothing; its contract
/// is the law.
pub fn running_jobs_are_not_refused<S: Sink>()
    ensures { NoJobIsRefused S.position_of S.takes }
{}

/// The law that the runs of a worker, one after another, cut each history that has the requests that its seat has seen:
/// into a part before the first run, and one for each run with the requests that its calls left. The function does
/// nothing; its contract is the law.
pub fn runs_cut_histories()
    ensures { RunsCutHistories }
{}
