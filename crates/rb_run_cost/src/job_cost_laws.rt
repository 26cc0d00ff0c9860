//! The theorems on what jobs request from their rings.

ghost use Rattle.rb_run_cost.specs.JobCosts.{JobsAskWithin};
ghost use Rattle.rb_run_cost.specs.JobRequests.{CallsLeaveRequests};

/// The calls of a job leave their requests in the histories of its worker's rings, in order: a call that got a record
/// leaves a granted request; a call that got none leaves a refused request or none. The worker makes no other requests.
pub fn calls_leave_their_requests()
    ensures { CallsLeaveRequests }
{}

/// A job requests from each ring that its program knows at most the bytes in the program's cost, whatever its calls are
/// answered. The ring's history shows it: the worker's requests there are its earlier ones followed by those of the
/// job.
pub fn jobs_ask_within_their_cost()
    ensures { JobsAskWithin }
{}
