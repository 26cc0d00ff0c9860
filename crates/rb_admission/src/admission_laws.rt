//! The laws of admission.

ghost use Rattle.rb_admission.specs.Admission.{NoneIsRefusedAfterLooks};
ghost use Rattle.rb_admission.specs.Lateness.{NoneIsRefusedOnTime};

/// States that no history has a refusal if each worker looked at the ring before it requested records, and began its
/// turns only when there was room for a turn of every worker.
///
/// The argument: consider the last of all looks that came before a reservation. No worker begins a turn between that
/// look and the reservation, so each requests at most one turn after it, and takes only make room.
///
/// The function does nothing; its contract is the law.
pub fn none_is_refused_after_looks()
    ensures { NoneIsRefusedAfterLooks }
{}

/// States that no history has a refusal if the ring is larger than what its workers' jobs and `behind` further jobs
/// request together, and its consumer is never late by more than `behind` jobs: jobs that have ended and left a record
/// that is not taken.
///
/// The function does nothing; its contract is the law.
pub fn none_is_refused_on_time()
    ensures { NoneIsRefusedOnTime }
{}
