//! The laws about jobs.

ghost use Rattle.rb_jobs.specs.Jobs.{JobsGiveBack};

/// The law that a job submits and discards as many records as it makes. The function does nothing; its contract is the
/// law.
pub fn jobs_give_back()
    ensures { JobsGiveBack }
{}
