//! The results of jobs, as a worker stores them.

ghost use Rattle.std.specs.Prelude.{◌≡◌, ◌<◌, ◌^◌};

use rb_interp::RunFault;
use rb_jobs::JobAnswer;
use std::marker::Model;

// 2^32, one more than the greatest number of 32 bits.
const HALF: u64 = 4_294_967_296;

/// A job's result in 12 bytes, where a `JobAnswer` takes 24: a worker stores one for each of its jobs. Contracts see
/// the `JobAnswer`.
#[derive(Drop)]
pub struct StoredAnswer {
    /// The low half of the program's result, or 0 if there is none.
    low: u32,
    /// The high half.
    high: u32,
    /// Why there is no result.
    fault: Option<RunFault>,
    /// The number of the job's failures that no entry of a ring explains.
    unlogged: u16,
}

impl Model for StoredAnswer {
    ghost use Rattle.rb_jobs.specs.declared.job.JobAnswer.{JobAnswer};
    ghost use Rattle.rb_workers.specs.inner.StoredAnswers.{answer_in};

    ghost Value = { JobAnswer };

    ghost view = { λ s. answer_in s.low s.high s.fault s.unlogged };
}

impl StoredAnswer {
    /// Stores a result with fewer than 2^16 unlogged failures.
    pub(crate) fn of(answer: JobAnswer) -> StoredAnswer
        requires few { answer.unlogged < 2 ^ 16 }
        ensures kept { result ≡ answer }
    {
        let unlogged = answer.unlogged as u16;
        match answer.result {
            Ok(number) => StoredAnswer {
                low: (number % HALF) as u32,
                high: (number / HALF) as u32,
                fault: None,
                unlogged,
            },
            Err(fault) => StoredAnswer {
                low: 0,
                high: 0,
                fault: Some(fault),
                unlogged,
            },
        }
    }

    /// Returns the stored result.
    pub(crate) fn answer(&self) -> JobAnswer
        ensures answer { result ≡ self.now }
    {
        let result = match self.fault {
            None => Ok(u64::from(self.high) * HALF + u64::from(self.low)),
            Some(fault) => Err(fault),
        };
        JobAnswer {
            result,
            unlogged: u64::from(self.unlogged),
        }
    }
}
