//! What a ring's result means for the helper call.

ghost use Rattle.std.specs.Prelude.{◌≡◌};
ghost use Rattle.rb_jobs.specs.inner.CallAnswers.{output_number, unlogged_in};

use crate::no_record::NoRecord;
use rb_history::Notice;
use rb_interp::{EAGAIN, EINVAL};
use rb_shared_ring::ReserveFault;

// Returns whether the call failed and no history records the failure.
pub(crate) fn is_unlogged<T>(answer: &Result<T, NoRecord>) -> bool
    ensures { result ≡ unlogged_in answer.now }
{
    matches!(
        answer,
        Err(
            NoRecord::NoSheet
                | NoRecord::Refused(ReserveFault::ChapterFull | ReserveFault::HandsFull)
        )
    )
}

pub(crate) fn answer_of(answer: &Result<Notice, NoRecord>) -> i64
    ensures { result ≡ output_number answer.now }
{
    match answer {
        Ok(_) => 0,
        Err(NoRecord::BadFlags) => -EINVAL,
        Err(_) => -EAGAIN,
    }
}
