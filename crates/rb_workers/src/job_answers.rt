//! The results of all jobs, in the list's order.

ghost use Rattle.std.specs.Prelude.{ℕ, ◌≡◌, ◌<◌, ◌≤◌, [], All, length, slice_index_or, true, vec_capacity};
ghost use Rattle.std.specs.List.{list_any};
ghost use Rattle.rb_workers.specs.JobRuns.{own_jobs};
ghost use Rattle.rb_workers.specs.inner.GatheredAnswers.{GathersAnswers};

use crate::workers::Worker;
use rb_interp::RunFault;
use rb_jobs::Job;

/// Returns whether an allocation failed for some worker's job.
pub(crate) fn is_any_short(workers: &[Worker]) -> bool
    ensures { result ≡ list_any (λ w. w.short) workers.now }
{
    for worker in workers {
        if worker.short {
            return true;
        }
    }
    false
}

/// The results of all jobs, in the list's order, and the number of their failures that no entry of a ring explains.
pub(crate) struct Gathered {
    pub(crate) results: Vec<Result<u64, RunFault>>,
    pub(crate) unlogged: u128,
}

/// Takes the workers' answers, from the last job to the first, and collects them in the order of the jobs. Takes time
/// linear in the number of jobs.
pub(crate) fn gather_answers(
    jobs: &[Job<'_>],
    workers: &mut [Worker],
    mut results: Vec<Result<u64, RunFault>>,
) -> Gathered
    requires empty { results.items ≡ [] }
    requires room { length jobs.now ≤ vec_capacity results }
    requires known { All (λ j. j.worker < length workers.old) jobs.now }
    requires each { (k : ℕ) (d : _) → k < length workers.old → length (slice_index_or workers.old k d).answers.items ≡ length (own_jobs k jobs.now) }
    ensures { GathersAnswers jobs.now workers.old result }
{
    let mut unlogged = 0;
    let mut rest = jobs.len();
    while rest > 0 {
        rest -= 1;
        let answer = workers[jobs[rest].worker as usize].take_answer();
        results.push_reserved(answer.result);
        unlogged += u128::from(answer.unlogged);
    }
    results.reverse();
    Gathered { results, unlogged }
}
