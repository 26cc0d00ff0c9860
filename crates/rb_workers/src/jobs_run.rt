//! Runs of jobs over rings.

ghost use Rattle.std.specs.Prelude.{ℕ, ◌≡◌, ◌≢◌, ◌<◌, ◌≤◌, ◌↔◌, [], All, IfErr, IfOk, false, length, map, slice_index_or, true, vec_capacity, vec_len};
ghost use Rattle.std.specs.List.{AllZip};
ghost use Rattle.rb_workers.specs.inner.ConsumerTasks.{IsConsumed, joined_rings};
ghost use Rattle.rb_workers.specs.Opened.{AreOpened, IsOpened, workers_of};
ghost use Rattle.rb_workers.specs.Reports.{IsHandedBack, IsReport, IsRefusedFor, has_unknown_ring, has_unknown_worker};
ghost use Rattle.rb_workers.specs.JobRuns.{own_jobs};
ghost use Rattle.rb_workers.specs.inner.RunBuffers.{IsEmptyFor, HasRoomForRun};
ghost use Rattle.rb_workers.specs.Rest.{IsDrained, LeavesNothing};
ghost use Rattle.rb_workers.specs.SeatRows.{worker_column, seat_rows};
ghost use Rattle.rb_workers.specs.Settled.{EachSettled, EndsSettled};
ghost use Rattle.rb_workers.specs.inner.ReportAnswers.{ReportMatches};
ghost use Rattle.rb_workers.specs.inner.WorkerRuns.{HasRun, IsNew};

use crate::consumer_task::ConsumerTask;
use crate::distribution::{merge, return_seats, split};
use crate::job_answers::{Gathered, gather_answers, is_any_short};
use crate::opened::{Ended, JobFault, JobsReport, Opened};
use crate::rest::take_rests;
use crate::ring_close::close_all;
use crate::run_buffers::{RunBuffers, make_buffers, zero_counts};
use crate::sink::Sink;
use crate::threads::run_threads;
use crate::workers::Worker;
use crossbeam_queue::ArrayQueue;
use rb_consumer::Batch;
use rb_interp::RunFault;
use rb_jobs::{Gate, Job};
use rb_lend::Sheet;
use rb_shared_ring::SharedRing;
use std::alloc::Global;
use std::sync::Wait;
use std::thread::Threads;

// Whether some job's program uses more rings than there are, and whether some job names a worker that does not exist.
#[derive(Clone, Copy)]
struct Unknown {
    ring: bool,
    worker: bool,
}

// Returns which of the two the jobs name, for this number of rings and workers. Counts each worker's jobs if `counts`
// has an element for the worker. Makes one pass over the jobs.
fn find_unknown(jobs: &[Job<'_>], rings: usize, count: u32, counts: &mut [usize]) -> Unknown
    ensures ring { result.ring ≡ has_unknown_ring rings jobs.now }
    ensures worker { result.worker ≡ has_unknown_worker count jobs.now }
{
    let mut ring = false;
    let mut worker = false;
    for job in jobs {
        if job.program.rings() as usize > rings {
            ring = true;
        }
        if job.worker >= count {
            worker = true;
        }
        if let Some(own) = counts.get_mut(job.worker as usize) {
            *own = own.saturating_add(1);
        }
    }
    Unknown { ring, worker }
}

/// Returns how many workers the rings have seats for: 0 if there is no ring.
pub fn count_workers<S: Sink>(opened: &[Opened<S>]) -> u32
    requires opened { AreOpened S.position_of opened.now }
    ensures { result ≡ workers_of opened.now }
{
    match opened.first() {
        Some(one) => {
            one.consumer.facts();
            one.seats.len() as u32
        }
        None => 0,
    }
}

// Splits the rings, runs the jobs in threads, and returns the seats to the consumer tasks.
fn run_in<R: Threads + Wait + Sync, G: Gate + Sync, S: Sink + Send + Drop>(
    rt: &R,
    alloc: Global,
    opened: Vec<Opened<S>>,
    jobs: &[Job<'_>],
    gate: &G,
    rings: &mut Vec<SharedRing>,
    consumers: &mut Vec<ConsumerTask<S>>,
    batches: Vec<Batch>,
    sheets: &ArrayQueue<Sheet>,
    workers: &mut [Worker],
)
    requires jobs { All (λ j. j.program.now.rings ≤ vec_len opened) jobs.now }
    requires opened { All (IsOpened S.position_of (length workers.old)) opened.items }
    requires count { length workers.old ≡ workers_of opened.items }
    requires batches { vec_len batches ≡ vec_len opened }
    requires empty { (rings.old.items ≡ []) × (consumers.old.items ≡ []) }
    requires room { (vec_len opened ≤ vec_capacity rings.old) × (vec_len opened ≤ vec_capacity consumers.old) }
    requires workers { (k : ℕ) (d : _) → k < length workers.old → IsNew k (vec_len opened) (slice_index_or workers.old k d) }
    ensures len { vec_len consumers.new ≡ vec_len rings.new }
    ensures handed_back { IsHandedBack S.position_of S.takes opened.items jobs.now (joined_rings rings.new.items consumers.new.items) }
    ensures consumed { AllZip (IsConsumed S.position_of S.takes) opened.items (joined_rings rings.new.items consumers.new.items) }
    ensures workers { (k : ℕ) (d : _) → k < workers_of opened.items → HasRun k jobs.now (worker_column k (seat_rows opened.items)) (worker_column k (seat_rows (joined_rings rings.new.items consumers.new.items))) (slice_index_or workers.new k d) }
{
    split(opened, rings, consumers, batches, workers);
    run_threads(
        rt,
        alloc,
        rings.as_slice(),
        jobs,
        gate,
        sheets,
        workers,
        consumers.as_mut_slice(),
    );
    return_seats(workers, consumers.as_mut_slice());
}

// Runs the jobs in threads, like `run_in`, and then takes what is left in the rings.
fn run_and_empty<R: Threads + Wait + Sync, G: Gate + Sync, S: Sink + Send + Drop>(
    rt: &R,
    alloc: Global,
    opened: Vec<Opened<S>>,
    jobs: &[Job<'_>],
    gate: &G,
    rings: &mut Vec<SharedRing>,
    consumers: &mut Vec<ConsumerTask<S>>,
    batches: Vec<Batch>,
    rest: &mut Batch,
    sheets: &ArrayQueue<Sheet>,
    workers: &mut [Worker],
)
    requires jobs { All (λ j. j.program.now.rings ≤ vec_len opened) jobs.now }
    requires opened { All (IsOpened S.position_of (length workers.old)) opened.items }
    requires count { length workers.old ≡ workers_of opened.items }
    requires batches { vec_len batches ≡ vec_len opened }
    requires empty { (rings.old.items ≡ []) × (consumers.old.items ≡ []) }
    requires room { (vec_len opened ≤ vec_capacity rings.old) × (vec_len opened ≤ vec_capacity consumers.old) }
    requires workers { (k : ℕ) (d : _) → k < length workers.old → IsNew k (vec_len opened) (slice_index_or workers.old k d) }
    ensures len { vec_len consumers.new ≡ vec_len rings.new }
    ensures handed_back { IsHandedBack S.position_of S.takes opened.items jobs.now (joined_rings rings.new.items consumers.new.items) }
    ensures drained { All IsDrained (joined_rings rings.new.items consumers.new.items) }
    ensures workers { (k : ℕ) (d : _) → k < workers_of opened.items → HasRun k jobs.now (worker_column k (seat_rows opened.items)) (worker_column k (seat_rows (joined_rings rings.new.items consumers.new.items))) (slice_index_or workers.new k d) }
{
    run_in(
        rt, alloc, opened, jobs, gate, rings, consumers, batches, sheets, workers,
    );
    take_rests(rt, rings.as_slice(), consumers.as_mut_slice(), rest);
}

// Returns the report on jobs over these closed rings, after each worker ran all its jobs.
fn report_on<S: Drop>(
    rings: Vec<Ended<S>>,
    jobs: &[Job<'_>],
    workers: &mut [Worker],
    results: Vec<Result<u64, RunFault>>,
) -> JobsReport<S>
    requires known { All (λ j. j.worker < length workers.old) jobs.now }
    requires each { (k : ℕ) (d : _) → k < length workers.old → length (slice_index_or workers.old k d).answers.items ≡ length (own_jobs k jobs.now) }
    requires room { IsEmptyFor (length jobs.now) results }
    ensures rings { result.rings ≡ rings }
    ensures answers { ReportMatches jobs.now workers.old result }
{
    let Gathered { results, unlogged } = gather_answers(jobs, workers, results);
    JobsReport {
        rings,
        answers: results,
        // No run ends with a stray record (`never_stray` of `IsRun`).
        strays: 0,
        unlogged,
    }
}

// Runs the jobs, and closes the rings if each worker ran all its jobs.
fn run_known<R: Threads + Wait + Sync, S: Sink + Send + Drop, G: Gate + Sync>(
    rt: &R,
    alloc: Global,
    opened: Vec<Opened<S>>,
    jobs: &[Job<'_>],
    gate: &G,
    buffers: RunBuffers<S>,
) -> Result<JobsReport<S>, Vec<Opened<S>>>
    requires opened { AreOpened S.position_of opened.items }
    requires rings { has_unknown_ring (vec_len opened) jobs.now ≡ false }
    requires workers { has_unknown_worker (workers_of opened.items) jobs.now ≡ false }
    requires buffers { HasRoomForRun (workers_of opened.items) (vec_len opened) (length jobs.now) buffers }
    ensures report { IfOk result (IsReport S.position_of S.takes opened.items jobs.now) }
    ensures nothing_left { IfOk result (λ r. All LeavesNothing r.rings.items) }
    ensures handed_back { IfErr result (λ b. IsHandedBack S.position_of S.takes opened.items jobs.now b.items) }
{
    let RunBuffers {
        mut rings,
        mut consumers,
        batches,
        mut rest,
        sheets,
        merged,
        mut workers,
        tallies,
        ended,
        results,
    } = buffers;
    run_and_empty(
        rt,
        alloc,
        opened,
        jobs,
        gate,
        &mut rings,
        &mut consumers,
        batches,
        &mut rest,
        &sheets,
        workers.as_mut_slice(),
    );
    if is_any_short(&workers) {
        return Err(merge(rings, consumers, merged));
    }
    let rings = close_all(rt, rings, consumers, tallies, ended);
    Ok(report_on(rings, jobs, workers.as_mut_slice(), results))
}

/// Runs the jobs over the opened rings, with a thread for each worker and for each ring, and closes the rings.
///
/// Each worker runs its own jobs in the order of the list, with its seats: one at each ring, in the rings' order. Ring
/// k of a program is the k-th ring, and so is ring k of the report.
///
/// Each ring's consumer gives the ring's sink each record that it takes and each chapter that the ring's keeper hands
/// out; the keeper looks at the ring's chapter between batches of records. A worker that finds the chapter full gets no
/// record, and that failure is unlogged. After all workers have ended, the calling thread takes what is left, up to the
/// first record that is still busy: if no record of a closed ring is busy, none waits.
///
/// The gate is called before each helper call, and once more after a worker's last job, with the number of helper calls
/// that the worker has finished; so for a worker without jobs it is called once, with 0. If a thread can't be created,
/// its work is done on the calling thread, the workers' first.
///
/// # Errors
///
/// `UnknownRing` takes precedence over `UnknownWorker`; both are returned before anything runs, and everything is
/// handed back unchanged. `Memory` is returned if an allocation fails before the start or for a worker's next job: that
/// worker then stops, the others continue, and everything is handed back in its current state, with no ring closed.
///
/// # Memory
///
/// Allocates for each job and each seat before the threads start, and for each worker's trace during the run. The rings
/// do not allocate.
pub fn run_jobs<R: Threads + Wait + Sync, S: Sink + Send + Drop, G: Gate + Sync>(
    rt: &R,
    alloc: Global,
    opened: Vec<Opened<S>>,
    jobs: &[Job<'_>],
    gate: &G,
) -> Result<JobsReport<S>, (JobFault, Vec<Opened<S>>)>
    requires opened { AreOpened S.position_of opened.items }
    ensures unknown_ring { IsRefusedFor JobFault.UnknownRing result ↔ (has_unknown_ring (vec_len opened) jobs.now ≡ true) }
    ensures unknown_worker { IsRefusedFor JobFault.UnknownWorker result ↔ ((has_unknown_ring (vec_len opened) jobs.now ≡ false) × (has_unknown_worker (workers_of opened.items) jobs.now ≡ true)) }
    ensures nothing_ran { IfErr result (λ e. e.0 ≢ JobFault.Memory → e.1 ≡ opened) }
    ensures handed_back { IfErr result (λ e. IsHandedBack S.position_of S.takes opened.items jobs.now e.1.items) }
    ensures report { IfOk result (IsReport S.position_of S.takes opened.items jobs.now) }
    ensures no_strays { IfOk result (λ r. r.strays ≡ 0) }
    ensures nothing_left { IfOk result (λ r. All LeavesNothing r.rings.items) }
    ensures settled { IfOk result (λ r. EachSettled (workers_of opened.items) (seat_rows opened.items) → All EndsSettled r.rings.items) }
{
    let count = count_workers(&opened);
    let mut counts = zero_counts(alloc, count);
    let unknown = find_unknown(jobs, opened.len(), count, counts.as_mut_slice());
    if unknown.ring {
        return Err((JobFault::UnknownRing, opened));
    }
    if unknown.worker {
        return Err((JobFault::UnknownWorker, opened));
    }
    let Ok(buffers) = make_buffers(alloc, count, &counts, opened.len(), jobs.len()) else {
        return Err((JobFault::Memory, opened));
    };
    match run_known(rt, alloc, opened, jobs, gate, buffers) {
        Ok(report) => Ok(report),
        Err(merged) => Err((JobFault::Memory, merged)),
    }
}
