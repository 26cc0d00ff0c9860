//! The threads of workers and consumers.

ghost use Rattle.std.specs.Prelude.{◌≡◌, ◌≤◌, All, Some, length, slice_get};
ghost use Rattle.std.specs.List.{AllZip};
ghost use Rattle.rb_ledger.specs.Seats.{Shared};
ghost use Rattle.rb_workers.specs.inner.ConsumerTasks.{IsConsumerTaskOf, Consumed};
ghost use Rattle.rb_workers.specs.inner.WorkerRuns.{IsReady, GivesBack};

use crate::consumer_task::{ConsumerTask, consume};
use crate::sink::Sink;
use crate::used_sheets::UsedSheets;
use crate::workers::Worker;
use crossbeam_queue::ArrayQueue;
use rb_jobs::{Gate, Job};
use rb_lend::Sheet;
use rb_shared_ring::SharedRing;
use std::alloc::Global;
use std::sync::Wait;
use std::sync::atomic::{AtomicBool, Ordering};
use std::thread;
use std::thread::{Threads, join_mut};

// Runs each worker's jobs in a separate thread, or on the calling thread if none can be created.
fn work_all<R: Threads + Wait + Sync, G: Gate + Sync>(
    rt: &R,
    alloc: Global,
    rings: &[SharedRing],
    jobs: &[Job<'_>],
    gate: &G,
    sheets: &ArrayQueue<Sheet>,
    workers: &mut [Worker],
)
    requires rings { All (λ j. j.program.now.rings ≤ length rings.now) jobs.now }
    requires ready { All (IsReady rings.now) workers.old }
    ensures returned { AllZip (GivesBack rings.now jobs.now) workers.old workers.new }
{
    let threads = workers.len().max(1);
    let work = move |_: usize, worker: &mut Worker|
        requires { All (λ j. j.program.now.rings ≤ length rings.now) jobs.now × IsReady rings.now worker.now }
        ensures { GivesBack rings.entry.now jobs.entry.now worker.entry.now worker.exit.now }
    {
        let stock = UsedSheets { rt, sheets };
        worker.work(rt, alloc, rings, jobs, gate, &stock);
    };
    thread::for_each_mut(rt, workers, threads, &work);
}

/// Consumes each ring in a separate thread, or on the calling thread if none can be started.
pub fn consume_all<R: Threads + Wait + Sync, S: Sink + Send>(
    rt: &R,
    rings: &[SharedRing],
    ended: &AtomicBool,
    sheets: &ArrayQueue<Sheet>,
    consumers: &mut [ConsumerTask<S>],
)
    requires ready { AllZip (IsConsumerTaskOf S.position_of) rings.now consumers.old }
    ensures returned { AllZip (Consumed S.position_of S.takes) consumers.old consumers.new }
{
    let threads = consumers.len().max(1);
    let consume = move |i: usize, task: &mut ConsumerTask<S>|
        requires { (ring : Shared) × (slice_get rings.now i ≡ Some ring) × IsConsumerTaskOf S.position_of ring task.now }
        ensures { Consumed S.position_of S.takes task.entry.now task.exit.now }
    {
        let stock = UsedSheets { rt, sheets };
        consume(rt, &rings[i], ended, &stock, task);
    };
    thread::for_each_mut(rt, consumers, threads, &consume);
}

/// Runs the jobs and consumes the rings, until all workers have ended and the records that are there are taken. If no
/// threads can be created, everything is done on the calling thread, the workers' part first.
pub(crate) fn run_threads<R: Threads + Wait + Sync, G: Gate + Sync, S: Sink + Send>(
    rt: &R,
    alloc: Global,
    rings: &[SharedRing],
    jobs: &[Job<'_>],
    gate: &G,
    sheets: &ArrayQueue<Sheet>,
    workers: &mut [Worker],
    consumers: &mut [ConsumerTask<S>],
)
    requires rings { All (λ j. j.program.now.rings ≤ length rings.now) jobs.now }
    requires workers { All (IsReady rings.now) workers.old }
    requires consumers { AllZip (IsConsumerTaskOf S.position_of) rings.now consumers.old }
    ensures workers { AllZip (GivesBack rings.now jobs.now) workers.old workers.new }
    ensures consumers { AllZip (Consumed S.position_of S.takes) consumers.old consumers.new }
{
    let ended = AtomicBool::new(false);
    let shared = &ended;
    join_mut(
        rt,
        &mut ||
            requires { AllZip (IsConsumerTaskOf S.position_of) rings.now consumers.now }
            ensures { AllZip (Consumed S.position_of S.takes) consumers.entry.now consumers.exit.now }
        { consume_all(rt, rings, shared, sheets, consumers) },
        &mut ||
            requires { All (λ j. j.program.now.rings ≤ length rings.now) jobs.now × All (IsReady rings.now) workers.now }
            ensures { AllZip (GivesBack rings.entry.now jobs.entry.now) workers.entry.now workers.exit.now }
        {
            work_all(rt, alloc, rings, jobs, gate, sheets, workers);
            shared.store(true, Ordering::SeqCst);
        },
    );
}
