//! Workers with their seats and the answers of their jobs.

ghost use Rattle.std.specs.Prelude.{◌≡◌, ◌<◌, ◌≤◌, [], All, false, if◌then◌else◌, length, vec_len, vec_capacity};
ghost use Rattle.rb_jobs.specs.SeatHelpers.{AtRings};
ghost use Rattle.rb_workers.specs.JobRuns.{own_jobs};
ghost use Rattle.rb_workers.specs.inner.WorkerRuns.{HasSpareSeat, IsOneMore, IsOneAnswerMore, IsReady, GivesBack, RunsJobs, RunsOne, RunsOwnJobs};

use crate::stored_answer::StoredAnswer;
use rb_jobs::{Gate, Job, JobAnswer, JobRunner, Stock};
use rb_shared_ring::{Seat, SharedRing};
use std::alloc::Global;
use std::mem;
use std::sync::Wait;

/// A worker: its number, the number of helper calls that it has finished, its seats in the order of the rings, the
/// answers of its jobs in order, and whether an allocation failed for one of its jobs.
#[derive(Drop)]
pub struct Worker {
    /// Its number.
    pub number: u32,
    /// The number of helper calls that it has finished.
    pub calls: u64,
    /// Whether an allocation failed for a job.
    pub short: bool,
    /// Its seats, in the order of the rings.
    pub seats: Vec<Seat>,
    /// The answers of its jobs.
    pub answers: Vec<StoredAnswer>,
}

impl Worker {
    /// Gives the worker a seat at one more ring.
    pub(crate) fn add_seat(&mut self, seat: Seat)
        requires room { HasSpareSeat self.old }
        ensures one_more { IsOneMore self.old self.new seat }
    {
        self.seats.push_reserved(seat);
    }

    /// Removes the worker's last seat and returns it.
    pub(crate) fn remove_seat(&mut self) -> Seat
        requires some { 0 < vec_len self.old.seats }
        ensures one_less { IsOneMore self.new self.old result }
    {
        match self.seats.pop() {
            Some(seat) => seat,
            None => unreachable!(),
        }
    }

    /// Removes the worker's last answer and returns it.
    pub(crate) fn take_answer(&mut self) -> JobAnswer
        requires some { 0 < vec_len self.old.answers }
        ensures one_less { IsOneAnswerMore self.new self.old result }
    {
        match self.answers.pop() {
            Some(answer) => answer.answer(),
            None => unreachable!(),
        }
    }

    // Runs one of the worker's jobs. Returns false if an allocation failed: then nothing ran.
    fn run_one<'j, R: Wait, G: Gate, K: Stock>(
        &mut self,
        runner: &mut JobRunner<'_, 'j, R, G, K>,
        job: &Job<'j>,
    ) -> bool
        requires rings { job.now.program.now.rings ≤ length runner.old.rings }
        ensures same { (self.new.number ≡ self.old.number) × (self.new.short ≡ self.old.short) }
        ensures rings { runner.new.rings ≡ runner.old.rings }
        ensures ran { RunsOne job.now result self.old.answers.items runner.old.seats self.new.answers.items runner.new.seats }
    {
        if self.answers.reserve(1).is_err() {
            return false;
        }
        match runner.run(job) {
            Ok(answer) => {
                self.answers.push_reserved(StoredAnswer::of(answer));
                true
            }
            Err(_) => false,
        }
    }

    // Runs the worker's jobs in order, up to the first for which an allocation fails, and calls the gate after each.
    fn run_all<'j, R: Wait, G: Gate, K: Stock>(
        &mut self,
        runner: &mut JobRunner<'_, 'j, R, G, K>,
        jobs: &[Job<'j>],
        gate: &G,
    )
        requires rings { All (λ j. j.program.now.rings ≤ length runner.old.rings) jobs.now }
        requires ready { (self.old.answers.items ≡ []) × (self.old.short ≡ false) }
        ensures number { self.new.number ≡ self.old.number }
        ensures rings { runner.new.rings ≡ runner.old.rings }
        ensures ran { RunsOwnJobs (own_jobs self.old.number jobs.now) self.new.short self.new.answers.items runner.old.seats runner.new.seats }
    {
        for job in jobs {
            if job.worker != self.number {
                continue;
            }
            if !self.run_one(runner, job) {
                self.short = true;
                break;
            }
            gate.after_job(self.number, self.answers.len() as u64);
        }
    }

    /// Runs the worker's jobs in order, with one machine, up to the first for which an allocation fails. Calls the gate
    /// after each job, and once more at the end.
    pub(crate) fn work<R: Wait, G: Gate, K: Stock>(
        &mut self,
        rt: &R,
        alloc: Global,
        rings: &[SharedRing],
        jobs: &[Job<'_>],
        gate: &G,
        stock: &K,
    )
        requires rings { All (λ j. j.program.now.rings ≤ length rings.now) jobs.now }
        requires ready { IsReady rings.now self.old }
        ensures returned { GivesBack rings.now jobs.now self.old self.new }
    {
        let seats = mem::replace(&mut self.seats, Vec::new(alloc));
        let mut runner = JobRunner::new(rt, alloc, rings, seats, gate, stock, self.calls);
        self.run_all(&mut runner, jobs, gate);
        let (seats, calls) = runner.into_seats();
        self.seats = seats;
        self.calls = calls;
        gate.pass(self.number, self.calls);
    }
}
