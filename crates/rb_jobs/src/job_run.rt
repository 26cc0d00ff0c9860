//! Runs of jobs.

ghost use Rattle.std.specs.Prelude.{◌≡◌, ◌≤◌, [], length, IfOk, IfErr};
ghost use Rattle.rb_verifier.specs.Subject.{call_count};
ghost use Rattle.rb_jobs.specs.SeatHelpers.{AtRings};
ghost use Rattle.rb_jobs.specs.Jobs.{JobRanCounted, task_of};

use crate::job::{Gate, Job, JobAnswer};
use crate::{SeatHelpers, Stock};
use rb_chapter_ring::RingRecord;
use rb_interp::{Helpers, MachineRoom, run_in};
use rb_shared_ring::{Seat, SharedRing};
use std::alloc::{AllocError, Global};
use std::marker::Model;
use std::sync::Wait;

/// A runner that executes one job after another for a worker, over the worker's seats: one at each of the rings, in the
/// rings' order. It reuses the memory of a job's trace and of its machine for the next job.
///
/// Contracts see the rings, the seats, and the number of helper calls that the worker has finished, which saturates at
/// `u64::MAX`.
#[derive(Drop)]
pub struct JobRunner<'r, 'j, R, G, K> {
    helpers: SeatHelpers<'r, R, K, G>,
    machine: MachineRoom<'j, RingRecord>,
    calls: u64,
}

impl<'r, 'j, R, G, K> Model for JobRunner<'r, 'j, R, G, K> {
    ghost use Rattle.std.specs.Coded.{codes};
    ghost use Rattle.atomic_table.specs.Seated.{table_id_coded};
    ghost use Rattle.rb_history.specs.RingModel.{contents_code};
    ghost use Rattle.rb_history.specs.contracts.entries.Entry as entry;
    ghost use Rattle.rb_history.specs.contracts.tally.Tally as tally_row;
    ghost use Rattle.rb_chapter_ring.specs.contracts.out_record.OutRecord as out_row;
    ghost use Rattle.rb_jobs.specs.Jobs.{WorkerAtRings};

    ghost Value = { WorkerAtRings };

    ghost coded = { Prim.hlevel (codes, contents_code, table_id_coded, entry.the_row.coded, tally_row.the_row.coded, out_row.the_row.coded) };

    ghost view = { λ r. record { rings = r.helpers.rings; seats = r.helpers.seats; calls = r.calls } };
}

impl<'r, 'j, R: Wait, G: Gate, K: Stock> JobRunner<'r, 'j, R, G, K> {
    /// Returns a runner for a worker with these seats that has finished `calls` helper calls. Does not allocate.
    ///
    /// Its records reuse sheets (byte buffers) from the stock; programs see nothing of their old contents.
    pub fn new(
        rt: &'r R,
        alloc: Global,
        rings: &'r [SharedRing],
        seats: Vec<Seat>,
        gate: &'r G,
        stock: &'r K,
        calls: u64,
    ) -> JobRunner<'r, 'j, R, G, K>
        requires seats { AtRings rings.now seats.items }
        ensures new { result ≡ record { rings = rings.now; seats = seats.items; calls = calls } }
    {
        JobRunner {
            helpers: SeatHelpers::at_rest(rt, alloc, rings, seats, stock, gate),
            machine: MachineRoom::new(),
            calls,
        }
    }

    /// Runs a job to its end over the worker's seats. Before each helper call it calls the gate with the number of
    /// calls that the worker has finished, and counts the call afterwards.
    ///
    /// Returns `AllocError` if the trace of the calls can't be allocated: then nothing ran. It allocates only if the
    /// trace has room for fewer calls than the program contains. It may wait for other threads at each call, and
    /// executes at most as many steps as the program has units.
    pub fn run(&mut self, job: &Job<'j>) -> Result<JobAnswer, AllocError>
        requires rings { job.now.program.now.rings ≤ length self.old.rings }
        ensures ran { IfOk result (λ answer. JobRanCounted (task_of job.now) answer self.old.seats self.new.seats self.old.calls self.new.calls) }
        ensures few { IfOk result (λ answer. answer.unlogged ≤ 4096) }
        ensures rings { self.new.rings ≡ self.old.rings }
        ensures nothing_ran { IfErr result (λ _. self.new ≡ self.old) }
    {
        self.helpers.begin(job.program.calls())?;
        let answer = run_begun(&mut self.helpers, &mut self.machine, job, &mut self.calls);
        Ok(answer)
    }

    /// Exchanges the worker's seats for others, at these rings and in their order. Returns the earlier seats. The
    /// memory for jobs is kept, so a worker can use its seats itself between two jobs.
    pub fn exchange_seats(&mut self, rings: &'r [SharedRing], seats: Vec<Seat>) -> Vec<Seat>
        requires seats { AtRings rings.now seats.items }
        ensures new { self.new ≡ record { rings = rings.now; seats = seats.items; calls = self.old.calls } }
        ensures returned { result.items ≡ self.old.seats }
        ensures at_rings { AtRings self.old.rings result.items }
    {
        self.helpers.exchange_seats(rings, seats)
    }

    /// Returns the seats, and the number of helper calls that the worker has finished.
    pub fn into_seats(self) -> (Vec<Seat>, u64)
        ensures seats { result.0.items ≡ self.entry.seats }
        ensures at_rings { AtRings self.entry.rings result.0.items }
        ensures calls { result.1 ≡ self.entry.calls }
    {
        (self.helpers.into_seats(), self.calls)
    }
}

// Runs a job with helpers that have no calls yet and room for the job's calls, and counts the calls.
fn run_begun<'j, R: Wait, G: Gate, K: Stock>(
    helpers: &mut SeatHelpers<'_, R, K, G>,
    machine: &mut MachineRoom<'j, RingRecord>,
    job: &Job<'j>,
    calls: &mut u64,
) -> JobAnswer
    requires rings { job.now.program.now.rings ≤ length helpers.old.rings }
    requires begun { helpers.old ≡ record { rings = helpers.old.rings; seats = helpers.old.seats; trace = []; room = call_count job.now.program.now.program; unlogged = 0 } }
    ensures ran { JobRanCounted (task_of job.now) result helpers.old.seats helpers.new.seats calls.old calls.new }
    ensures few { result.unlogged ≤ 4096 }
    ensures rings { helpers.new.rings ≡ helpers.old.rings }
{
    job.program.program().facts();
    helpers.count_from(job.worker, *calls);
    let result = run_in(job.program, job.ctx, helpers, machine);
    *calls = calls.saturating_add(helpers.trace().len() as u64);
    let unlogged = helpers.unlogged();
    JobAnswer { result, unlogged }
}

/// Runs a job to its end over the worker's seats, one at each of the rings and in the rings' order, and returns the
/// seats. Before each helper call it calls the gate with the number of calls that the worker has finished, and counts
/// the call afterwards.
///
/// The job's records reuse sheets from the stock; the program sees nothing of their old contents. Returns `AllocError`
/// if the trace of the calls can't be allocated: then nothing ran. It may wait for other threads at each call, and
/// executes at most as many steps as the program has units.
pub fn run_job<R: Wait, G: Gate, K: Stock>(
    rt: &R,
    alloc: Global,
    rings: &[SharedRing],
    seats: Vec<Seat>,
    job: &Job<'_>,
    gate: &G,
    stock: &K,
    calls: &mut u64,
) -> (Result<JobAnswer, AllocError>, Vec<Seat>)
    requires rings { job.now.program.now.rings ≤ length rings.now }
    requires seats { AtRings rings.now seats.items }
    ensures ran { IfOk result.0 (λ answer. JobRanCounted (task_of job.now) answer seats.items result.1.items calls.old calls.new) }
    ensures memory { IfErr result.0 (λ _. result.1 ≡ seats) }
    ensures nothing_ran { IfErr result.0 (λ _. calls.new ≡ calls.old) }
    ensures seats { AtRings rings.now result.1.items }
{
    let room = job.program.calls();
    match SeatHelpers::new(rt, alloc, rings, seats, room, stock, gate) {
        Ok(mut helpers) => {
            let answer = run_begun(&mut helpers, &mut MachineRoom::new(), job, calls);
            (Ok(answer), helpers.into_seats())
        }
        Err((refused, seats)) => (Err(refused), seats),
    }
}
