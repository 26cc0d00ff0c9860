//! A run of jobs that can begin.

ghost use Rattle.std.specs.Prelude.{◌≡◌, vec_len, IfOk, ◌∷◌, []};

use crate::jobs_fault::JobsFault;
use crate::jobs_request::{JOB_BOUNDS, JobsRequest, check_ring};
use crate::report::lines_of_report;
use crate::report_lines::text_of_unlogged;
use crate::tape_sink::TapeSink;
use crate::worker_jobs::{JobContext, contexts_of, jobs_of};
use rb_io::write_whole;
use rb_loader::{ProgramFault, read_program};
use rb_shared_ring::OpenFault;
use rb_verifier::Verified;
use rb_workers::{
    Gate, JobFault, JobsReport, Opened, Sink, chapter_margin, chapter_room, run_jobs,
};
use std::alloc::{AllocError, Global};
use std::io::{Read, Write};
use std::marker::Model;
use std::sync::Wait;
use std::thread::Threads;

/// A verified program with its jobs and the numbers of a ring that can be opened for them.
#[derive(Drop)]
pub struct PlannedRun {
    program: Verified,
    // The jobs to run, and the ring to run them over.
    request: JobsRequest,
    // The number of workers.
    workers: u32,
    // The contexts of the jobs, worker by worker.
    contexts: Vec<JobContext>,
}

impl Model for PlannedRun {
    ghost use Rattle.std.specs.Prelude.{◌≡◌};
    ghost use Rattle.rb_history.specs.RingModel.{IsRingSize, IsStartPosition, IsWorkerCount};
    ghost use Rattle.rb_run_commands.specs.RunCommand.{RunPlan};
    ghost use Rattle.rb_run_commands.specs.inner.JobContexts.{contexts_of_workers};

    ghost Value = { RunPlan };

    ghost view = { λ p. record { program = p.program; request = p.request } };

    ghost invariant = { λ p. (p.program.rings ≡ 1) × IsRingSize p.request.size × IsStartPosition p.request.start × IsWorkerCount p.request.workers × (p.workers ≡ p.request.workers) × (p.contexts.items ≡ contexts_of_workers p.workers p.request.jobs) };
}

impl PlannedRun {
    ghost use Rattle.std.specs.Prelude.{◌≡◌, ◌≢◌, IfErr, IfOk, IfSome, OnOk, vec_len};
    ghost use Rattle.std.specs.Io.KnownBytes.{Appends, Keeps};
    ghost use Rattle.rb_loader.specs.Acceptance.{IsAccepted};
    ghost use Rattle.rb_loader.specs.MachineFaults.{IsMachineFault};
    ghost use Rattle.rb_run_commands.specs.ReportLines.{report_lines, unlogged_text};
    ghost use Rattle.rb_history.specs.RingModel.{IsRingSize, IsStartPosition, IsWorkerCount};
    ghost use Rattle.rb_run_commands.specs.RunCommand.{IsRightJobsFault, RunsWorkers};
    ghost use Rattle.rb_run_commands.specs.TapedRun.{first_tape};

    /// Verifies the program whose text is the input, for one ring and contexts of 16 bytes, and returns its run. A job's
    /// context is the worker's number followed by the job's number, each in eight bytes, little-endian.
    ///
    /// Refusals of the program come before those of size, start and workers.
    pub fn read<R: Read>(
        alloc: Global,
        input: &mut R,
        request: JobsRequest,
    ) -> Result<PlannedRun, JobsFault>
        ensures accepted { IfOk result (λ planned. IfSome (R.remaining input.old) (λ text. IsAccepted text 16 1 planned.program)) }
        ensures request { IfOk result (λ planned. planned.request ≡ request) }
        ensures bounds { OnOk result (IsRingSize request.size × IsStartPosition request.start × IsWorkerCount request.workers) }
        ensures refused { IfErr result (λ fault. IfSome (R.remaining input.old) (λ text. IsRightJobsFault text request fault)) }
    {
        let program = read_program(alloc, input, JOB_BOUNDS)?;
        let workers = check_ring(request)?;
        let contexts = contexts_of(alloc, workers, request.jobs)?;
        Ok(PlannedRun {
            program,
            request,
            workers,
            contexts,
        })
    }

    /// Returns a sink that writes the ring's records as a tape. Nothing is written yet.
    pub fn tape_sink<'w, F: Write, G>(&self, writer: F, watch: &'w G) -> TapeSink<'w, F, G>
        ensures value { result ≡ first_tape writer self.now.request }
    {
        TapeSink::new(writer, self.request.size, self.request.start, watch)
    }

    /// Runs the jobs, each worker on its own thread, over a newly opened ring whose records go to the sink as they are
    /// taken. When all workers have ended, prints each seat's counts and the closed ring's counts, and reports on `err`
    /// how many reservations and outputs are unlogged, if any are. Returns the report, with the sink. The gate is called
    /// before each helper call.
    ///
    /// If memory runs out, nothing is printed or reported. Returns `Device` if the output was not written whole.
    pub fn run<T: Threads + Wait + Sync, W: Write, E: Write, S: Sink + Send + Drop, G: Gate + Sync>(
        &self,
        rt: &T,
        alloc: Global,
        out: &mut W,
        err: &mut E,
        sink: S,
        gate: &G,
    ) -> Result<JobsReport<S>, ProgramFault>
        requires begins { S.position_of sink ≡ self.now.request.start }
        ensures ran { IfOk result (RunsWorkers S.position_of S.takes sink self.now.program self.now.request) }
        ensures one_ring { IfOk result (λ report. vec_len report.rings ≡ 1) }
        ensures printed { IfOk result (λ report. Appends (W.contents out.old) (W.contents out.new) (report_lines self.now.request.form report)) }
        ensures told { IfOk result (λ report. Appends (E.contents err.old) (E.contents err.new) (unlogged_text report.unlogged)) }
        ensures refused { IfErr result IsMachineFault }
        ensures nothing_written { IfErr result (λ fault. fault ≢ ProgramFault.Device → Keeps (W.contents out.old) (W.contents out.new) × Keeps (E.contents err.old) (E.contents err.new)) }
    {
        let report = self.report(rt, alloc, sink, gate)?;
        let printed = lines_of_report(alloc, &report, self.request.form)?;
        let told = text_of_unlogged(alloc, report.unlogged)?;
        if write_whole(out, printed.as_slice()).is_err() {
            return Err(ProgramFault::Device);
        }
        match write_whole(err, told.as_bytes()) {
            Ok(()) => Ok(report),
            Err(_) => Err(ProgramFault::Device),
        }
    }

    // Runs the jobs over a newly opened ring whose records go to the sink.
    fn report<T: Threads + Wait + Sync, S: Sink + Send + Drop, G: Gate + Sync>(
        &self,
        rt: &T,
        alloc: Global,
        sink: S,
        gate: &G,
    ) -> Result<JobsReport<S>, AllocError>
        requires begins { S.position_of sink ≡ self.now.request.start }
        ensures ran { IfOk result (RunsWorkers S.position_of S.takes sink self.now.program self.now.request) }
    {
        let jobs = jobs_of(alloc, &self.program, self.contexts.as_slice())?;
        let one = match Opened::open(
            rt,
            alloc,
            0,
            self.request.size,
            self.request.start,
            self.workers,
            chapter_room(self.request.size),
            chapter_margin(self.request.size),
            sink,
        ) {
            Ok(one) => one,
            Err(OpenFault::Size) => unreachable!(),
            Err(OpenFault::Start) => unreachable!(),
            Err(OpenFault::Workers) => unreachable!(),
            Err(OpenFault::Chapter) => unreachable!(),
            Err(OpenFault::Memory) => return Err(AllocError),
        };
        let opened = list_of_one(alloc, one)?;
        match run_jobs(rt, alloc, opened, jobs.as_slice(), gate) {
            Ok(report) => Ok(report),
            Err((JobFault::Memory, _)) => Err(AllocError),
            Err((JobFault::UnknownRing, _)) => unreachable!(),
            Err((JobFault::UnknownWorker, _)) => unreachable!(),
        }
    }
}

// Returns a list with one element, or `AllocError` if it cannot be allocated.
fn list_of_one<A: Drop>(alloc: Global, one: A) -> Result<Vec<A>, AllocError>
    ensures items { IfOk result (λ list. list.items ≡ one ∷ []) }
    ensures len { IfOk result (λ list. vec_len list ≡ 1) }
{
    let mut list = Vec::new(alloc);
    list.push(one)?;
    Ok(list)
}
