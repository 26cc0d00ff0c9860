//! The command `run`: runs a program from its text as jobs on threads over one ring, on request with a tape.

ghost use Rattle.std.specs.Prelude.{◌≡◌, ◌≢◌, IfErr, IfSome, OnOk, is_some};
ghost use Rattle.std.specs.Io.KnownBytes.{Keeps};
ghost use Rattle.rb_history.specs.RingModel.{IsRingSize, IsStartPosition, IsWorkerCount};
ghost use Rattle.rb_loader.specs.MachineFaults.{IsMachineFault};
ghost use Rattle.rb_run_commands.specs.RunCommand.{IsRightJobsFault};
ghost use Rattle.rb_run_commands.specs.TapedRun.{PrintsRun, TapesWhole};

use crate::jobs_fault::JobsFault;
use crate::jobs_request::JobsRequest;
use crate::planned_run::PlannedRun;
use crate::tape_watch::TapeWatch;
use crate::written_tape::finish_tape;
use rb_io::{Buffered, NotedWriter};
use rb_loader::ProgramFault;
use rb_workers::{Gate, NullSink};
use std::alloc::Global;
use std::fs::File;
use std::io::{Error, Read, Write};
use std::rt::Files;
use std::sync::Wait;
use std::thread::Threads;

/// What failed at the file of a tape, with the system's error if it reported one.
#[derive(Clone, Copy)]
pub enum TapeFileFault {
    /// The file could not be created, or opened for writing.
    Opening(Error),
    /// A write failed, or wrote nothing.
    Writing(Option<Error>),
}

/// The file of a run's tape.
#[derive(Clone, Copy)]
pub struct TapeFile<'a> {
    /// Its name, or `None` if no tape is written.
    pub path: Option<&'a str>,
    /// What failed there.
    pub fault: Option<TapeFileFault>,
}

/// Runs the program whose text is the input, as `PlannedRun` does. If the file has a name, writes what the ring's
/// consumer took to it as a tape, each record as it is taken; otherwise, the records are dropped.
///
/// The file is created, or truncated if it exists, after all refusals of the program and the ring and before anything
/// runs. A write that fails or writes nothing ends the tape, but not the run. Returns `Device` if the file cannot be
/// opened, or, after the output was printed, if the tape was not written whole; `file` then contains what failed there.
/// The gate is also called each time the tape was flushed.
pub fn run<T, R: Read, W: Write, E: Write, F: Write + Send + Drop, G: Gate + TapeWatch + Sync>(
    rt: &T,
    alloc: Global,
    input: &mut R,
    out: &mut W,
    err: &mut E,
    request: JobsRequest,
    file: &mut TapeFile<'_>,
    gate: &G,
) -> Result<(), JobsFault>
where
    T: Threads + Wait + Sync + Files<File = F>,
    ensures printed { OnOk result (PrintsRun F F.contents (is_some file.old.path) (R.remaining input.old) request (W.contents out.old) (W.contents out.new) (E.contents err.old) (E.contents err.new)) }
    ensures bounds { OnOk result (IsRingSize request.size × IsStartPosition request.start × IsWorkerCount request.workers) }
    ensures refused { IfErr result (λ fault. IfSome (R.remaining input.old) (λ text. IsRightJobsFault text request fault)) }
    ensures nothing_written { IfErr result (λ fault. fault ≢ JobsFault.Program ProgramFault.Device → Keeps (W.contents out.old) (W.contents out.new) × Keeps (E.contents err.old) (E.contents err.new)) }
{
    let planned = PlannedRun::read(alloc, input, request)?;
    match file.path {
        None => {
            let sink = NullSink {
                position: request.start,
            };
            planned.run(rt, alloc, out, err, sink, gate)?;
            Ok(())
        }
        Some(path) => {
            run_to_file(rt, alloc, &planned, out, err, path, &mut file.fault, gate)?;
            Ok(())
        }
    }
}

// Runs the jobs with a tape in the file of this name, and stores what failed at the file.
fn run_to_file<T, W: Write, E: Write, F: Write + Send + Drop, G: Gate + TapeWatch + Sync>(
    rt: &T,
    alloc: Global,
    planned: &PlannedRun,
    out: &mut W,
    err: &mut E,
    path: &str,
    fault: &mut Option<TapeFileFault>,
    gate: &G,
) -> Result<(), ProgramFault>
where
    T: Threads + Wait + Sync + Files<File = F>,
    ensures printed { OnOk result (TapesWhole F F.contents planned.now.program planned.now.request (W.contents out.old) (W.contents out.new) (E.contents err.old) (E.contents err.new)) }
    ensures refused { IfErr result IsMachineFault }
    ensures nothing_written { IfErr result (λ fault. fault ≢ ProgramFault.Device → Keeps (W.contents out.old) (W.contents out.new) × Keeps (E.contents err.old) (E.contents err.new)) }
{
    let file = match File::create(rt, path) {
        Ok(file) => file,
        Err(error) => {
            *fault = Some(TapeFileFault::Opening(error));
            return Err(ProgramFault::Device);
        }
    };
    let writer = Buffered::new(alloc, NotedWriter::new(file))?;
    let sink = planned.tape_sink(writer, gate);
    let report = planned.run(rt, alloc, out, err, sink, gate)?;
    let tape = finish_tape(report);
    if !tape.is_whole {
        *fault = Some(TapeFileFault::Writing(tape.writer.into_writer().error));
        return Err(ProgramFault::Device);
    }
    Ok(())
}
