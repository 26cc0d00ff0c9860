//! The command `stream`.

ghost use Rattle.std.specs.Prelude.{◌≡◌, All, IfErr, IfOk, OnOk, map};
ghost use Rattle.rb_history.specs.RingModel.{IsStartPosition};
ghost use Rattle.rb_service.specs.Command.{HasContexts, IsAllowed, IsLater, IsRightRefusal};
ghost use Rattle.rb_service.specs.PrintedStream.{AreAcceptedFor, PrintsStream, PrintsStreamOver, sizes_of_rings};
ghost use Rattle.rb_outputs.specs.Outputs.{output_position};

use crate::folders::{check_rings, lock};
use crate::metrics::StreamMetrics;
use crate::options::StreamOptions;
use crate::output_files::{MeasuredOutput, plan_rings};
use crate::programs::read_programs;
use crate::refusal::{StreamRefusal, check_options, refusal_of};
use crate::report::report_on;
use crate::rings::RingPlan;
use crate::service::{ServiceRequest, serve};
use crate::watched_source::WatchedSource;
use rb_source::FramedReader;
use rb_verifier::Verified;
use rb_workers::OpenGate;
use std::alloc::Global;
use std::fs::{self, File, OpenOptions};
use std::io::{self, Read, Write};
use std::os::unix::fs::FileTypeExt;
use std::rt::Files;
use std::sync::Wait;
use std::thread::Threads;

// Opens the file of the input. A FIFO is opened for reading and writing, because one that is open only for reading ends
// when its last writer closes it.
fn open_input<T: Files<File = File>>(rt: &T, path: &str) -> io::Result<File> {
    let is_fifo = match fs::metadata(rt, path) {
        Ok(found) => found.file_type().is_fifo(),
        Err(_) => false,
    };
    if is_fifo && let Ok(file) = OpenOptions::new().read(true).write(true).open(rt, path) {
        return Ok(file);
    }
    File::open(rt, path)
}

// Runs the stream over the contexts of this reader.
fn stream_from<'a, T: Threads + Wait + Sync, I: Read + Send + Drop, W: Write + Send + Drop>(
    rt: &T,
    alloc: Global,
    options: &StreamOptions<'a>,
    programs: &[Verified],
    input: I,
    plans: Vec<RingPlan<MeasuredOutput<'a, HostRuntime, W>>>,
    metrics: &'a StreamMetrics<'a>,
    printed: &mut Vec<u8>,
) -> Result<(), StreamRefusal<'a>>
    requires contexts { HasContexts options.now }
    requires accepted { AreAcceptedFor options.now programs.now }
    requires begins { All (λ p. IsStartPosition (output_position p.sink.output)) plans.items }
    requires sizes { map (λ p. p.size) plans.items ≡ sizes_of_rings options.now }
    ensures later { IfErr result IsLater }
    ensures streamed { OnOk result (PrintsStreamOver options.now (I.remaining input) printed.old.items printed.new.items) }
{
    let reader = FramedReader::new(alloc, input, options.framing, options.form)?;
    let mut source = WatchedSource::new(reader, metrics);
    let request = ServiceRequest {
        workers: options.workers,
        late: options.late,
        full: options.full,
        results: options.results,
    };
    match serve(
        rt,
        alloc,
        programs,
        &mut source,
        plans,
        request,
        &metrics.live,
    ) {
        Ok(report) => report_on(alloc, options, report, source.counts(), metrics, printed),
        Err(fault) => Err(refusal_of(options, fault)),
    }
}

/// Runs every program on each context of the input, and writes what each ring's consumer takes to its output. Returns
/// once the input has ended.
///
/// Appends the counters to `printed`, even if the input or an output failed. A FIFO is opened for reading and writing,
/// so that writers may come and go; the input then ends at an end mark.
///
/// A ring whose tape is written to the directory of segments opens at the position at which the tape continues. The
/// directory is locked until the end. Once the tape is complete, its end is marked there, so that `follow` ends.
///
/// # Errors
///
/// `Context`, `Size` and `Workers` are refusals of the options, in this order, and are returned before any file is
/// opened. After that, the programs are read in order, the directory is locked, the sizes of its rings are compared, the
/// outputs are opened in the order of the rings, and the input's file is opened. Nothing is read from the input before.
pub fn stream<'a, T: Threads + Wait + Sync + Files<File = File>, R: Read + Send, W: Write + Send>(
    rt: &T,
    alloc: Global,
    options: &StreamOptions<'a>,
    gate: &'a OpenGate,
    metrics: &'a StreamMetrics<'a>,
    input: &mut R,
    out: &mut W,
    printed: &mut Vec<u8>,
) -> Result<(), StreamRefusal<'a>>
    ensures refused { IfErr result (IsRightRefusal options.now) }
    ensures allowed { OnOk result (IsAllowed options.now) }
    ensures streamed { OnOk result (PrintsStream options.now (R.remaining input.old) printed.old.items printed.new.items) }
{
    check_options(options)?;
    stream_allowed(rt, alloc, options, gate, metrics, input, out, printed)
}

// Locks the directory of segments if there is one, and compares the sizes of its rings. The directory is locked until the
// file is dropped.
fn enter_folder<'a, T: Files<File = File>>(
    rt: &T,
    alloc: Global,
    options: &StreamOptions<'a>,
) -> Result<Option<File>, StreamRefusal<'a>>
    ensures later { IfErr result IsLater }
{
    let Some(folder) = options.folder else {
        return Ok(None);
    };
    let lock = lock(rt, alloc, folder)?;
    check_rings(rt, alloc, folder, options.rings.as_slice())?;
    Ok(Some(lock))
}

// Runs the stream with these options, which are allowed.
fn stream_allowed<
    'a,
    T: Threads + Wait + Sync + Files<File = File>,
    R: Read + Send,
    W: Write + Send,
>(
    rt: &T,
    alloc: Global,
    options: &StreamOptions<'a>,
    gate: &'a OpenGate,
    metrics: &'a StreamMetrics<'a>,
    input: &mut R,
    out: &mut W,
    printed: &mut Vec<u8>,
) -> Result<(), StreamRefusal<'a>>
    requires allowed { IsAllowed options.now }
    ensures later { IfErr result IsLater }
    ensures streamed { OnOk result (PrintsStream options.now (R.remaining input.old) printed.old.items printed.new.items) }
{
    let programs = read_programs(rt, alloc, options)?;
    let lock = enter_folder(rt, alloc, options)?;
    let answer = stream_planned(
        rt,
        alloc,
        options,
        programs.as_slice(),
        gate,
        metrics,
        input,
        out,
        printed,
    );
    drop(lock);
    answer
}

// Opens the outputs and the input, and runs the programs.
fn stream_planned<
    'a,
    T: Threads + Wait + Sync + Files<File = File>,
    R: Read + Send,
    W: Write + Send,
>(
    rt: &T,
    alloc: Global,
    options: &StreamOptions<'a>,
    programs: &[Verified],
    gate: &'a OpenGate,
    metrics: &'a StreamMetrics<'a>,
    input: &mut R,
    out: &mut W,
    printed: &mut Vec<u8>,
) -> Result<(), StreamRefusal<'a>>
    requires allowed { IsAllowed options.now }
    requires accepted { AreAcceptedFor options.now programs.now }
    ensures later { IfErr result IsLater }
    ensures streamed { OnOk result (PrintsStream options.now (R.remaining input.old) printed.old.items printed.new.items) }
{
    let plans = plan_rings(metrics.host, alloc, options, out, gate, metrics)?;
    let Some(path) = options.from else {
        return stream_from(rt, alloc, options, programs, input, plans, metrics, printed);
    };
    match open_input(rt, path) {
        Ok(file) => stream_from(rt, alloc, options, programs, file, plans, metrics, printed),
        Err(_) => Err(StreamRefusal::Open(path)),
    }
}
