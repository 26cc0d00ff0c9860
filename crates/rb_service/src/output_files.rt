//! The outputs of a stream, opened.

ghost use Rattle.std.specs.Prelude.{◌≡◌, All, IfErr, IfOk, map};
ghost use Rattle.rb_history.specs.RingModel.{IsRingSize, IsStartPosition};
ghost use Rattle.rb_service.specs.Command.{IsLater};
ghost use Rattle.rb_service.specs.PrintedStream.{sizes_of_rings};
ghost use Rattle.rb_outputs.specs.Outputs.{output_position, stream_position};

use crate::folders::open_segments;
use crate::metrics::StreamMetrics;
use crate::options::{NamedRing, RecordForm, StreamOptions};
use crate::refusal::StreamRefusal;
use crate::rings::RingPlan;
use rb_io::Buffered;
use rb_outputs::{LineSink, RingOutput, StreamOutput, WatchedOutput};
use rb_run_commands::TapeSink;
use rb_segments::{DirectoryStore, SegmentFile};
use rb_workers::{NullSink, OpenGate};
use std::alloc::{AllocError, Global};
use std::fs::File;
use std::io::Write;
use std::rt::Files;

/// The output of a ring: records on `W` or in a file, segments in a directory, or nothing.
type Output<'a, T, W> = RingOutput<
    'a,
    Buffered<W>,
    Buffered<File>,
    DirectoryStore<'a, T>,
    SegmentFile<File>,
>;

/// The same, of which metrics receive the totals.
pub(crate) type MeasuredOutput<'a, T, W> = WatchedOutput<
    'a,
    Buffered<W>,
    Buffered<File>,
    DirectoryStore<'a, T>,
    SegmentFile<File>,
    StreamMetrics<'a>,
>;

// Returns the output of a ring's records on this writer.
fn output_on<'a, W: Write + Drop>(
    alloc: Global,
    writer: W,
    size: u64,
    records: RecordForm,
    gate: &'a OpenGate,
) -> Result<StreamOutput<'a, Buffered<W>>, AllocError>
    requires size { IsRingSize size }
    ensures begins { IfOk result (λ output. IsStartPosition (stream_position output)) }
{
    let writer = Buffered::new(alloc, writer)?;
    match records {
        RecordForm::Tape => Ok(StreamOutput::Tape(TapeSink::new(writer, size, 0, gate))),
        RecordForm::Lines => Ok(StreamOutput::Lines(LineSink::new(alloc, writer, 0))),
    }
}

// Opens the output of a ring that has a file. `out` is standard output, until a ring has it.
fn open_file<'a, T: Files<File = File>, W: Write + Drop>(
    rt: &'a T,
    alloc: Global,
    ring: NamedRing<'a>,
    path: &'a str,
    records: RecordForm,
    out: &mut Option<W>,
    gate: &'a OpenGate,
) -> Result<Output<'a, T, W>, StreamRefusal<'a>>
    requires size { IsRingSize ring.size }
    ensures begins { IfOk result (λ output. IsStartPosition (output_position output)) }
    ensures later { IfErr result IsLater }
{
    if path == "-"
        && let Some(out) = out.take()
    {
        let output = output_on(alloc, out, ring.size, records, gate)?;
        return Ok(RingOutput::Stream(output));
    }
    match File::create(rt, path) {
        Ok(file) => {
            let output = output_on(alloc, file, ring.size, records, gate)?;
            Ok(RingOutput::File(output))
        }
        Err(_) => Err(StreamRefusal::Open(path)),
    }
}

// Opens the output of a ring.
fn open_output<'a, T: Files<File = File>, W: Write + Drop>(
    rt: &'a T,
    alloc: Global,
    options: &StreamOptions<'a>,
    ring: NamedRing<'a>,
    out: &mut Option<W>,
    gate: &'a OpenGate,
) -> Result<Output<'a, T, W>, StreamRefusal<'a>>
    requires size { IsRingSize ring.size }
    ensures begins { IfOk result (λ output. IsStartPosition (output_position output)) }
    ensures later { IfErr result IsLater }
{
    if let Some(path) = ring.out {
        return open_file(rt, alloc, ring, path, options.records, out, gate);
    }
    match options.folder {
        Some(folder) => match open_segments(rt, alloc, folder, ring) {
            Ok(tape) => Ok(RingOutput::Segments(tape)),
            Err(refusal) => Err(refusal),
        },
        None => Ok(RingOutput::Nowhere(NullSink { position: 0 })),
    }
}

/// Plans the rings: each with its size and the output of its records.
pub(crate) fn plan_rings<'a, T: Files<File = File>, W: Write + Drop>(
    rt: &'a T,
    alloc: Global,
    options: &StreamOptions<'a>,
    out: W,
    gate: &'a OpenGate,
    metrics: &'a StreamMetrics<'a>,
) -> Result<Vec<RingPlan<MeasuredOutput<'a, T, W>>>, StreamRefusal<'a>>
    requires sizes { All (λ r. IsRingSize r.size) options.now.rings.items }
    ensures begins { IfOk result (λ plans. All (λ p. IsStartPosition (output_position p.sink.output)) plans.items) }
    ensures sizes { IfOk result (λ plans. map (λ p. p.size) plans.items ≡ sizes_of_rings options.now) }
    ensures later { IfErr result IsLater }
{
    let mut plans = Vec::new(alloc);
    let mut out = Some(out);
    for at in 0..options.rings.len() {
        let ring = options.rings[at];
        let output = open_output(rt, alloc, options, ring, &mut out, gate)?;
        let sink = WatchedOutput::new(output, at, metrics);
        plans.reserve(1)?;
        plans.push_reserved(RingPlan {
            size: ring.size,
            sink,
        });
    }
    Ok(plans)
}
