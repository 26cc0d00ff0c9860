//! The end of a stream: its counters, and the outputs of its rings.

ghost use Rattle.std.specs.Prelude.{◌≡◌, ◌++◌, IfErr, IfOk, OnOk, length, map};
ghost use Rattle.rb_stream.specs.declared.report.StreamEnd.TheVariants.{Over};
ghost use Rattle.rb_service.specs.Command.{IsLater};
ghost use Rattle.rb_service.specs.Counters.{counters};
ghost use Rattle.rb_service.specs.PrintedStream.{names_of_rings};

use crate::counters::counters_text;
use crate::metrics::StreamMetrics;
use crate::metrics_text::{Requests, RunTotals};
use crate::options::StreamOptions;
use crate::output_files::MeasuredOutput;
use crate::refusal::StreamRefusal;
use rb_outputs::OutputEnd;
use rb_segments::mark_end;
use rb_source::{ContextCounts, SourceFault};
use rb_stream::{StreamEnd, StreamReport};
use rb_workers::Ended;
use std::alloc::{AllocError, Global};
use std::io::Write;

// Returns the names of the rings.
fn ring_names<'a>(alloc: Global, options: &StreamOptions<'a>) -> Result<Vec<&'a str>, AllocError>
    ensures names { IfOk result (λ names. map (λ n. n.now) names.items ≡ names_of_rings options.now) }
{
    let mut names = Vec::new(alloc);
    for at in 0..options.rings.len() {
        let ring = options.rings[at];
        names.reserve(1)?;
        names.push_reserved(ring.name);
    }
    Ok(names)
}

// Flushes the outputs, and marks the ends of those in segments. Returns the number of the first one that was not written completely.
fn finish_outputs<'a, W: Write + Drop>(
    host: &HostRuntime,
    alloc: Global,
    options: &StreamOptions<'a>,
    rings: Vec<Ended<MeasuredOutput<'a, HostRuntime, W>>>,
) -> Option<usize> {
    let mut at = 0usize;
    let mut failed = None;
    for ended in rings {
        let is_whole = match ended.sink.finish() {
            OutputEnd::Whole => true,
            OutputEnd::Segments(position) => mark_ring(host, alloc, options, at, position),
            OutputEnd::Failed => false,
        };
        if !is_whole && failed.is_none() {
            failed = Some(at);
        }
        at = at.saturating_add(1);
    }
    failed
}

// Marks in the directory of segments that the tape of this ring ended at this position. Returns whether that succeeded.
fn mark_ring(
    host: &HostRuntime,
    alloc: Global,
    options: &StreamOptions<'_>,
    at: usize,
    position: u64,
) -> bool {
    match (options.folder, options.rings.get(at)) {
        (Some(folder), Some(ring)) => {
            mark_end(host, alloc, folder.path, ring.name, position).is_ok()
        }
        _ => false,
    }
}

// Returns the requests of the rings.
fn ring_requests<S>(alloc: Global, rings: &[Ended<S>]) -> Result<Vec<Requests>, AllocError> {
    let mut requests = Vec::new(alloc);
    for at in 0..rings.len() {
        let counts = rings[at].closing.counts();
        requests.push(Requests {
            made: counts.made,
            refused: counts.refused,
        })?;
    }
    Ok(requests)
}

// Appends the counters of this report to `printed`.
fn print_counters<S>(
    alloc: Global,
    options: &StreamOptions<'_>,
    report: &StreamReport<S>,
    contexts: ContextCounts,
    printed: &mut Vec<u8>,
) -> Result<(), AllocError>
    requires rings { length report.now.rings.items ≡ length options.now.rings.items }
    ensures counted { OnOk result (printed.new.items ≡ printed.old.items ++ counters report.now contexts (names_of_rings options.now)) }
{
    let names = ring_names(alloc, options)?;
    let text = counters_text(alloc, report, contexts, names.as_slice())?;
    printed.extend_from_slice(text.as_bytes())
}

/// Appends the counters to `printed`, flushes the outputs, and writes the metrics. Returns `Tape` for the first output
/// that was not written completely, then `Metrics` if their file was not written, and otherwise the fault that ended the
/// stream, if there is one.
pub(crate) fn report_on<'a, W: Write + Drop>(
    alloc: Global,
    options: &StreamOptions<'a>,
    report: StreamReport<MeasuredOutput<'a, HostRuntime, W>>,
    contexts: ContextCounts,
    metrics: &StreamMetrics<'a>,
    printed: &mut Vec<u8>,
) -> Result<(), StreamRefusal<'a>>
    requires rings { length report.rings.items ≡ length options.now.rings.items }
    ensures later { IfErr result IsLater }
    ensures counted { OnOk result (printed.new.items ≡ printed.old.items ++ counters report.entry contexts (names_of_rings options.now)) }
    ensures over { OnOk result (report.entry.end ≡ Over) }
{
    print_counters(alloc, options, &report, contexts, printed)?;
    end_outputs(alloc, options, report, metrics)
}

// Flushes the outputs, and writes the metrics.
fn end_outputs<'a, W: Write + Drop>(
    alloc: Global,
    options: &StreamOptions<'a>,
    report: StreamReport<MeasuredOutput<'a, HostRuntime, W>>,
    metrics: &StreamMetrics<'a>,
) -> Result<(), StreamRefusal<'a>>
    ensures later { IfErr result IsLater }
    ensures over { OnOk result (report.entry.end ≡ Over) }
{
    let StreamReport {
        rings,
        contexts: _,
        dropped,
        ran,
        results,
        unlogged,
        strays: _,
        end,
    } = report;
    let totals = RunTotals {
        run: ran,
        dropped,
        unlogged,
        results,
        requests: ring_requests(alloc, rings.as_slice())?,
    };
    let failed = finish_outputs(metrics.host, alloc, options, rings);
    let is_written = metrics.write_end(&totals);
    if let Some(at) = failed
        && let Some(ring) = options.rings.get(at)
    {
        return Err(StreamRefusal::Tape(ring.name));
    }
    if let Some(file) = options.metrics
        && !is_written
    {
        return Err(StreamRefusal::Metrics(file.path));
    }
    match end {
        StreamEnd::Over => Ok(()),
        StreamEnd::Failed(SourceFault::Read) => Err(StreamRefusal::Input),
        StreamEnd::Failed(SourceFault::EndsInside(context)) => Err(StreamRefusal::EndsInside(
            context,
        )),
    }
}
