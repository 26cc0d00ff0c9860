//! Metrics in the text format of Prometheus.

use rb_outputs::OutputTotals;
use rb_source::ContextCounts;
use rb_stream_worker::ResultCounts;
use std::alloc::AllocError;

/// What the reader and the workers of a stream did.
#[derive(Drop)]
pub(crate) struct RunTotals {
    /// The contexts that were run by every program.
    pub run: u64,
    /// The contexts that were dropped.
    pub dropped: u64,
    /// The failures that no ring's history explains.
    pub unlogged: u64,
    /// The results of each program.
    pub results: Vec<ResultCounts>,
    /// The requests of each ring.
    pub requests: Vec<Requests>,
}

/// The reservations and outputs of a ring.
#[derive(Clone, Copy, Default)]
pub(crate) struct Requests {
    /// How many got a record.
    pub made: u64,
    /// How many were refused.
    pub refused: u64,
}

/// A number of a ring's tape.
#[derive(Clone, Copy)]
pub(crate) enum TapeGauge {
    /// The position of the next record.
    End,
    /// The position of the oldest record that was not deleted.
    Oldest,
    /// The number of bytes that were deleted.
    Deleted,
}

/// All kinds of numbers of a tape.
pub(crate) const TAPE_GAUGES: [TapeGauge; 3] = [
    TapeGauge::End,
    TapeGauge::Oldest,
    TapeGauge::Deleted,
];

// Appends the lines before the samples of a metric.
fn push_front(text: &mut String, name: &str, kind: &str, help: &str) -> Result<(), AllocError> {
    writeln!(
        text,
        "# HELP heskavo_{name} {help}\n# TYPE heskavo_{name} {kind}"
    )
}

/// Appends the contexts by state.
pub(crate) fn push_contexts(
    text: &mut String,
    counts: ContextCounts,
    totals: &RunTotals,
) -> Result<(), AllocError> {
    push_front(
        text,
        "contexts_total",
        "counter",
        "Contexts by state; those that were read were run, dropped or skipped.",
    )?;
    push_context(text, "read", counts.given.saturating_add(counts.skipped))?;
    push_context(text, "skipped", counts.skipped)?;
    push_context(text, "cut", counts.cut)?;
    push_context(text, "run", totals.run)?;
    push_context(text, "dropped", totals.dropped)
}

fn push_context(text: &mut String, state: &str, count: u64) -> Result<(), AllocError> {
    writeln!(text, "heskavo_contexts_total{{state=\"{state}\"}} {count}")
}

/// Appends the results of each program.
pub(crate) fn push_results(text: &mut String, results: &[ResultCounts]) -> Result<(), AllocError> {
    push_front(
        text,
        "runs_total",
        "counter",
        "Runs of programs by their result.",
    )?;
    for program in 0..results.len() {
        let counts = &results[program];
        for value in 0..counts.below.len() {
            let runs = counts.below[value];
            if runs > 0 {
                writeln!(
                    text,
                    "heskavo_runs_total{{program=\"{program}\",result=\"{value}\"}} {runs}"
                )?;
            }
        }
        let runs = counts.other;
        writeln!(
            text,
            "heskavo_runs_total{{program=\"{program}\",result=\"other\"}} {runs}"
        )?;
    }
    Ok(())
}

/// Appends the records of a ring by state.
pub(crate) fn push_records(
    text: &mut String,
    is_first: bool,
    ring: &str,
    totals: OutputTotals,
    requests: Requests,
) -> Result<(), AllocError> {
    if is_first {
        push_front(
            text,
            "records_total",
            "counter",
            "Records by ring and state; those that were made were consumed or discarded at the end.",
        )?;
    }
    push_record(text, ring, "consumed", totals.consumed)?;
    push_record(text, ring, "discarded", totals.discarded)?;
    push_record(text, ring, "unwritten", totals.unwritten)?;
    push_record(text, ring, "made", requests.made)?;
    push_record(text, ring, "refused", requests.refused)
}

fn push_record(text: &mut String, ring: &str, state: &str, count: u64) -> Result<(), AllocError> {
    writeln!(
        text,
        "heskavo_records_total{{ring=\"{ring}\",state=\"{state}\"}} {count}"
    )
}

fn name_of(kind: TapeGauge) -> &'static str {
    match kind {
        TapeGauge::End => "tape_end_position",
        TapeGauge::Oldest => "tape_oldest_position",
        TapeGauge::Deleted => "tape_deleted_bytes",
    }
}

/// Appends the lines before the samples of a number of tapes.
pub(crate) fn push_gauge(text: &mut String, kind: TapeGauge) -> Result<(), AllocError> {
    let help = match kind {
        TapeGauge::End => "The position of the next record of a ring's tape.",
        TapeGauge::Oldest => "The position of the oldest record that was not deleted.",
        TapeGauge::Deleted => "Bytes of a ring's tape that this host deleted.",
    };
    push_front(text, name_of(kind), "gauge", help)
}

/// Appends a number of a ring's tape.
pub(crate) fn push_tape(
    text: &mut String,
    kind: TapeGauge,
    ring: &str,
    totals: OutputTotals,
) -> Result<(), AllocError> {
    let name = name_of(kind);
    let value = match kind {
        TapeGauge::End => totals.position,
        TapeGauge::Oldest => totals.oldest,
        TapeGauge::Deleted => totals.deleted,
    };
    writeln!(text, "heskavo_{name}{{ring=\"{ring}\"}} {value}")
}

/// Appends the failures that no ring explains, and the time.
pub(crate) fn push_end(text: &mut String, unlogged: u64, seconds: u64) -> Result<(), AllocError> {
    push_front(
        text,
        "unlogged_total",
        "counter",
        "Reservations and outputs that failed for another reason than a full ring.",
    )?;
    writeln!(text, "heskavo_unlogged_total {unlogged}")?;
    push_front(
        text,
        "written_seconds",
        "gauge",
        "The time at which these metrics were written, in seconds since 1970.",
    )?;
    writeln!(text, "heskavo_written_seconds {seconds}")
}
