//! The output of `run` for its report: a line for each worker, one for the ring, and one for the strays; and its
//! message on unlogged calls.

ghost use Rattle.std.specs.Prelude.{◌≡◌, ◌++◌, IfOk, OnOk, string_bytes};
ghost use Rattle.rb_run_commands.specs.ReportLines.{closing_lines, counts_line, records_line, report_text, tally_line, tally_lines_from, unlogged_text};

use rb_history::{Counts, Tally};
use rb_workers::{Ended, JobsReport};
use std::alloc::{AllocError, Global};

/// Returns the text of a report: for each ring a line `worker W made M refused R submitted S discarded D` for each
/// worker, from worker 0, and `ring made M consumed C discarded D waiting W busy B`; then `strays N`. Returns
/// `AllocError` if it cannot be allocated.
pub(crate) fn text_of_report<S>(alloc: Global, report: &JobsReport<S>) -> Result<String, AllocError>
    ensures text { IfOk result (λ text. string_bytes text ≡ report_text report.now) }
{
    let mut text = String::new(alloc);
    for ended in &report.rings {
        push_ended(&mut text, ended)?;
    }
    // 0 in each report of `run_jobs`, by its clause `no_strays`.
    writeln!(text, "strays {}", report.strays)?;
    Ok(text)
}

/// Returns the message printed besides a report: a line `unlogged U` that explains itself, or nothing if no reservation
/// or output is unlogged. Returns `AllocError` if it cannot be allocated.
pub(crate) fn text_of_unlogged(alloc: Global, unlogged: u128) -> Result<String, AllocError>
    ensures text { IfOk result (λ text. string_bytes text ≡ unlogged_text unlogged) }
{
    let mut text = String::new(alloc);
    if unlogged == 0 {
        return Ok(text);
    }
    writeln!(
        text,
        "unlogged {unlogged} (reservations and outputs that found no room in the ring's chapter, no free hand or no memory)"
    )?;
    Ok(text)
}

// Appends the lines of a ring.
fn push_ended<S>(text: &mut String, ended: &Ended<S>) -> Result<(), AllocError>
    ensures lines { OnOk result (string_bytes text.new ≡ string_bytes text.old ++ closing_lines ended.now) }
{
    push_tallies(text, ended.tallies.as_slice())?;
    push_counts(text, ended.closing.counts())
}

// Appends the lines of the workers' seats, from worker 0.
fn push_tallies(text: &mut String, tallies: &[Tally]) -> Result<(), AllocError>
    ensures lines { OnOk result (string_bytes text.new ≡ string_bytes text.old ++ tally_lines_from 0 tallies.now) }
{
    for worker in 0..tallies.len() {
        push_tally(text, worker, tallies[worker])?;
    }
    Ok(())
}

// Appends the line of a worker's seat.
fn push_tally(text: &mut String, worker: usize, tally: Tally) -> Result<(), AllocError>
    ensures line { OnOk result (string_bytes text.new ≡ string_bytes text.old ++ tally_line worker tally) }
{
    let Tally {
        made,
        refused,
        submitted,
        discarded,
    } = tally;
    writeln!(
        text,
        "worker {worker} made {made} refused {refused} submitted {submitted} discarded {discarded}"
    )
}

// Appends the line of a ring's counts.
fn push_counts(text: &mut String, counts: Counts) -> Result<(), AllocError>
    ensures line { OnOk result (string_bytes text.new ≡ string_bytes text.old ++ counts_line counts) }
{
    write!(text, "ring made {} ", counts.made)?;
    push_records(text, counts)
}

/// Appends what happened to a ring's records, up to the end of the line: `consumed C discarded D waiting W busy B`.
/// Returns `AllocError` if the text cannot be extended.
pub fn push_records(text: &mut String, counts: Counts) -> Result<(), AllocError>
    ensures records { OnOk result (string_bytes text.new ≡ string_bytes text.old ++ records_line counts) }
{
    let Counts {
        made: _,
        refused: _,
        consumed,
        discarded,
        waiting,
        busy,
    } = counts;
    writeln!(
        text,
        "consumed {consumed} discarded {discarded} waiting {waiting} busy {busy}"
    )
}
