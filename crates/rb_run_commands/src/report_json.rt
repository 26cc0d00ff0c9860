//! The output of `run` for its report as JSON objects, one per line: for each ring one for each worker and one for the
//! ring; then one for the strays and the unlogged calls.

ghost use Rattle.std.specs.Prelude.{◌≡◌, ◌++◌, IfOk, OnOk};
ghost use Rattle.std.specs.Prelude.{codes};
ghost use Rattle.rb_json.specs.Json.{json_number};
ghost use Rattle.rb_run_commands.specs.ReportLines.{closing_objects, closing_objects_from, consumed_fields, counts_object, grant_fields, other_fields, outcome_fields, report_objects, tally_object, tally_objects_from};

use rb_history::{Counts, Tally};
use rb_json::{push_field, push_wide_number};
use rb_workers::{Ended, JobsReport};
use std::alloc::{AllocError, Global};

/// Returns the objects of a report: for each ring, from ring 0, one with `ring`, `worker`, `made`, `refused`,
/// `submitted` and `discarded` for each worker, from worker 0, and one with `ring`, `made`, `consumed`, `discarded`,
/// `waiting` and `busy`; then one with `strays` and `unlogged`. Returns `AllocError` if they cannot be allocated.
pub(crate) fn objects_of_report<S>(
    alloc: Global,
    report: &JobsReport<S>,
) -> Result<Vec<u8>, AllocError>
    ensures objects { IfOk result (λ lines. lines.items ≡ report_objects report.now) }
{
    let mut lines = Vec::new(alloc);
    push_rings(&mut lines, report.rings.as_slice())?;
    // 0 in each report of `run_jobs`, by its clause `no_strays`.
    push_field(&mut lines, b"{\"strays\":", report.strays)?;
    push_unlogged(&mut lines, report.unlogged)?;
    lines.extend_from_slice(b"}\n")?;
    Ok(lines)
}

// Appends the `unlogged` field.
fn push_unlogged(lines: &mut Vec<u8>, unlogged: u128) -> Result<(), AllocError>
    ensures field { OnOk result (lines.new.items ≡ lines.old.items ++ codes ",\"unlogged\":" ++ json_number unlogged) }
{
    lines.extend_from_slice(b",\"unlogged\":")?;
    push_wide_number(lines, unlogged)
}

// Appends the objects of the rings, from ring 0.
fn push_rings<S>(lines: &mut Vec<u8>, rings: &[Ended<S>]) -> Result<(), AllocError>
    ensures objects { OnOk result (lines.new.items ≡ lines.old.items ++ closing_objects_from 0 rings.now) }
{
    for ring in 0..rings.len() {
        push_ended(lines, ring, &rings[ring])?;
    }
    Ok(())
}

// Appends the objects of a ring.
fn push_ended<S>(lines: &mut Vec<u8>, ring: usize, ended: &Ended<S>) -> Result<(), AllocError>
    ensures objects { OnOk result (lines.new.items ≡ lines.old.items ++ closing_objects ring ended.now) }
{
    push_tallies(lines, ring, ended.tallies.as_slice())?;
    push_counts(lines, ring, ended.closing.counts())
}

// Appends the objects of the workers' seats at a ring, from worker 0.
fn push_tallies(lines: &mut Vec<u8>, ring: usize, tallies: &[Tally]) -> Result<(), AllocError>
    ensures objects { OnOk result (lines.new.items ≡ lines.old.items ++ tally_objects_from ring 0 tallies.now) }
{
    for worker in 0..tallies.len() {
        push_tally(lines, ring, worker, tallies[worker])?;
    }
    Ok(())
}

// Appends the object of a worker's seat.
fn push_tally(
    lines: &mut Vec<u8>,
    ring: usize,
    worker: usize,
    tally: Tally,
) -> Result<(), AllocError>
    ensures object { OnOk result (lines.new.items ≡ lines.old.items ++ tally_object ring worker tally) }
{
    push_grants(lines, ring, worker, tally)?;
    push_outcome(lines, tally)?;
    lines.extend_from_slice(b"}\n")
}

#[tactic(auto, unfolding(crate::specs::ReportLines::grant_fields))]
// Appends the fields for a worker's seat at a ring and the number of records it was granted.
fn push_grants(
    lines: &mut Vec<u8>,
    ring: usize,
    worker: usize,
    tally: Tally,
) -> Result<(), AllocError>
    ensures fields { OnOk result (lines.new.items ≡ lines.old.items ++ grant_fields ring worker tally) }
{
    push_field(lines, b"{\"ring\":", ring as u64)?;
    push_field(lines, b",\"worker\":", worker as u64)?;
    push_field(lines, b",\"made\":", tally.made)
}

#[tactic(auto, unfolding(crate::specs::ReportLines::outcome_fields))]
// Appends the fields for how often it was refused a record, and for how many of its records were submitted and
// discarded.
fn push_outcome(lines: &mut Vec<u8>, tally: Tally) -> Result<(), AllocError>
    ensures fields { OnOk result (lines.new.items ≡ lines.old.items ++ outcome_fields tally) }
{
    push_field(lines, b",\"refused\":", tally.refused)?;
    push_field(lines, b",\"submitted\":", tally.submitted)?;
    push_field(lines, b",\"discarded\":", tally.discarded)
}

// Appends the object of a ring's counts.
fn push_counts(lines: &mut Vec<u8>, ring: usize, counts: Counts) -> Result<(), AllocError>
    ensures object { OnOk result (lines.new.items ≡ lines.old.items ++ counts_object ring counts) }
{
    push_consumed(lines, ring, counts)?;
    push_others(lines, counts)?;
    lines.extend_from_slice(b"}\n")
}

#[tactic(auto, unfolding(crate::specs::ReportLines::consumed_fields))]
// Appends the fields for a ring and the numbers of its records that were made and consumed.
fn push_consumed(lines: &mut Vec<u8>, ring: usize, counts: Counts) -> Result<(), AllocError>
    ensures fields { OnOk result (lines.new.items ≡ lines.old.items ++ consumed_fields ring counts) }
{
    push_field(lines, b"{\"ring\":", ring as u64)?;
    push_field(lines, b",\"made\":", counts.made)?;
    push_field(lines, b",\"consumed\":", counts.consumed)
}

#[tactic(auto, unfolding(crate::specs::ReportLines::other_fields))]
// Appends the fields for its discarded, waiting and busy records.
fn push_others(lines: &mut Vec<u8>, counts: Counts) -> Result<(), AllocError>
    ensures fields { OnOk result (lines.new.items ≡ lines.old.items ++ other_fields counts) }
{
    push_field(lines, b",\"discarded\":", counts.discarded)?;
    push_field(lines, b",\"waiting\":", counts.waiting)?;
    push_field(lines, b",\"busy\":", counts.busy)
}
