//! The counters that are printed for a service's report.

ghost use Rattle.std.specs.Prelude.{◌≡◌, ◌++◌, IfOk, OnOk, length, map, string_bytes};
ghost use Rattle.rb_chapter_ring.specs.OpenedRing.{told_counts};
ghost use Rattle.rb_service.specs.Counters.{contexts_line, counters, other_line, program_lines, programs_lines_from, requests_part, result_line, result_lines_from, ring_line, rings_lines};

use rb_history::Counts;
use rb_run_commands::push_records;
use rb_source::ContextCounts;
use rb_stream::StreamReport;
use rb_stream_worker::ResultCounts;
use rb_workers::Ended;
use std::alloc::{AllocError, Global};

/// Returns the counters of a stream at its end, one line each: its contexts, the results of each program, each ring by
/// its name, and the failures that no ring's history explains.
///
/// The contexts that were read are those of the report and those that the source skipped.
pub fn counters_text<S>(
    alloc: Global,
    report: &StreamReport<S>,
    contexts: ContextCounts,
    names: &[&str],
) -> Result<String, AllocError>
    requires names { length names.now ≡ length report.now.rings.items }
    ensures text { IfOk result (λ text. string_bytes text ≡ counters report.now contexts (map (λ n. n.now) names.now)) }
{
    let mut text = String::new(alloc);
    let read = report.contexts.saturating_add(contexts.skipped);
    push_contexts(&mut text, read, report.ran, report.dropped, contexts)?;
    push_programs(&mut text, report.results.as_slice())?;
    push_rings(&mut text, report.rings.as_slice(), names)?;
    writeln!(text, "unlogged {}", report.unlogged)?;
    Ok(text)
}

// Appends the line of the contexts.
fn push_contexts(
    text: &mut String,
    read: u64,
    run: u64,
    dropped: u64,
    contexts: ContextCounts,
) -> Result<(), AllocError>
    ensures line { OnOk result (string_bytes text.new ≡ string_bytes text.old ++ contexts_line read run dropped contexts) }
{
    let (skipped, cut) = (contexts.skipped, contexts.cut);
    writeln!(
        text,
        "contexts read {read} run {run} dropped {dropped} skipped {skipped} cut {cut}"
    )
}

// Appends the lines of each program's results.
fn push_programs(text: &mut String, results: &[ResultCounts]) -> Result<(), AllocError>
    ensures lines { OnOk result (string_bytes text.new ≡ string_bytes text.old ++ programs_lines_from 0 results.now) }
{
    for program in 0..results.len() {
        push_results(text, program, &results[program])?;
    }
    Ok(())
}

// Appends a line for each result that runs of a program returned.
fn push_results(text: &mut String, program: usize, counts: &ResultCounts) -> Result<(), AllocError>
    ensures lines { OnOk result (string_bytes text.new ≡ string_bytes text.old ++ program_lines program counts.now) }
{
    push_counted(text, program, counts.below.as_slice())?;
    push_other(text, program, counts.other)
}

// Appends a line for each result that is counted individually and that runs of a program returned.
fn push_counted(text: &mut String, program: usize, below: &[u64]) -> Result<(), AllocError>
    ensures lines { OnOk result (string_bytes text.new ≡ string_bytes text.old ++ result_lines_from program 0 below.now) }
{
    for value in 0..below.len() {
        push_result(text, program, value, below[value])?;
    }
    Ok(())
}

// Appends the line of a result, if any runs returned it.
fn push_result(text: &mut String, program: usize, value: usize, runs: u64) -> Result<(), AllocError>
    ensures line { OnOk result (string_bytes text.new ≡ string_bytes text.old ++ result_line program value runs) }
{
    if runs == 0 {
        return Ok(());
    }
    writeln!(text, "program {program} result {value} runs {runs}")
}

// Appends the line of the runs with other results, if there are any.
fn push_other(text: &mut String, program: usize, runs: u64) -> Result<(), AllocError>
    ensures line { OnOk result (string_bytes text.new ≡ string_bytes text.old ++ other_line program runs) }
{
    if runs == 0 {
        return Ok(());
    }
    writeln!(text, "program {program} other runs {runs}")
}

// Appends the lines of the rings, each by its name.
fn push_rings<S>(text: &mut String, rings: &[Ended<S>], names: &[&str]) -> Result<(), AllocError>
    requires names { length names.now ≡ length rings.now }
    ensures lines { OnOk result (string_bytes text.new ≡ string_bytes text.old ++ rings_lines (map (λ n. n.now) names.now) rings.now) }
{
    for ring in 0..rings.len() {
        push_ended(text, names[ring], &rings[ring])?;
    }
    Ok(())
}

// Appends the line of a ring at its end.
fn push_ended<S>(text: &mut String, name: &str, ended: &Ended<S>) -> Result<(), AllocError>
    ensures line { OnOk result (string_bytes text.new ≡ string_bytes text.old ++ ring_line name.now (told_counts ended.now.closing.at_end)) }
{
    push_ring(text, name, ended.closing.counts())
}

// Appends the line of a ring.
fn push_ring(text: &mut String, name: &str, counts: Counts) -> Result<(), AllocError>
    ensures line { OnOk result (string_bytes text.new ≡ string_bytes text.old ++ ring_line name.now counts) }
{
    text.push_str("ring ")?;
    text.push_str(name)?;
    push_requests(text, counts)?;
    push_records(text, counts)
}

// Appends how many reservations and outputs got a record, and how many were refused.
fn push_requests(text: &mut String, counts: Counts) -> Result<(), AllocError>
    ensures requests { OnOk result (string_bytes text.new ≡ string_bytes text.old ++ requests_part counts) }
{
    write!(text, " made {} refused {} ", counts.made, counts.refused)
}
