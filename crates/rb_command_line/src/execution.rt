//! Executes one command over a reader and two writers.

ghost use Rattle.std.specs.Prelude.{◌≡◌, ℕ, List, Option, Some, IfOk, IfSome, OnOk, is_some};
ghost use Rattle.std.specs.Io.KnownBytes.{Appends};
ghost use Rattle.rb_history.specs.RingModel.{IsRingSize, IsStartPosition};
ghost use Rattle.rb_history.specs.TapeBytes.{AreItemsFrom, Item, tape};
ghost use Rattle.rb_script.specs.Simulated.{PrintsSim};
ghost use Rattle.rb_tape_commands.specs.Feed.{FeedsWhole};
ghost use Rattle.rb_tape_commands.specs.TapeText.{tape_lines};
ghost use Rattle.rb_command_line.specs.Commands.{RunsJobs};
ghost use Rattle.rb_command_line.specs.inner.Endings.{EndsWith};

use crate::cost_sizes::cost_with_sizes;
use crate::progress::{Metered, Progress};
use crate::reasons::Seen;
use crate::refusal::CommandRefusal;
use crate::request::{CommandLine, Subcommand};
use rb_json::LineForm;
use rb_loader::{ProgramFault, explain, read_all};
use rb_run_commands::{JobsFault, JobsRequest, TapeFile, check, run};
use rb_script::{SimFault, line_reason, sim};
use rb_tape_commands::{FeedFault, TapeRefusal, feed_buffered, tape_buffered};
use std::alloc::Global;
use std::io::{Eprint, Read, Write};
use std::rt::Files;
use std::sync::Wait;
use std::thread::Threads;
use std::time::Clock;

/// Executes a command. Returns where the tape of `feed` ends, its producer position and its consumer position, and
/// nothing for other commands; or why the command was refused. Leaves the text for standard error, besides the output,
/// in `told`.
pub(crate) fn answer<T, F: Write + Send + Drop, R: Read, W: Write>(
    rt: &T,
    alloc: Global,
    asked: &CommandLine<'_>,
    progress: &Progress<'_, T>,
    input: &mut R,
    out: &mut W,
    told: &mut Vec<u8>,
    seen: &mut Seen,
) -> Result<Option<(u64, u64)>, CommandRefusal>
where
    T: Threads + Wait + Sync + Files<File = F> + Clock + Eprint,
    ensures ended { IfOk result (EndsWith F F.contents asked.now.request (record { input = R.remaining input.old; out_before = W.contents out.old; out_after = W.contents out.new; err_before = Some told.old.items; err_after = Some told.new.items })) }
{
    match asked.request {
        Subcommand::Feed {
            size,
            start,
            retries,
            form: _,
        } => {
            let ends = feed_metered(alloc, input, out, progress, size, start, retries)?;
            Ok(Some(ends))
        }
        Subcommand::Tape { size, start, form } => {
            tape_metered(alloc, input, out, progress, size, start, form)?;
            Ok(None)
        }
        Subcommand::Check {
            bounds,
            form,
            portable,
        } => {
            check(rt, alloc, input, out, bounds, form, portable, progress)?;
            Ok(None)
        }
        Subcommand::Explain {
            bounds,
            form,
            portable,
        } => {
            explain(alloc, input, out, bounds, form, portable)?;
            Ok(None)
        }
        Subcommand::Cost {
            bounds,
            form,
            sizes,
        } => {
            cost_with_sizes(alloc, input, out, bounds, form, sizes)?;
            Ok(None)
        }
        Subcommand::Run { jobs, tape } => {
            run_reported(rt, alloc, input, out, told, jobs, tape, progress, seen)?;
            Ok(None)
        }
        Subcommand::Sim { draw, form } => {
            sim_reported(alloc, input, out, progress, draw, form, asked.why, seen)?;
            Ok(None)
        }
    }
}

// Writes the tape of the payloads, and reports the progress. Returns where the tape ends.
fn feed_metered<T: Clock + Eprint, R: Read, W: Write>(
    alloc: Global,
    input: &mut R,
    out: &mut W,
    progress: &Progress<'_, T>,
    size: u64,
    start: u64,
    retries: u32,
) -> Result<(u64, u64), FeedFault>
    ensures bounds { OnOk result (IsRingSize size × IsStartPosition start) }
    ensures fed { IfOk result (λ ends. (left : Option (List ℕ)) × FeedsWhole (record { size = size; start = start; input_before = R.remaining input.old; input_after = left; output_before = W.contents out.old; output_after = W.contents out.new }) ends) }
{
    let mut input = Metered::new(input, progress);
    feed_buffered(alloc, &mut input, out, size, start, retries)
}

// Prints the records of a tape, and reports the progress.
fn tape_metered<T: Clock + Eprint, R: Read, W: Write>(
    alloc: Global,
    input: &mut R,
    out: &mut W,
    progress: &Progress<'_, T>,
    size: u64,
    start: u64,
    form: LineForm,
) -> Result<(), TapeRefusal>
    ensures bounds { OnOk result (IsRingSize size × IsStartPosition start) }
    ensures printed { OnOk result ((items : List Item) × AreItemsFrom size start items × IfSome (R.remaining input.old) (λ bytes. bytes ≡ tape size items) × Appends (W.contents out.old) (W.contents out.new) (tape_lines form items)) }
{
    let mut input = Metered::new(input, progress);
    tape_buffered(alloc, &mut input, out, size, start, form)
}

// Runs jobs, with a tape if a file is named. Stores what failed at the file.
fn run_reported<T, F: Write + Send + Drop, R: Read, W: Write>(
    rt: &T,
    alloc: Global,
    input: &mut R,
    out: &mut W,
    told: &mut Vec<u8>,
    jobs: JobsRequest,
    tape: Option<&str>,
    progress: &Progress<'_, T>,
    seen: &mut Seen,
) -> Result<(), JobsFault>
where
    T: Threads + Wait + Sync + Files<File = F> + Clock + Eprint,
    ensures ran { OnOk result (RunsJobs F F.contents jobs (is_some tape.entry) (record { input = R.remaining input.old; out_before = W.contents out.old; out_after = W.contents out.new; err_before = Some told.old.items; err_after = Some told.new.items })) }
{
    let mut file = TapeFile {
        path: tape,
        fault: None,
    };
    let answer = run(rt, alloc, input, out, told, jobs, &mut file, progress);
    seen.file = file.fault;
    answer
}

// Runs a script. Stores what was expected at a line that is refused, if reasons or objects are requested.
fn sim_reported<T: Clock + Eprint, R: Read, W: Write>(
    alloc: Global,
    input: &mut R,
    out: &mut W,
    progress: &Progress<'_, T>,
    draw: bool,
    form: LineForm,
    why: bool,
    seen: &mut Seen,
) -> Result<(), SimFault>
    ensures printed { OnOk result (IfSome (R.remaining input.old) (λ text. PrintsSim form draw text (W.contents out.old) (W.contents out.new))) }
{
    match form {
        LineForm::Words if !why => sim(alloc, input, out, draw, form, progress),
        _ => sim_kept(alloc, input, out, progress, draw, form, seen),
    }
}

// Runs a script that is read whole, so that what was expected at a line can be stored.
fn sim_kept<T: Clock + Eprint, R: Read, W: Write>(
    alloc: Global,
    input: &mut R,
    out: &mut W,
    progress: &Progress<'_, T>,
    draw: bool,
    form: LineForm,
    seen: &mut Seen,
) -> Result<(), SimFault>
    ensures printed { OnOk result (IfSome (R.remaining input.old) (λ text. PrintsSim form draw text (W.contents out.old) (W.contents out.new))) }
{
    let script = match read_all(alloc, input) {
        Ok(script) => script,
        Err(ProgramFault::Memory) => return Err(SimFault::Memory),
        Err(_) => return Err(SimFault::Device),
    };
    let mut text = script.as_slice();
    let answer = sim(alloc, &mut text, out, draw, form, progress);
    if let Err(SimFault::Line(line)) = answer {
        seen.line = line_reason(alloc, script.as_slice(), line).ok();
    }
    answer
}
