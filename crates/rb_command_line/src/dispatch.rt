//! Executes the program's commands.

ghost use Rattle.std.specs.Prelude.{◌≡◌, ◌≤◌, ℕ, List, Option, Ok, IfOk, OnOk};
ghost use Rattle.std.specs.Io.KnownBytes.{Appends, Keeps};
ghost use Rattle.std.specs.declared.fs.File.{File};
ghost use Rattle.rb_json.specs.declared.form.LineForm.TheVariants.{Json, Words};
ghost use Rattle.rb_command_line.specs.Commands.{CarriesOut, CarriesOutOver, Executes, Streams, end_line};
ghost use Rattle.rb_command_line.specs.inner.Endings.{EndsWith, PrintsEnding};

use crate::execution::answer;
use crate::follow_request::carry_out_follow;
use crate::progress::Progress;
use crate::reasons::{Seen, reason_of};
use crate::refusal::{CommandRefusal, object_of};
use crate::request::{CommandLine, ParsedCommand, Subcommand, parse};
use crate::stream_command::carry_out_stream;
use crate::taped_jobs::TapedJobs;
use crate::terminals::Terminals;
use clap::Error;
use clap::error::ErrorKind;
use rb_io::{DeviceFault, NotedReader, NotedWriter, write_whole};
use rb_json::LineForm;
use rb_loader::ProgramFault;
use rb_run_commands::JobsFault;
use rb_service::Host;
use std::alloc::Global;
use std::convert::AsStr;
use std::fs::File;
use std::io::{Eprint, Read, Write};
use std::rt::Files;
use std::sync::Wait;
use std::thread::Threads;
use std::time::Clock;

/// Executes the command that the words name, which follow the program's name on the command line, and returns the
/// program's exit status:
///
/// - 0 if help or the version was printed, or if the command was carried out.
/// - 1 if the command was refused, with a line on `err` that begins with `refused `. With `--why`, that line follows
///   one with the reason. With `--json`, the refusal is also an object on `out`, except for `feed`, `stream`
///   and `follow`.
/// - 2 for wrong usage, which is printed to `err` before anything is read or written.
///
/// The words are parsed by `parse`, and the command is executed by `execute`, whose contract states what a command has
/// done that ends with status 0. Help and the version go to `out` if they are requested. A command with a FILE reads it
/// instead of `input`.
///
/// With `--progress`, or if standard error is a terminal and standard output is not, `feed`, `tape`, `run` and `sim`
/// report their progress about once a second, on the runtime's standard error and not on `err`, and erase it at the
/// end. If standard error is a terminal, `--why` is the default, which `--no-why` turns off.
///
/// `feed`, `tape`, `explain`, `cost` and `sim` never wait for another thread. `check` and `run` hold a ring's lock
/// during each call, and `run` and `stream` start threads.
pub fn command<T, S: AsStr, R: Read + Send, W: Write + Send, E: Write>(
    rt: &T,
    alloc: Global,
    words: &[S],
    terminals: Terminals,
    input: &mut NotedReader<R>,
    out: &mut NotedWriter<W>,
    err: &mut E,
) -> u8
where
    T: Threads + Wait + Sync + Files<File = File> + Clock + Eprint + Host,
    ensures status { result ≤ 2 }
    ensures usage { result ≡ 2 → Keeps (R.remaining input.old) (R.remaining input.new) × Keeps (W.contents out.old) (W.contents out.new) }
{
    match parse(alloc, words, terminals) {
        Ok(asked) => execute(rt, alloc, &asked, input, out, err),
        Err(error) => print_usage(&error, out, err),
    }
}

/// Executes a parsed command, and returns the program's exit status: 0 if the command did what the contract of its own
/// call promises, and 1 if it was refused.
pub fn execute<T, R: Read + Send, W: Write + Send, E: Write>(
    rt: &T,
    alloc: Global,
    asked: &ParsedCommand<'_>,
    input: &mut NotedReader<R>,
    out: &mut NotedWriter<W>,
    err: &mut E,
) -> u8
where
    T: Threads + Wait + Sync + Files<File = File> + Clock + Eprint + Host,
    ensures status { result ≤ 1 }
    ensures carried_out { result ≡ 0 → Executes File (⟦<File as Write>⟧.contents) asked.now (record { input = R.remaining input.old; out_before = W.contents out.old; out_after = W.contents out.new; err_before = E.contents err.old; err_after = E.contents err.new }) }
{
    match asked {
        ParsedCommand::Command(asked) => carry_out_over(rt, alloc, asked, input, out, err),
        ParsedCommand::Stream(options) => carry_out_stream(rt, alloc, options, input, out, err),
        ParsedCommand::Follow(asked) => carry_out_follow(rt, alloc, asked, out, err),
    }
}

// Prints the help or the version if it was requested, and otherwise why the words name no command. Returns the status.
fn print_usage<W: Write, E: Write>(error: &Error, out: &mut W, err: &mut E) -> u8
    ensures status { result ≤ 2 }
    ensures usage { result ≡ 2 → Keeps (W.contents out.old) (W.contents out.new) }
{
    match error.kind() {
        ErrorKind::OutOfMemory => print_refusal(
            &CommandRefusal::Program(ProgramFault::Memory),
            err,
        ),
        ErrorKind::DisplayHelp | ErrorKind::DisplayVersion => match write!(out, "{error}") {
            Ok(()) => 0,
            Err(_) => print_refusal(&CommandRefusal::Program(ProgramFault::Device), err),
        },
        _ => {
            let _ = write!(err, "{error}");
            2
        }
    }
}

// Prints the line of a refusal, and returns the status.
fn print_refusal<E: Write>(refusal: &CommandRefusal, err: &mut E) -> u8
    ensures { result ≡ 1 }
{
    let _ = writeln!(err, "refused {refusal}");
    1
}

// Executes a command over the file that it reads, or over this input if it has none.
fn carry_out_over<T, F: Read + Write + Send + Drop, R: Read, W: Write, E: Write>(
    rt: &T,
    alloc: Global,
    asked: &CommandLine<'_>,
    input: &mut NotedReader<R>,
    out: &mut NotedWriter<W>,
    err: &mut E,
) -> u8
where
    T: Threads + Wait + Sync + Files<File = F> + Clock + Eprint,
    ensures status { result ≤ 1 }
    ensures carried_out { result ≡ 0 → CarriesOutOver F F.contents asked.now (record { input = R.remaining input.old; out_before = W.contents out.old; out_after = W.contents out.new; err_before = E.contents err.old; err_after = E.contents err.new }) }
{
    match asked.file {
        None => carry_out(rt, alloc, asked, input, out, err),
        Some(path) => carry_out_over_file(rt, alloc, asked, path, out, err),
    }
}

// Executes a command over the file of this name.
fn carry_out_over_file<T, F: Read + Write + Send + Drop, W: Write, E: Write>(
    rt: &T,
    alloc: Global,
    asked: &CommandLine<'_>,
    path: &str,
    out: &mut NotedWriter<W>,
    err: &mut E,
) -> u8
where
    T: Threads + Wait + Sync + Files<File = F> + Clock + Eprint,
    ensures status { result ≤ 1 }
    ensures carried_out { result ≡ 0 → (read : Option (List ℕ)) × CarriesOut F F.contents asked.now.request (record { input = read; out_before = W.contents out.old; out_after = W.contents out.new; err_before = E.contents err.old; err_after = E.contents err.new }) }
{
    match File::open(rt, path) {
        Ok(file) => {
            let mut file = NotedReader::new(file);
            carry_out(rt, alloc, asked, &mut file, out, err)
        }
        Err(error) => {
            let seen = Seen::of_unopened(error);
            let refusal = CommandRefusal::Program(ProgramFault::Device);
            tell_refusal(alloc, &refusal, asked, &seen, out, err)
        }
    }
}

// Executes a command over this input, and prints its refusal.
fn carry_out<T, F: Write + Send + Drop, R: Read, W: Write, E: Write>(
    rt: &T,
    alloc: Global,
    asked: &CommandLine<'_>,
    input: &mut NotedReader<R>,
    out: &mut NotedWriter<W>,
    err: &mut E,
) -> u8
where
    T: Threads + Wait + Sync + Files<File = F> + Clock + Eprint,
    ensures status { result ≤ 1 }
    ensures carried_out { result ≡ 0 → CarriesOut F F.contents asked.now.request (record { input = R.remaining input.old; out_before = W.contents out.old; out_after = W.contents out.new; err_before = E.contents err.old; err_after = E.contents err.new }) }
{
    let mut seen = Seen::default();
    match answer_watched(rt, alloc, asked, input, out, err, &mut seen) {
        Ok(ending) => print_ending(err, ending, asked.request.form()),
        Err(refusal) => {
            seen.front = input.front;
            seen.reading = input.error;
            seen.printing = out.error;
            tell_refusal(alloc, &refusal, asked, &seen, out, err)
        }
    }
}

// Executes a command and reports its progress. Returns its result, once the text that it left besides its output is
// written.
fn answer_watched<T, F: Write + Send + Drop, R: Read, W: Write, E: Write>(
    rt: &T,
    alloc: Global,
    asked: &CommandLine<'_>,
    input: &mut R,
    out: &mut W,
    err: &mut E,
    seen: &mut Seen,
) -> Result<Option<(u64, u64)>, CommandRefusal>
where
    T: Threads + Wait + Sync + Files<File = F> + Clock + Eprint,
    ensures carried_out { IfOk result (EndsWith F F.contents asked.now.request (record { input = R.remaining input.old; out_before = W.contents out.old; out_after = W.contents out.new; err_before = E.contents err.old; err_after = E.contents err.new })) }
{
    let progress = Progress::new(
        rt,
        asked.progress,
        asked.request.jobs(),
        taped_jobs(alloc, asked),
    );
    let mut told = Vec::new(alloc);
    let answer = answer(rt, alloc, asked, &progress, input, out, &mut told, seen);
    progress.end();
    and_told(answer, told.as_slice(), err)
}

// Writes the text that a command left besides its output, and returns the command's result. If the write fails, that is
// a refusal too.
fn and_told<E: Write>(
    answer: Result<Option<(u64, u64)>, CommandRefusal>,
    told: &[u8],
    err: &mut E,
) -> Result<Option<(u64, u64)>, CommandRefusal>
    ensures told { IfOk result (λ ending. (answer ≡ Ok ending) × Appends (E.contents err.old) (E.contents err.new) told.now) }
{
    let printed = print_told(told, err);
    let ending = answer?;
    match printed {
        Ok(()) => Ok(ending),
        Err(_) => Err(CommandRefusal::Jobs(JobsFault::Program(ProgramFault::Device))),
    }
}

// Writes this text, if it is not empty.
fn print_told<E: Write>(told: &[u8], err: &mut E) -> Result<(), DeviceFault>
    ensures written { OnOk result (Appends (E.contents err.old) (E.contents err.new) told.now) }
{
    if told.is_empty() {
        return Ok(());
    }
    write_whole(err, told)
}

// Returns a counter for the jobs of a run that writes a tape, if the run reports its progress and memory for the
// counter can be allocated.
fn taped_jobs(alloc: Global, asked: &CommandLine<'_>) -> Option<TapedJobs> {
    match asked.request {
        Subcommand::Run {
            jobs,
            tape: Some(_),
        } if asked.progress => TapedJobs::new(alloc, jobs.workers, u64::from(jobs.jobs)).ok(),
        _ => None,
    }
}

// Prints a refusal: its reason and its object if they are requested, and its line. Returns the status.
fn tell_refusal<W: Write, E: Write>(
    alloc: Global,
    refusal: &CommandRefusal,
    asked: &CommandLine<'_>,
    seen: &Seen,
    out: &mut W,
    err: &mut E,
) -> u8
    ensures { result ≡ 1 }
{
    let cause = refusal.cause();
    let reason = if asked.why {
        reason_of(alloc, cause, asked, seen).ok()
    } else {
        None
    };
    if let Some(reason) = &reason {
        let _ = writeln!(err, "{reason}");
    }
    let status = print_refusal(refusal, err);
    if asked.request.prints_object() {
        let reason = reason.as_ref().map(|reason| reason.as_str());
        if let Ok(object) = object_of(alloc, cause, reason) {
            let _ = write_whole(out, object.as_slice());
        }
    }
    status
}

// Prints where a tape that `feed` wrote ends, if the command is `feed`. Returns the status.
fn print_ending<E: Write>(err: &mut E, ending: Option<(u64, u64)>, form: LineForm) -> u8
    ensures status { result ≤ 1 }
    ensures told { result ≡ 0 → PrintsEnding form ending (E.contents err.old) (E.contents err.new) }
{
    match ending {
        None => 0,
        Some(end) => print_end(err, end, form),
    }
}

// Prints the producer position and the consumer position at the end of a tape. Returns the status.
fn print_end<E: Write>(err: &mut E, end: (u64, u64), form: LineForm) -> u8
    ensures status { result ≤ 1 }
    ensures told { result ≡ 0 → Appends (E.contents err.old) (E.contents err.new) (end_line form end) }
{
    match form {
        LineForm::Words => print_end_words(err, end),
        LineForm::Json => print_end_object(err, end),
    }
}

// Prints these positions in words.
fn print_end_words<E: Write>(err: &mut E, end: (u64, u64)) -> u8
    ensures status { result ≤ 1 }
    ensures told { result ≡ 0 → Appends (E.contents err.old) (E.contents err.new) (end_line Words end) }
{
    let (producer, consumer) = end;
    match writeln!(err, "producer {producer} consumer {consumer}") {
        Ok(()) => 0,
        Err(_) => 1,
    }
}

// Prints these positions as an object.
fn print_end_object<E: Write>(err: &mut E, end: (u64, u64)) -> u8
    ensures status { result ≤ 1 }
    ensures told { result ≡ 0 → Appends (E.contents err.old) (E.contents err.new) (end_line Json end) }
{
    let (producer, consumer) = end;
    match writeln!(err, "{{\"producer\":{producer},\"consumer\":{consumer}}}") {
        Ok(()) => 0,
        Err(_) => 1,
    }
}
