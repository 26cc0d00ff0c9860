//! The reasons of refusals, in words for people. Each is worded here and nowhere else.

use crate::bounds::{SIZES, STARTS, WORKERS};
use crate::refusal::Cause;
use crate::request::{CommandLine, Subcommand};
use rb_history::POSITION_LIMIT;
use rb_io::Front;
use rb_program::DecodeKind;
use rb_run_commands::TapeFileFault;
use rb_tape::TapeKind;
use std::alloc::{AllocError, Global};
use std::fmt::Display;
use std::io::Error;

/// What was observed of a command's input and outputs.
#[derive(Default, Drop)]
pub(crate) struct Seen {
    /// The front of the input.
    pub front: Front,
    /// The error with which the input could not be opened.
    pub opening: Option<Error>,
    /// The error of the last read of the input, if it failed.
    pub reading: Option<Error>,
    /// The error of the last write to standard output, if it failed.
    pub printing: Option<Error>,
    /// What failed at the file of a tape.
    pub file: Option<TapeFileFault>,
    /// What was expected at a script's line that is refused.
    pub line: Option<String>,
}

impl Seen {
    /// Returns what was observed of an input that could not be opened.
    pub(crate) fn of_unopened(error: Error) -> Seen {
        Seen {
            front: Front::default(),
            opening: Some(error),
            reading: None,
            printing: None,
            file: None,
            line: None,
        }
    }
}

/// Returns the reason of a refusal: what was requested, with its bounds, or what was observed.
pub(crate) fn reason_of(
    alloc: Global,
    cause: Cause,
    asked: &CommandLine<'_>,
    seen: &Seen,
) -> Result<String, AllocError> {
    let name = input_name(alloc, asked.file)?;
    input_reason(alloc, cause, &asked.request, name.as_str(), seen)
}

// Returns the name of the input.
fn input_name(alloc: Global, file: Option<&str>) -> Result<String, AllocError> {
    match file {
        Some(path) => printable(alloc, path),
        None => String::from_str(alloc, "standard input"),
    }
}

// Returns the reason of a refusal, given the name of the input.
fn input_reason(
    alloc: Global,
    cause: Cause,
    request: &Subcommand<'_>,
    input: &str,
    seen: &Seen,
) -> Result<String, AllocError> {
    match cause {
        Cause::Text => text_reason(alloc, input, seen.front),
        Cause::Decode(DecodeKind::Length, _) => length_reason(alloc, input, seen.front),
        Cause::Decode(kind, unit) => unit_reason(alloc, unit, &kind, request),
        Cause::Shape(kind, unit) => unit_reason(alloc, unit, &kind, request),
        Cause::Verify(rule, unit) => rule_reason(alloc, rule, unit, request),
        Cause::Size => option_reason(alloc, "size", request.size(), SIZES),
        Cause::Start => option_reason(alloc, "start", request.start(), STARTS),
        Cause::Workers => option_reason(alloc, "workers", request.workers(), WORKERS),
        Cause::Record(kind, offset) => record_reason(alloc, kind, offset, input),
        Cause::Fit(payload) => fit_reason(alloc, payload, request.size()),
        Cause::Ends(payload) => end_reason(alloc, payload, input, seen.front.count),
        Cause::Line(line) => line_reason(alloc, line, &seen.line),
        Cause::Memory => memory_reason(alloc, request),
        Cause::Device => device_reason(alloc, request, input, seen),
    }
}

// Returns what is wrong with a unit of a program.
fn unit_reason<K: Display>(
    alloc: Global,
    unit: u32,
    kind: &K,
    request: &Subcommand<'_>,
) -> Result<String, AllocError> {
    format!(in alloc; "unit {unit}: {kind}; {}", mending(request))
}

// Returns which rule a program breaks.
fn rule_reason(
    alloc: Global,
    rule: u32,
    unit: u32,
    request: &Subcommand<'_>,
) -> Result<String, AllocError> {
    format!(in alloc;
        "unit {unit} breaks rule V{rule}; {}{}",
        mending(request),
        fixed_bounds(request)
    )
}

// Returns where the author of a program finds out more.
fn mending(request: &Subcommand<'_>) -> &'static str {
    match request {
        Subcommand::Explain { .. } =>
            "standard output shows what is required and how to fix the program",
        _ => "`rbhost explain` shows what is required and how to fix the program",
    }
}

// Returns what a program of `run` is verified for, which no option changes.
fn fixed_bounds(request: &Subcommand<'_>) -> &'static str {
    match request {
        Subcommand::Run { .. } => "; a job of `run` has a context of 16 bytes and one ring",
        _ => "",
    }
}

// Returns an option with its value and its bounds.
fn option_reason(
    alloc: Global,
    name: &str,
    value: u64,
    bounds: &str,
) -> Result<String, AllocError> {
    format!(in alloc; "--{name} {value}: {bounds}")
}

// Returns why a text is not a program in hex.
fn text_reason(alloc: Global, input: &str, front: Front) -> Result<String, AllocError> {
    match front.odd {
        Some((0, 0x7f)) => format!(in alloc;
            "{input} is an ELF object: `tools/bpf-hex FILE.o` prints its hex"
        ),
        Some((at, byte)) if byte.is_ascii_graphic() => format!(in alloc;
            "byte {at} of {input} is '{}', neither a hex digit nor white space",
            byte as char
        ),
        Some((at, byte)) => format!(in alloc;
            "byte {at} of {input} is {byte:#04x}: these are raw bytes, and a program is text in hex, as `xxd -p` prints it"
        ),
        None if front.digits % 2 == 1 => format!(in alloc;
            "{input} has {} hex digits, and a byte has two",
            front.digits
        ),
        None => format!(in alloc; "{input} is not text in hex"),
    }
}

// Returns why the number of a program's bytes is wrong.
fn length_reason(alloc: Global, input: &str, front: Front) -> Result<String, AllocError> {
    if front.digits == 0 {
        return format!(in alloc;
            "{input} is empty: it has {} bytes and no hex digit",
            front.count
        );
    }
    format!(in alloc;
        "the program has {} bytes, and a program has units of 8 bytes, sixteen hex digits each",
        front.digits / 2
    )
}

// Returns why a payload does not fit in a ring of this size.
fn fit_reason(alloc: Global, payload: u64, size: u64) -> Result<String, AllocError> {
    let most = size.saturating_sub(16);
    format!(in alloc;
        "payload {payload}: a ring of {size} bytes holds payloads of up to {most} bytes, and positions end at {POSITION_LIMIT}"
    )
}

// Returns where the input ends inside a payload.
fn end_reason(alloc: Global, payload: u64, input: &str, count: u64) -> Result<String, AllocError> {
    format!(in alloc;
        "{input} has {count} bytes, and ends inside payload {payload} or the four bytes of its length"
    )
}

// Returns what was expected at a line of a script.
fn line_reason(
    alloc: Global,
    line: usize,
    expected: &Option<String>,
) -> Result<String, AllocError> {
    match expected {
        Some(expected) => String::from_str(alloc, expected.as_str()),
        None => format!(in alloc; "line {line} of the script"),
    }
}

// Returns which record of a tape is wrong, and what is wrong with it.
fn record_reason(
    alloc: Global,
    kind: TapeKind,
    offset: u64,
    input: &str,
) -> Result<String, AllocError> {
    if kind == TapeKind::Truncated {
        return format!(in alloc; "the record at byte {offset}: {input} ends inside it");
    }
    let words = record_words(kind);
    format!(in alloc; "the record at byte {offset}: {words}")
}

// Returns what is wrong with a record of a tape.
fn record_words(kind: TapeKind) -> &'static str {
    match kind {
        TapeKind::Busy => "its header has the busy bit, which no consumed record has",
        TapeKind::Page => {
            "its header has the page offset of another position: check --size and --start"
        }
        TapeKind::Padding => "its padding to a multiple of 8 bytes is not zeros",
        TapeKind::TooLong => "it does not fit in a ring of this --size, or ends past position 2^62",
        TapeKind::DiscardedBytes => "it was discarded, but its bytes are not zeros",
        TapeKind::Truncated => "it is truncated",
        TapeKind::Memory => "there is not enough memory for it",
    }
}

fn memory_reason(alloc: Global, request: &Subcommand<'_>) -> Result<String, AllocError> {
    match request {
        Subcommand::Run { jobs, .. } => {
            let count = jobs.workers.saturating_mul(u64::from(jobs.jobs));
            format!(in alloc;
                "there is not enough memory: the list of {count} jobs alone takes {} bytes",
                count.saturating_mul(52)
            )
        }
        _ => String::from_str(alloc, "there is not enough memory"),
    }
}

// Returns which operation failed on which of the command's files.
fn device_reason(
    alloc: Global,
    request: &Subcommand<'_>,
    input: &str,
    seen: &Seen,
) -> Result<String, AllocError> {
    if let Some(error) = seen.opening {
        return failure(alloc, "open", input, error);
    }
    if let Some(fault) = seen.file {
        return file_reason(alloc, request.tape(), fault);
    }
    if let Some(error) = seen.reading {
        return failure(alloc, "read", input, error);
    }
    match seen.printing {
        Some(error) => failure(alloc, "write to", "standard output", error),
        None => full_reason(alloc, "standard output"),
    }
}

// Returns which operation failed on which file, with the system's message.
fn failure(alloc: Global, operation: &str, name: &str, error: Error) -> Result<String, AllocError> {
    let words = words_of(alloc, error)?;
    format!(in alloc; "cannot {operation} {name}: {words}")
}

// Returns that a file accepts no more bytes.
fn full_reason(alloc: Global, name: &str) -> Result<String, AllocError> {
    format!(in alloc; "cannot write to {name}: it takes no more bytes")
}

// Returns what failed at the file of a tape.
fn file_reason(alloc: Global, path: &str, fault: TapeFileFault) -> Result<String, AllocError> {
    let path = printable(alloc, path)?;
    match fault {
        TapeFileFault::Opening(error) => failure(alloc, "open", path.as_str(), error),
        TapeFileFault::Writing(Some(error)) => failure(alloc, "write to", path.as_str(), error),
        TapeFileFault::Writing(None) => full_reason(alloc, path.as_str()),
    }
}

// Returns the name of a file, quoted if it has control characters, which would break a line.
fn printable(alloc: Global, path: &str) -> Result<String, AllocError> {
    if path.chars().any(|c| c.is_control()) {
        return format!(in alloc; "{path:?}");
    }
    String::from_str(alloc, path)
}

// Returns the system's message for an error, without its number.
fn words_of(alloc: Global, error: Error) -> Result<String, AllocError> {
    let text = format!(in alloc; "{error}")?;
    match text.as_str().split_once(" (os error") {
        Some((words, _)) => String::from_str(alloc, words),
        None => String::from_str(alloc, text.as_str()),
    }
}
