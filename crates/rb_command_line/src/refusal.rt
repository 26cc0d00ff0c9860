//! The refusal of any command, as one value.

use rb_json::{push_field, push_text};
use rb_loader::ProgramFault;
use rb_program::{DecodeKind, ShapeFaultKind};
use rb_run_commands::JobsFault;
use rb_script::SimFault;
use rb_tape::TapeKind;
use rb_tape_commands::{FeedFault, TapeRefusal};
use std::alloc::{AllocError, Global};
use std::fmt;
use std::fmt::{Debug, Display, Formatter};

/// The refusal of any command, which is displayed like the command's own.
#[derive(Clone, Copy)]
pub(crate) enum CommandRefusal {
    /// A refusal of `feed`.
    Feed(FeedFault),
    /// A refusal of `tape`.
    Tape(TapeRefusal),
    /// A refusal of `check`, `explain` or `cost`.
    Program(ProgramFault),
    /// A refusal of `run`.
    Jobs(JobsFault),
    /// A refusal of `sim`.
    Sim(SimFault),
}

impl From<FeedFault> for CommandRefusal {
    fn from(fault: FeedFault) -> CommandRefusal {
        CommandRefusal::Feed(fault)
    }
}

impl From<TapeRefusal> for CommandRefusal {
    fn from(refusal: TapeRefusal) -> CommandRefusal {
        CommandRefusal::Tape(refusal)
    }
}

impl From<ProgramFault> for CommandRefusal {
    fn from(fault: ProgramFault) -> CommandRefusal {
        CommandRefusal::Program(fault)
    }
}

impl From<JobsFault> for CommandRefusal {
    fn from(fault: JobsFault) -> CommandRefusal {
        CommandRefusal::Jobs(fault)
    }
}

impl From<SimFault> for CommandRefusal {
    fn from(fault: SimFault) -> CommandRefusal {
        CommandRefusal::Sim(fault)
    }
}

impl Display for CommandRefusal {
    fn fmt<W: fmt::Write>(&self, f: &mut Formatter<W>) -> fmt::Result {
        match self {
            CommandRefusal::Feed(fault) => Display::fmt(fault, f),
            CommandRefusal::Tape(refusal) => Display::fmt(refusal, f),
            CommandRefusal::Program(fault) => Display::fmt(fault, f),
            CommandRefusal::Jobs(fault) => Display::fmt(fault, f),
            CommandRefusal::Sim(fault) => Display::fmt(fault, f),
        }
    }
}

/// Why a command was refused, for any command.
#[derive(Clone, Copy)]
pub(crate) enum Cause {
    /// The program's text is not hex.
    Text,
    /// The program's bytes have a fault at this unit.
    Decode(DecodeKind, u32),
    /// The program's shape has a fault at this unit.
    Shape(ShapeFaultKind, u32),
    /// The rule with this number is broken at this unit.
    Verify(u32, u32),
    /// The ring's size is wrong.
    Size,
    /// The ring's first position is wrong.
    Start,
    /// The number of workers is wrong.
    Workers,
    /// A record of the tape has a fault. The second number is the number of bytes before the record.
    Record(TapeKind, u64),
    /// The payload with this number does not fit in the ring.
    Fit(u64),
    /// The input ends inside the payload with this number.
    Ends(u64),
    /// The line with this number, counted from 1, is refused.
    Line(usize),
    /// Memory could not be allocated.
    Memory,
    /// A read or a write failed, or a file could not be opened or created.
    Device,
}

impl CommandRefusal {
    /// Returns the cause of the refusal.
    pub(crate) fn cause(&self) -> Cause {
        match *self {
            CommandRefusal::Feed(fault) => feed_cause(fault),
            CommandRefusal::Tape(refusal) => tape_cause(refusal),
            CommandRefusal::Program(fault) => program_cause(fault),
            CommandRefusal::Jobs(fault) => jobs_cause(fault),
            CommandRefusal::Sim(fault) => sim_cause(fault),
        }
    }
}

fn feed_cause(fault: FeedFault) -> Cause {
    match fault {
        FeedFault::Size => Cause::Size,
        FeedFault::Start => Cause::Start,
        FeedFault::Fit(payload) => Cause::Fit(payload),
        FeedFault::Ends(payload) => Cause::Ends(payload),
        FeedFault::Memory => Cause::Memory,
        FeedFault::Device => Cause::Device,
    }
}

fn tape_cause(refusal: TapeRefusal) -> Cause {
    match refusal {
        TapeRefusal::Size => Cause::Size,
        TapeRefusal::Start => Cause::Start,
        TapeRefusal::Record { kind, offset } => Cause::Record(kind, offset),
        TapeRefusal::Memory => Cause::Memory,
        TapeRefusal::Device => Cause::Device,
    }
}

fn program_cause(fault: ProgramFault) -> Cause {
    match fault {
        ProgramFault::Text => Cause::Text,
        ProgramFault::Decode { kind, unit } => Cause::Decode(kind, unit),
        ProgramFault::Shape { kind, unit } => Cause::Shape(kind, unit),
        ProgramFault::Verify { rule, unit } => Cause::Verify(rule, unit),
        ProgramFault::Memory => Cause::Memory,
        ProgramFault::Device => Cause::Device,
    }
}

fn jobs_cause(fault: JobsFault) -> Cause {
    match fault {
        JobsFault::Program(fault) => program_cause(fault),
        JobsFault::Size => Cause::Size,
        JobsFault::Start => Cause::Start,
        JobsFault::Workers => Cause::Workers,
    }
}

fn sim_cause(fault: SimFault) -> Cause {
    match fault {
        SimFault::Line(line) => Cause::Line(line),
        SimFault::Memory => Cause::Memory,
        SimFault::Device => Cause::Device,
    }
}

/// Returns the refusal as a JSON object, with the reason if there is one.
pub(crate) fn object_of(
    alloc: Global,
    cause: Cause,
    reason: Option<&str>,
) -> Result<Vec<u8>, AllocError> {
    let mut line = Vec::new(alloc);
    line.extend_from_slice(b"{\"refused\":")?;
    push_fields(alloc, &mut line, cause)?;
    if let Some(reason) = reason {
        line.extend_from_slice(b",\"why\":")?;
        push_text(alloc, &mut line, reason)?;
    }
    line.extend_from_slice(b"}\n")?;
    Ok(line)
}

// Appends the kind of the refusal, and the fields after it.
fn push_fields(alloc: Global, line: &mut Vec<u8>, cause: Cause) -> Result<(), AllocError> {
    match cause {
        Cause::Text => line.extend_from_slice(b"\"text\""),
        Cause::Decode(kind, unit) => {
            push_kind(alloc, line, b"\"decode\"", &kind)?;
            push_field(line, b",\"unit\":", u64::from(unit))
        }
        Cause::Shape(kind, unit) => {
            push_kind(alloc, line, b"\"shape\"", &kind)?;
            push_field(line, b",\"unit\":", u64::from(unit))
        }
        Cause::Verify(rule, unit) => {
            push_field(line, b"\"verify\",\"rule\":", u64::from(rule))?;
            push_field(line, b",\"unit\":", u64::from(unit))
        }
        Cause::Size => line.extend_from_slice(b"\"size\""),
        Cause::Start => line.extend_from_slice(b"\"start\""),
        Cause::Workers => line.extend_from_slice(b"\"workers\""),
        Cause::Record(kind, offset) => {
            push_kind(alloc, line, b"\"tape\"", &kind)?;
            push_field(line, b",\"offset\":", offset)
        }
        Cause::Fit(payload) => push_field(line, b"\"fit\",\"payload\":", payload),
        Cause::Ends(payload) => push_field(line, b"\"ends\",\"payload\":", payload),
        Cause::Line(number) => push_field(line, b"\"line\",\"line\":", number as u64),
        Cause::Memory => line.extend_from_slice(b"\"memory\""),
        Cause::Device => line.extend_from_slice(b"\"device\""),
    }
}

// Appends this text, and then the kind as a field.
fn push_kind<K: Debug>(
    alloc: Global,
    line: &mut Vec<u8>,
    front: &[u8],
    kind: &K,
) -> Result<(), AllocError> {
    let field = format!(in alloc; ",\"kind\":\"{kind:?}\"")?;
    line.extend_from_slice(front)?;
    line.extend_from_slice(field.as_bytes())
}
