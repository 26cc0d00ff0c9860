//! The table of the commands and their options.

/// A command.
#[derive(Clone, Copy)]
pub(crate) struct CommandRow {
    /// Its name.
    pub name: &'static str,
    /// What it does.
    pub about: &'static str,
    /// An example, which is printed after the options.
    pub example: &'static str,
    /// Its options, in the order in which help prints them.
    pub options: &'static [OptionRow],
}

/// An option of a command.
#[derive(Clone, Copy)]
pub(crate) struct OptionRow {
    /// Its name.
    pub name: &'static str,
    /// How it is written.
    pub shape: OptionShape,
    /// What it does.
    pub help: &'static str,
}

/// How an option is written. The first text of each shape with a value is what help calls the value.
#[derive(Clone, Copy)]
pub(crate) enum OptionShape {
    /// `--name`.
    Flag,
    /// `--name`, which excludes the option with this name.
    FlagWithout(&'static str),
    /// `--name VALUE`.
    Value(&'static str),
    /// `--name VALUE`, with a default.
    Default(&'static str, &'static str),
    /// `--name VALUE`, which needs the option with the second name.
    ValueWith(&'static str, &'static str),
    /// `--name VALUE`, which is required.
    Required(&'static str),
    /// `--name VALUE`, any number of times.
    Values(&'static str),
    /// `--name VALUE`, one or more times.
    RequiredValues(&'static str),
    /// `VALUE`, without the name.
    Operand(&'static str),
    /// `VALUE`, without the name, which is required.
    RequiredOperand(&'static str),
}

/// The commands other than those of streams, in the order in which help prints them.
pub(crate) static COMMANDS: [CommandRow; 7] = [FEED, TAPE, CHECK, EXPLAIN, COST, RUN, SIM];

const FEED: CommandRow = CommandRow {
    name: "feed",
    about: "Writes the tape of payloads, each read as a length in four bytes and that many bytes",
    example: "Example: printf '\\001\\000\\000\\000*' | rbhost feed --size 4096",
    options: &[SIZE, START, RETRY, JSON, WHY, NO_WHY, PROGRESS, FILE],
};

const TAPE: CommandRow = CommandRow {
    name: "tape",
    about: "Reads a tape, and prints a line for each of its records",
    example: "Example: printf '\\001\\000\\000\\000*' | rbhost feed --size 4096 | rbhost tape --size 4096",
    options: &[SIZE, START, JSON, WHY, NO_WHY, PROGRESS, FILE],
};

const CHECK: CommandRow = CommandRow {
    name: "check",
    about: "Verifies a program, given as text in hex, and runs it once",
    example: "Example: tools/bpf-hex examples/c/event.c | rbhost check",
    options: &[CTX, RINGS, PORTABLE, JSON, WHY, NO_WHY, FILE],
};

const EXPLAIN: CommandRow = CommandRow {
    name: "explain",
    about: "Explains a program, given as text in hex: what is known before each instruction and what it can cost at most, or what is wrong and how to fix it",
    example: "Example: tools/bpf-hex examples/c/event.c | rbhost explain",
    options: &[CTX, RINGS, PORTABLE, JSON, WHY, NO_WHY, FILE],
};

const COST: CommandRow = CommandRow {
    name: "cost",
    about: "Verifies a program, given as text in hex, and prints what it can cost at most: steps, calls, and records and bytes of each ring",
    example: "Example: tools/bpf-hex examples/c/event.c | rbhost cost --workers 4 --behind 8",
    options: &[CTX, RINGS, AT_ONCE, BEHIND, JSON, WHY, NO_WHY, FILE],
};

const RUN: CommandRow = CommandRow {
    name: "run",
    about: "Verifies a program, given as text in hex, and runs it as jobs on threads over one ring",
    example: "Example: rbhost run --workers 4 --jobs 100 --size 4096 < examples/submit_42.hex",
    options: &[
        WORKERS, JOBS, SIZE, START, TAPE_FILE, JSON, WHY, NO_WHY, PROGRESS, FILE,
    ],
};

const SIM: CommandRow = CommandRow {
    name: "sim",
    about: "Runs a script of workers and rings in turns, without threads",
    example: "Example: printf 'ring 4096 0\\nworker b7000000000000009500000000000000\\nw 0 2\\n' | rbhost sim",
    options: &[DRAW, JSON, WHY, NO_WHY, PROGRESS, FILE],
};

const WORKERS: OptionRow = OptionRow {
    name: "workers",
    shape: OptionShape::Required("W"),
    help: "How many workers there are, each on a thread of its own: 1 to 256",
};

const AT_ONCE: OptionRow = OptionRow {
    name: "workers",
    shape: OptionShape::Value("W"),
    help: "How many workers run the program at once, for the size of a ring: 1 to 256; without --behind, they wait for room as those of stream --full wait",
};

const BEHIND: OptionRow = OptionRow {
    name: "behind",
    shape: OptionShape::ValueWith("J", "workers"),
    help: "How many finished jobs the consumer may be behind: 0 to 1000000",
};

const JOBS: OptionRow = OptionRow {
    name: "jobs",
    shape: OptionShape::Required("J"),
    help: "How often each worker runs the program: 1 to 1000000",
};

const TAPE_FILE: OptionRow = OptionRow {
    name: "tape",
    shape: OptionShape::Value("FILE"),
    help: "A file that the tape of all that the ring's consumer takes is written to",
};

const CTX: OptionRow = OptionRow {
    name: "ctx",
    shape: OptionShape::Default("N", "16"),
    help: "The length of the context in bytes, at most 65536; K is allowed, as in 1K",
};

const RINGS: OptionRow = OptionRow {
    name: "rings",
    shape: OptionShape::Default("N", "1"),
    help: "How many rings the program knows, at most 16",
};

const SIZE: OptionRow = OptionRow {
    name: "size",
    shape: OptionShape::Required("N"),
    help: "The ring's size in bytes: a power of two from 4096 to 67108864. K and M are allowed, as in 64K",
};

const START: OptionRow = OptionRow {
    name: "start",
    shape: OptionShape::Default("P", "0"),
    help: "The ring's first position: a multiple of 8",
};

const RETRY: OptionRow = OptionRow {
    name: "retry",
    shape: OptionShape::Default("N", "0"),
    help: "How often writing goes on after a write that failed, at most 100",
};

const JSON: OptionRow = OptionRow {
    name: "json",
    shape: OptionShape::Flag,
    help: "Print an object of JSON in the place of each line",
};

const WHY: OptionRow = OptionRow {
    name: "why",
    shape: OptionShape::Flag,
    help: "Print the reason of a refusal in front of it, as is done if standard error is a terminal",
};

const NO_WHY: OptionRow = OptionRow {
    name: "no-why",
    shape: OptionShape::FlagWithout("why"),
    help: "Print no reason of a refusal",
};

const FILE: OptionRow = OptionRow {
    name: "file",
    shape: OptionShape::Operand("FILE"),
    help: "The file to read; standard input if there is none or it is -",
};

const PROGRESS: OptionRow = OptionRow {
    name: "progress",
    shape: OptionShape::Flag,
    help: "Tell on standard error about once a second how far it is",
};

const PORTABLE: OptionRow = OptionRow {
    name: "portable",
    shape: OptionShape::Flag,
    help: "Print a line for each unit that Linux has a known reason to refuse",
};

const DRAW: OptionRow = OptionRow {
    name: "draw",
    shape: OptionShape::Flag,
    help: "Draw each ring as one line after each turn",
};
