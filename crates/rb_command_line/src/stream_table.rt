//! The tables of the options of `stream` and `follow`.

use crate::command_table::{CommandRow, OptionRow, OptionShape};

/// The commands of streams. They have a table of their own, since a proof reads a table as a whole.
pub(crate) static STREAM_COMMANDS: [CommandRow; 2] = [STREAM, FOLLOW];

const STREAM: CommandRow = CommandRow {
    name: "stream",
    about: "Runs programs on contexts as they arrive, and writes the records of each ring as a tape or as lines",
    example: "Example: tcpdump -U -w - | tools/pcap-frames | rbhost stream --ring packets:1M --program filter.hex --workers 4 --ctx 128 --in frames --fit cut --out packets=-",
    options: &[
        RING,
        PROGRAM,
        WORKERS,
        CTX,
        IN,
        FIT,
        WITH_LENGTH,
        FROM,
        OUT,
        JSON_LINES,
        SEGMENT,
        KEEP,
        METRICS,
        EVERY,
        LATE,
        FULL,
        RESULTS,
    ],
};

const RING: OptionRow = OptionRow {
    name: "ring",
    shape: OptionShape::RequiredValues("NAME:SIZE"),
    help: "A ring by its name, and its size in bytes: a power of two from 4096 to 67108864; K and M stand for KiB and MiB",
};

const PROGRAM: OptionRow = OptionRow {
    name: "program",
    shape: OptionShape::RequiredValues("FILE"),
    help: "A program in hex that runs on each context; several run in this order",
};

const WORKERS: OptionRow = OptionRow {
    name: "workers",
    shape: OptionShape::Required("W"),
    help: "How many workers there are, each on a thread of its own: 1 to 256",
};

const CTX: OptionRow = OptionRow {
    name: "ctx",
    shape: OptionShape::Required("N"),
    help: "The length of a context in bytes: 0 to 65536",
};

const IN: OptionRow = OptionRow {
    name: "in",
    shape: OptionShape::Required("FORM"),
    help: "How the input is divided into contexts: frames (each a length in four bytes, the lowest first, and that many bytes), fixed (N bytes each) or lines",
};

const FIT: OptionRow = OptionRow {
    name: "fit",
    shape: OptionShape::Value("FIT"),
    help: "What happens to contexts of another length: exact skips them (the default), pad fills shorter ones with zeros, cut also cuts longer ones",
};

const WITH_LENGTH: OptionRow = OptionRow {
    name: "with-length",
    shape: OptionShape::Flag,
    help: "Put the length that a context had in front of it, in four bytes, the lowest first: N does not count them",
};

const FROM: OptionRow = OptionRow {
    name: "from",
    shape: OptionShape::Value("FILE"),
    help: "Read this file in place of standard input; writers of a FIFO may come and go",
};

const OUT: OptionRow = OptionRow {
    name: "out",
    shape: OptionShape::Values("DIR|NAME=FILE"),
    help: "A directory to which tapes are written in segments; or the file to which the tape of one ring is written, - for standard output. Other rings are consumed and counted",
};

const JSON_LINES: OptionRow = OptionRow {
    name: "json",
    shape: OptionShape::Flag,
    help: "Write an object of JSON for each record, as tape --json prints it, in place of a tape; a directory has tapes, so it is refused",
};

const SEGMENT: OptionRow = OptionRow {
    name: "segment",
    shape: OptionShape::Value("N"),
    help: "Close a segment once it has N bytes, 256M by default; K, M and G stand for KiB, MiB and GiB",
};

const KEEP: OptionRow = OptionRow {
    name: "keep",
    shape: OptionShape::Value("N"),
    help: "Delete the oldest segments of a ring beyond N bytes; all are kept by default",
};

const METRICS: OptionRow = OptionRow {
    name: "metrics",
    shape: OptionShape::Value("FILE"),
    help: "Write counters to this file in the text format of Prometheus, at the end and while it runs",
};

const EVERY: OptionRow = OptionRow {
    name: "every",
    shape: OptionShape::Value("S"),
    help: "Write them every S seconds, 10 by default; at the end only if S is 0",
};

const LATE: OptionRow = OptionRow {
    name: "late",
    shape: OptionShape::Value("LATE"),
    help: "What happens to a batch of contexts when all workers are busy: block makes the input wait (the default), drop drops the batch and counts its contexts",
};

const FULL: OptionRow = OptionRow {
    name: "full",
    shape: OptionShape::Value("FULL"),
    help: "What happens when a ring may be full: refuse refuses records and counts them (the default), wait makes the workers wait, so that no record is refused",
};

const RESULTS: OptionRow = OptionRow {
    name: "results",
    shape: OptionShape::Value("N"),
    help: "Count each result below N by itself: 0 to 65536, 16 by default",
};

const FOLLOW: CommandRow = CommandRow {
    name: "follow",
    about: "Prints a line for each record of a ring whose segments a host writes, and waits for more",
    example: "Example: rbhost follow /var/lib/heskavo packets --json",
    options: &[DIR, NAME, FROM_POSITION, JSON],
};

const DIR: OptionRow = OptionRow {
    name: "dir",
    shape: OptionShape::RequiredOperand("DIR"),
    help: "The directory to which `stream --out DIR` writes",
};

const NAME: OptionRow = OptionRow {
    name: "name",
    shape: OptionShape::RequiredOperand("NAME"),
    help: "The name of the ring",
};

const FROM_POSITION: OptionRow = OptionRow {
    name: "from",
    shape: OptionShape::Value("P"),
    help: "Begin with the record at this position; with the oldest one by default",
};

const JSON: OptionRow = OptionRow {
    name: "json",
    shape: OptionShape::Flag,
    help: "Print an object of JSON in the place of each line",
};
