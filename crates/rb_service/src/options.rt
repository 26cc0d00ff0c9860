//! The options of a stream.

use crate::service::Full;
use rb_segments::SegmentPlan;
use rb_source::{Form, Framing};
use rb_stream::Late;

/// A ring with its name.
#[derive(Clone, Copy, Debug, PartialEq, Eq)]
pub struct NamedRing<'a> {
    /// Its name, which the counters print.
    pub name: &'a str,
    /// Its size in bytes.
    pub size: u64,
    /// The file to which its records are written, or `-` for standard output. If there is none, its tape is written to the
    /// directory of segments. If there is no such directory either, the ring's records are consumed and counted.
    pub out: Option<&'a str>,
}

/// How records are written to a file or to standard output.
#[derive(Clone, Copy, Debug, PartialEq, Eq)]
pub enum RecordForm {
    /// As a tape.
    Tape,
    /// As lines: for each record the JSON object that `tape --json` prints for it.
    Lines,
}

/// A directory to which tapes are written in segments.
#[derive(Clone, Copy, Debug, PartialEq, Eq)]
pub struct SegmentFolder<'a> {
    /// Its path. It is created if there is none.
    pub path: &'a str,
    /// When segments are closed and deleted.
    pub plan: SegmentPlan,
}

/// A file to which metrics are written.
#[derive(Clone, Copy, Debug, PartialEq, Eq)]
pub struct MetricsFile<'a> {
    /// Its path. The file is written under this name with `.new` appended, and renamed.
    pub path: &'a str,
    /// The number of seconds after which it is written again while the stream runs. It is always written at the end, and
    /// only then if this is 0.
    pub every: u64,
}

/// The options of a stream.
#[derive(Drop)]
pub struct StreamOptions<'a> {
    /// The rings, in the order in which programs number them.
    pub rings: Vec<NamedRing<'a>>,
    /// The files of the programs, in hex, in the order in which they run on each context.
    pub programs: Vec<&'a str>,
    /// The number of workers.
    pub workers: u32,
    /// How the input is divided into contexts.
    pub framing: Framing,
    /// The form of contexts: their length, and what happens to those of another length.
    pub form: Form,
    /// How records are written to files and to standard output. Segments are tapes in either case.
    pub records: RecordForm,
    /// The directory of segments.
    pub folder: Option<SegmentFolder<'a>>,
    /// The file of metrics.
    pub metrics: Option<MetricsFile<'a>>,
    /// The file that is read instead of the input.
    pub from: Option<&'a str>,
    /// What happens to contexts when the queues of all workers are full.
    pub late: Late,
    /// What happens to records for which a ring has no room.
    pub full: Full,
    /// Results below this bound are counted individually.
    pub results: u32,
}
