//! The workloads that are measured, and the arguments that name them.

use super::repeated_context::ContextLen;
use super::streams::Start;
use crate::fault::TrialFault;
use crate::numbers::small;

/// A workload with its numbers.
#[derive(Clone, Copy)]
pub(crate) enum Workload {
    /// Records of `len` bytes are output and taken in one thread.
    OutputTake {
        len: u32,
        records: u32,
    },
    /// Records of `len` bytes are reserved, written, submitted and taken in one thread.
    ReserveSubmitTake {
        len: u32,
        records: u32,
    },
    /// Each of some threads outputs the same number of records of eight bytes, while another thread takes them all.
    Shared {
        producers: u32,
        each: u32,
    },
    /// A program of some arithmetic units is decoded, shaped and verified.
    Load {
        units: u32,
    },
    /// A program of 4,096 units that store a pointer at each place of the stack in turn is decoded, shaped and
    /// verified.
    Spill,
    /// A program of 4,000 arithmetic units runs.
    Arithmetic,
    /// A program of 4,000 loads and stores of the stack runs.
    Stack,
    /// A program of 4,000 loads and stores of the stack, the context and a record runs.
    Memory,
    /// Each of some workers runs the same number of jobs, each of which reserves a record of eight bytes, writes and
    /// submits it. Each has the same context of this length.
    Jobs {
        workers: u32,
        each: u32,
        len: ContextLen,
    },
    /// Some workers run the same program over a stream of `each` contexts of this length for each of them.
    Stream {
        workers: u32,
        each: u32,
        len: ContextLen,
        start: Start,
    },
}

impl Workload {
    /// Parses a workload's name and numbers. A number that is missing or invalid is 0; numbers that the workload does
    /// not take are ignored.
    pub(crate) fn read(words: &[String]) -> Result<Workload, TrialFault> {
        let [name, numbers @ ..] = words else {
            return Err(TrialFault::Usage);
        };
        let (first, second) = (number(numbers.first()), number(numbers.get(1)));
        let len = ContextLen::or_short(number(numbers.get(2)));
        if let Some(workload) = workload_of_records(name.as_str(), first, second) {
            return Ok(workload);
        }
        match workload_of_contexts(name.as_str(), first, second, len) {
            Some(workload) => Ok(workload),
            None => workload_of_programs(name.as_str(), first),
        }
    }
}

// Returns the workloads that take two numbers.
fn workload_of_records(name: &str, first: u32, second: u32) -> Option<Workload> {
    match name {
        "output_take" => Some(Workload::OutputTake {
            len: first,
            records: second,
        }),
        "reserve_submit_take" => Some(Workload::ReserveSubmitTake {
            len: first,
            records: second,
        }),
        "shared" => Some(Workload::Shared {
            producers: first,
            each: second,
        }),
        _ => None,
    }
}

// Returns the workloads that take the number of workers, of contexts for each, and of bytes of a context.
fn workload_of_contexts(name: &str, workers: u32, each: u32, len: ContextLen) -> Option<Workload> {
    let start = match name {
        "jobs" => return Some(Workload::Jobs { workers, each, len }),
        "stream" => Start::AtOnce,
        "waiting_stream" => Start::WithRoom,
        _ => return None,
    };
    Some(Workload::Stream {
        workers,
        each,
        len,
        start,
    })
}

// Returns the workloads of one program, which take one number or none.
fn workload_of_programs(name: &str, units: u32) -> Result<Workload, TrialFault> {
    match name {
        "load" => Ok(Workload::Load { units }),
        "spill" => Ok(Workload::Spill),
        "arithmetic" => Ok(Workload::Arithmetic),
        "stack" => Ok(Workload::Stack),
        "memory" => Ok(Workload::Memory),
        _ => Err(TrialFault::Usage),
    }
}

// Returns the number in an argument, or 0 if there is none.
fn number(word: Option<&String>) -> u32 {
    match word {
        Some(word) => small(word.as_str()),
        None => 0,
    }
}
