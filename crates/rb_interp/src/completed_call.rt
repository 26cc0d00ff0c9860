//! Completed helper calls with their answers.

/// A completed helper call, with its arguments and its answer (bpf-helpers(7)). A ring is named by its number.
#[derive(Debug, Clone, Copy, PartialEq, Eq)]
pub enum Done {
    /// A request for a record (bpf_ringbuf_reserve).
    Reserve {
        /// The number of the ring.
        ring: u32,
        /// The record's length in bytes.
        len: u32,
        /// The flags.
        flags: u64,
        /// Whether a record was granted; otherwise the answer was null.
        granted: bool,
    },
    /// The submit of a record (bpf_ringbuf_submit).
    Submit {
        /// The flags.
        flags: u64,
        /// Whether the record was taken; otherwise it was handed back.
        taken: bool,
    },
    /// The discard of a record (bpf_ringbuf_discard).
    Discard {
        /// The flags.
        flags: u64,
        /// Whether the record was taken; otherwise it was handed back.
        taken: bool,
    },
    /// An output of bytes (bpf_ringbuf_output).
    Output {
        /// The number of the ring.
        ring: u32,
        /// The number of bytes.
        len: u64,
        /// The flags.
        flags: u64,
        /// The return code: 0, or a negative error number.
        answer: i64,
    },
    /// A query for a number of a ring (bpf_ringbuf_query).
    Query {
        /// The number of the ring.
        ring: u32,
        /// Which number was requested.
        what: u64,
        /// The answer.
        answer: u64,
    },
}
