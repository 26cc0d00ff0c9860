//! The commands `feed` and `tape`: payloads through a ring onto a tape (ringbuf.rst describes a record's header), and a
//! tape's records as lines. And `follow`, which prints the records of a tape in segments while a host writes them.
//!
//! For `rbhost`, and for embedding over other readers and writers. The contracts state what `feed` read and wrote, by
//! its result, and that `tape` prints the lines of the longest list of records whose tape is a prefix of its input, and
//! reports the first fault after them. `follow` prints the lines of records that may have been taken from a ring one after
//! the other, from the requested one on; that they are the records of the segments is only tested.
#![tactic(auto)]

mod buffers;
mod chapter_turns;
mod feed_command;
mod feed_fault;
mod follow_command;
mod hex_digits;
mod lines;
mod next_segment;
mod payloads;
mod retries;
mod segment_reader;
mod tape_command;
mod tape_lines;
mod tape_refusal;
mod transfer;
mod whole_records;

pub use buffers::{feed_buffered, tape_buffered};
pub use feed_command::feed;
pub use feed_fault::FeedFault;
pub use follow_command::{FollowRefusal, follow};
pub use segment_reader::SegmentReader;
pub use tape_command::tape;
pub use tape_lines::record_object;
pub use tape_refusal::TapeRefusal;
