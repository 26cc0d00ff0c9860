//! The outputs for the records of rings: a tape or lines on a stream or in a file, a tape in segments, or none. Each is
//! a sink of `rb_workers`.
//!
//! `segments_hold_what_was_taken` and `lines_hold_what_was_taken` are the laws of outputs in segments and of lines over a
//! whole run.
#![tactic(auto)]

mod laws;
mod line_sink;
mod outputs;
mod stream_output;
mod watched_output;

pub use laws::{lines_hold_what_was_taken, segments_hold_what_was_taken};
pub use line_sink::LineSink;
pub use outputs::{OutputEnd, OutputTotals, RingOutput};
pub use stream_output::StreamOutput;
pub use watched_output::{OutputWatch, WatchedOutput};
