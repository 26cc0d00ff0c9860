//! The command `stream`: runs verified programs over contexts as they arrive, and writes what each ring's consumer
//! takes to an output.
//!
//! `serve` opens a ring for each output and runs the stream. It promises what `rb_stream::run_stream` does, for newly
//! opened rings with these outputs. `counters_text` returns the counters of the report as text.
#![tactic(auto)]

mod command;
mod counters;
mod folders;
mod host;
mod metrics;
mod metrics_text;
mod opened_run;
mod options;
mod output_files;
mod programs;
mod refusal;
mod report;
mod rings;
mod service;
mod watch;
mod watched_source;

pub use command::stream;
pub use counters::counters_text;
pub use host::Host;
pub use metrics::StreamMetrics;
pub use options::{MetricsFile, NamedRing, RecordForm, SegmentFolder, StreamOptions};
pub use refusal::StreamRefusal;
pub use rings::RingPlan;
pub use service::{Full, ServiceFault, ServiceRequest, serve};
