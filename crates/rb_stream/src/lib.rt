//! Running verified programs over a stream of contexts: a reader deals the contexts of a `Source` to workers, each
//! worker runs every program over each of its contexts, and a consumer for each ring gives the records to the ring's
//! sink.
//!
//! Proved for `run_stream`: each context that the source gives is dealt to one worker or counted as dropped. Each
//! worker runs every program exactly once over each context dealt to it, in order, and each run is one that the
//! program's semantics gives. Results are counted for each program. Rings, seats and sinks end as they do after
//! `rb_workers::run_jobs`, and no record is left in a ring in which none is busy. Waiting, fairness and time are
//! outside of the proofs.
//!
//! The test `example_of_run_stream` of `rb_stream_tests` runs these lines:
//!
//! ```text
//! let alloc = rt.alloc();
//! // outputs the first eight bytes of the context to ring 0, and returns the answer
//! let text = "bf12000000000000 1851000000000000 0000000000000000
//!     b703000008000000 b704000000000000 8500000082000000 9500000000000000";
//! let program = verify(alloc, shape(alloc, from_text(alloc, text)?)?, 16, 1)?;
//! // tag 0, 4,096 bytes, start 0, two workers
//! let (room, margin) = (chapter_room(4096), chapter_margin(4096));
//! let sink = NullSink { position: 0 };
//! let ring = Opened::open(&rt, alloc, 0, 4096, 0, 2, room, margin, sink)?;
//! let contexts = vec![in alloc; vec![in alloc; 1; 16]?, vec![in alloc; 2; 16]?]?;
//! let mut source = ListSource::new(&contexts, 16);
//! // counts the results 0 to 15 individually, and publishes nothing while the stream runs
//! let live = LiveCounts::new(alloc, 0, 0, 0, 16)?;
//! let options = CountOptions {
//!     bound: 16,
//!     live: &live,
//! };
//! let (rings, programs) = (vec![in alloc; ring]?, [program]);
//! let Ok(report) = run_stream(
//!     &rt,
//!     alloc,
//!     rings,
//!     &programs,
//!     &mut source,
//!     Late::Block,
//!     options,
//! ) else {
//!     return Err(Fail::from("no report"));
//! };
//! assert_eq!(rt; (report.contexts, report.dropped, report.ran), (2, 0, 2));
//! for ended in &report.rings {
//!     assert_eq!(rt; ended.closing.counts().consumed, 2);
//! }
//! ```
//!
//! Memory does not grow with the number of contexts.
#![tactic(auto)]

mod at_once;
mod lanes;
mod refusals;
mod report;
mod stream_run;
mod threads;
mod totals;

pub use at_once::run_stream;
pub use rb_dealing::Late;
pub use report::{StreamEnd, StreamFault, StreamReport, StreamStop};
pub use stream_run::run_stream_as;
