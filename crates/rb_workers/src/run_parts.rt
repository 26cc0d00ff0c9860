//! The parts of a run, for other runners over the same rings: how rings are split and merged, consumed, drained and
//! closed.

pub use crate::consumer_task::ConsumerTask;
pub use crate::distribution::{merge, return_seats, split};
pub use crate::jobs_run::count_workers;
pub use crate::rest::take_rests;
pub use crate::ring_close::close_all;
pub use crate::run_buffers::{RunBuffers, make_buffers};
pub use crate::threads::consume_all;
pub use crate::workers::Worker;
