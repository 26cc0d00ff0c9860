//! Streams whose workers wait for room, so that no record is refused.
//!
//! `plan_turns` computes what all programs together can request from each ring for one context, and how many contexts a
//! worker may run in a turn: as many as leave room for a turn of every worker. A ring that is too small even for one
//! context of every worker is reported with the smallest size that is enough. `run_waiting_stream` runs a stream in
//! such turns.
//!
//! The theorem is the clause `none_refused` of `run_waiting_stream`: if the stream reached its end, no worker was
//! refused a record for lack of room, however slow the consumers and their sinks were. It holds for every schedule. How
//! long workers wait is outside of the proofs.
#![tactic(auto)]

mod plan;
mod waiting_sizes;
mod waiting_stream;

pub use plan::{SmallRing, TurnFault, plan_turns};
pub use waiting_sizes::{TurnSizes, turn_sizes, turn_sizes_text, turns_need_their_sizes};
pub use waiting_stream::run_waiting_stream;
