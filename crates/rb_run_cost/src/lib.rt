//! What running programs cost, by the bounds that `rb_cost` computes before they run: for hosts that choose the size of
//! a ring and read the report of a run.
//!
//! This crate has no code to run; its laws are contracts:
//!
//! - The calls of a run request no more than the cost of its program (`calls_stay_within_their_cost`).
//! - A job's calls leave their requests, granted and refused, in the histories of its worker's rings
//!   (`calls_leave_their_requests`), and these take at most the bytes in the cost of the job's program
//!   (`jobs_ask_within_their_cost`).
//! - If a ring is larger than what the jobs request together whose records it may hold, no worker is refused a record
//!   for lack of room, and what its calls requested was made (`running_jobs_are_not_refused`). How far a consumer lags
//!   behind is decided by the schedule, about which nothing is proved here. It is the law's premise, and concerns the
//!   histories to which the chapters of the run's rings are bound.
//! - In a world, in every interleaving of workers, consumers and keepers, the busy records of a ring take no more bytes
//!   than its unfinished workers may hold (`busy_bytes_are_bounded`), and each worker stays within the cost of its
//!   program (`workers_stay_within_their_cost`). A busy record blocks the records after it, so a ring must have room
//!   for everything that may be busy.
#![tactic(auto)]

mod call_cost_laws;
mod job_cost_laws;
mod run_cost_laws;
mod world_cost_laws;

pub use call_cost_laws::calls_stay_within_their_cost;
pub use job_cost_laws::{calls_leave_their_requests, jobs_ask_within_their_cost};
pub use run_cost_laws::{running_jobs_are_not_refused, runs_cut_histories};
pub use world_cost_laws::{busy_bytes_are_bounded, workers_stay_within_their_cost};
