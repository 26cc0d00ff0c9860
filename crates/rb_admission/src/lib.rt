//! Admission to a ring: conditions under which no reservation is refused for lack of room, however slow the ring's
//! consumer is.
//!
//! Before each turn, a worker queries the ring for its untaken bytes (`AVAIL_DATA`), and begins the turn only if the
//! rest has room for a turn of every worker. What a worker can request in a turn is known beforehand: the cost of the
//! programs that it runs, times the number of their runs.
//!
//! For hosts whose workers do not look there is a second law (`none_is_refused_on_time`), whose premise is the number
//! of jobs by which the consumer is late.
//!
//! This crate has no code to run. The laws are contracts, and their definitions are in `specs/Admission.antt` and
//! `specs/Lateness.antt`.
#![tactic(auto)]

mod admission_laws;

pub use admission_laws::{none_is_refused_after_looks, none_is_refused_on_time};
