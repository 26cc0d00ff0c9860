//! The maximal cost of a verified program, known before it runs: for hosts that must choose the size of a ring, or
//! bound the time of a job. A verified program has no loops, each of its calls names a known ring and a known size, and
//! the records that it holds are known at each unit.
//!
//! `cost_of` computes, over all paths of the program along its edges, the most units that a path executes, the most
//! calls, and for each ring the most records and bytes that the calls of a path request; and for each ring the most
//! records and bytes that are held before an instruction. Each bound is exact: one path reaches it, and none exceeds it
//! (`specs/Cost.antt`). A path counts even if no run takes it, because a branch may always go the same way.
//!
//! ```text
//! let cost = cost_of(alloc, &verified)?;
//! assert_eq!(rt; cost.steps, 11);
//! assert_eq!(rt; cost.rings[0].bytes, 16);
//! ```
#![tactic(auto)]

mod cost;
mod cost_laws;
mod cost_lines;
mod holdings;
mod pass;
mod path_quantity;
mod program_cost;
mod requested_record;
mod ring_size;
mod turn_size;

pub use cost::{Cost, RingCost};
pub use cost_laws::{
    none_is_refused_behind, room_is_what_is_left, runs_have_moments, runs_stay_within_their_cost,
};
pub use cost_lines::cost_text;
pub use program_cost::cost_of;
pub use ring_size::{JobsAtOnce, least_ring, least_rings_are_least};
pub use turn_size::{contexts_at_once, turns_fit_their_ring};
