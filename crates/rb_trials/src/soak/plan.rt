//! The plan of a run.

use crate::fault::TrialFault;
use crate::numbers::{number, small};

// The maximal number of concurrent rings.
const MOST_RINGS: usize = 16;

// The maximal number of steps of all workers of a ring for which its chapters are kept and bound at the end.
const BOUND_STEPS: u64 = 20_000;

/// Rings of one kind, each with its own workers, each of which makes a number of steps.
#[derive(Clone, Copy)]
pub(crate) struct SoakPlan {
    pub(crate) workers: u32,
    pub(crate) rings: usize,
    pub(crate) size: u64,
    pub(crate) room: u32,
    pub(crate) steps: u32,
    pub(crate) seed: u64,
}

impl SoakPlan {
    /// Parses the plan from arguments.
    pub(crate) fn read(words: &[String]) -> Result<SoakPlan, TrialFault> {
        let [workers, rings, size, room, steps, seed] = words else {
            return Err(TrialFault::Usage);
        };
        let plan = SoakPlan {
            workers: small(workers.as_str()),
            rings: (small(rings.as_str()) as usize).min(MOST_RINGS),
            size: number(size.as_str()),
            room: small(room.as_str()),
            steps: small(steps.as_str()),
            seed: number(seed.as_str()),
        };
        if plan.rings == 0 {
            return Err(TrialFault::Usage);
        }
        Ok(plan)
    }

    /// Returns whether the chapters are kept, to be bound after the ring is closed.
    pub(crate) fn is_bound(&self) -> bool {
        u64::from(self.workers) * u64::from(self.steps) <= BOUND_STEPS
    }
}
