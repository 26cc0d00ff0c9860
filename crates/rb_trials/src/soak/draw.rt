//! Pseudorandom numbers from a seed.

// The constants of Knuth's 64-bit linear congruential generator (MMIX).
const FACTOR: u64 = 6_364_136_223_846_793_005;

const TERM: u64 = 1_442_695_040_888_963_407;

/// A generator of pseudorandom numbers. Each worker of each ring has its own, so its choices do not depend on the
/// others.
#[derive(Clone, Copy)]
pub(crate) struct Draw {
    state: u64,
}

impl Draw {
    /// Returns the generator of a worker of a ring.
    pub(crate) fn new(seed: u64, tag: u64, worker: u32) -> Draw {
        let mixed = seed.wrapping_mul(FACTOR).wrapping_add(tag);
        let state = mixed.wrapping_mul(FACTOR).wrapping_add(u64::from(worker));
        Draw { state }
    }

    /// Returns the next number, of 32 bits.
    pub(crate) fn next(&mut self) -> u32 {
        self.state = self.state.wrapping_mul(FACTOR).wrapping_add(TERM);
        (self.state >> 32) as u32
    }
}
