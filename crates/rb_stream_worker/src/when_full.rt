//! What a worker does before it runs contexts, in case a ring is full.

/// What a worker does before it runs contexts, in case a ring is full.
#[derive(Drop)]
pub enum WhenFull {
    /// It runs them at once. A ring without room for a record refuses the record.
    Refuse,
    /// It runs them in turns, and waits before each turn until there is room in every ring.
    Wait(Turns),
}

/// The turns of a worker that waits for room. A turn may begin if no ring has more untaken bytes than its limit.
#[derive(Drop)]
pub struct Turns {
    /// The maximal number of contexts of a turn: at least one.
    pub contexts: u32,
    /// For each ring, the maximal number of untaken bytes with which a turn may begin.
    pub limits: Vec<u64>,
}
