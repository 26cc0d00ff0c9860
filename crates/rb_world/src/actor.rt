//! The actors of a world.

/// An actor of a world: whoever takes a turn.
#[derive(Clone, Copy, Debug, PartialEq, Eq)]
pub enum Actor {
    /// A worker, numbered from 0. Its turn executes one instruction. If that is a helper call, the same turn answers
    /// it.
    Worker(u32),
    /// The consumer of a ring, numbered from 0. Its turn is one take.
    Consumer(u32),
    /// The keeper of a ring, numbered from 0. Its turn hands out the ring's chapter, and the ring continues in the next
    /// one.
    Keeper(u32),
}
