//! Dealing the contexts of a stream to workers: a reader takes pieces from a `Source` and puts each into the queue of
//! one worker, and each worker runs its pieces in a separate thread.
//!
//! Proved for `run_lanes`: each context that the source gives is dealt to one worker or counted as dropped, and each
//! worker runs exactly the contexts that were dealt to it, each once and in order. Waiting, fairness and time are
//! outside of the proofs.
//!
//! The queues are bounded, and a piece that was run is reused, so a steady stream does not allocate.
#![tactic(auto)]

mod idle;
mod lane;
mod reader;
mod threads;
mod work;

pub use idle::Idle;
pub use lane::{Lane, LaneFeed, PIECES, add_lane};
pub use reader::{DealEnd, Dealt, Late};
pub use threads::run_lanes;
pub use work::Work;
