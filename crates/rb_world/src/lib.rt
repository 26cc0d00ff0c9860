//! Runs verified programs and ring buffers in turns, without threads or locks, so that every interleaving of their
//! steps can be replayed and inspected.
//!
//! A `World` has a machine for each worker, and a consumer and a keeper for each ring. A worker's `turn` executes one
//! instruction, including the answer if it is a helper call. A consumer's turn makes one take. A keeper's turn hands
//! out the ring's chapter, which the world keeps. Calls are answered as bpf-helpers(7) describes bpf_ringbuf_reserve,
//! bpf_ringbuf_submit, bpf_ringbuf_discard, bpf_ringbuf_output and bpf_ringbuf_query; the rings follow Linux
//! Documentation/bpf/ringbuf.rst.
//!
//! Each turn is one turn of the definitions in `specs/Turns.antt`. So for every list of actors, no worker gets stuck
//! and no record is returned as a stray; the busy records of each ring are exactly those that unfinished workers hold;
//! and the bytes taken as a worker's event are the bytes that this worker handed over, in the order of reservation.
//!
//! ```text
//! let worker = WorkerSetup { program: &program, context: &[] };
//! let ring = RingSetup { size: 4096, start: 0, room: 65_536 };
//! let mut world = World::new(alloc, [ring].as_slice(), [worker, worker].as_slice())?;
//! for _ in 0..4 {
//!     world.turn(Actor::Worker(0));       // runs up to and including its reserve
//! }
//! world.at(0);                            // Some(5): the next unit
//! world.turn(Actor::Consumer(0));         // BusyFront: the record is not submitted yet
//! ```
//!
//! # Every interleaving
//!
//! `specs/Worlds.antt` and `specs/Turns.antt` define a world and the effect of one turn, based on the semantics of
//! programs (`rb_semantics`) and the histories of rings (`rb_history`). The contract of `every_interleaving_is_well`
//! (`specs/EveryInterleaving.antt`) is the theorem about every list of turns. docs/PROOF_STATUS.md compares it with
//! what is proved for running threads, in "Every interleaving, and running threads".
#![tactic(auto)]

mod actor;
mod consumed_ring;
mod interleaving_laws;
mod ring_answers;
mod run;
mod turn_done;
mod worker_turn;
mod world;
mod world_fault;
mod world_setup;

pub use actor::Actor;
pub use interleaving_laws::{
    every_interleaving_is_well, reached_worlds_are_well, taken_records_are_tapes,
};
pub use run::Report;
pub use turn_done::TurnDone;
pub use world::World;
pub use world_fault::{WorldFault, WorldOpenFault};
pub use world_setup::{RingSetup, WorkerSetup};
