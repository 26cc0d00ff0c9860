//! Shared code of the tests and trial programs. No library uses it.
//!
//! `PlainRing` is the plain twin of `rb_chapter_ring`'s `RingState`: a BPF ring buffer for one thread (Linux
//! Documentation/bpf/ringbuf.rst) that keeps its whole history, and whose records are a plain list. Its contracts are
//! the definitions of `rb_history` for whole histories, and its body is short. Tests make the same calls on both and
//! compare the answers.
//!
//! `OpenRing` is a shared ring with threads: a `Producer` at each of its seats, and a `Consumer`, which checks for
//! records repeatedly until the producers have ended and none is left. All seats are the ring's own from its opening to
//! its end (`specs/OwnSeats.antt`), so no call is refused for a foreign seat. Nothing is proved about waiting, fairness
//! or time: not that a thread runs, nor that the run ends.
#![tactic(auto)]

mod consumer;
mod entry_kinds;
mod history_counts;
mod many_takes;
mod open_ring;
mod outputs;
mod plain_faults;
mod plain_reservation;
mod plain_ring;
mod producer;

pub use consumer::{Consumer, Found};
pub use entry_kinds::{
    is_discarding, is_grant, is_grant_of, is_refusal, is_reserved, is_reserved_by, is_submitted,
};
pub use open_ring::OpenRing;
pub use outputs::{Outputs, output, sheet};
pub use plain_faults::{PlainOpenFault, Stray};
pub use plain_reservation::PlainReservation;
pub use plain_ring::PlainRing;
pub use producer::Producer;
