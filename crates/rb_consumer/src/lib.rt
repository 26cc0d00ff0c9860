//! The consumer's side of a ring. A `Batch` takes many records from a ring of `rb_shared_ring` under one acquisition of
//! its lock and lends them, for example to be written to a tape (`rb_tape`). A `Keeper` hands out the ring's chapters
//! in turn, so that a ring runs without end in the memory of two chapters.
//!
//! Proved: a `Batch` lends what its one `take_many` took, in order and without omissions, so the positions are
//! consecutive and the seat's counts grow by these records. It has fewer records than its capacity only if the front
//! was busy or no record was left. All records of a filled batch may be written to a tape that is at the consumer
//! position from before the call. A keeper hands out a ring's chapter if and only if it has entries and, with the
//! keeper's margin, no room for another grant; it lends that chapter as it was under the lock, and keeps it for the
//! next turn. With enough room and margin for the ring's size, no chapter is full before the ring was
//! (`chapters_are_full_after_their_ring`).
//!
//! ```text
//! let mut batch = Batch::with_capacity(alloc, 64)?;
//! let mut tape = TapeWriter::new(out, 4096, consumer.position());
//! batch.fill(rt, &ring, &mut consumer)?;
//! let mut items = batch.items();
//! if let Err(item) = tape.put_all(&mut items) {
//!     // `tape.sent()` bytes of this record were written; `items` has the records after it.
//!     tape.resume(&item)?;
//! }
//!
//! let mut keeper = Keeper::with_margin(Chapter::new(alloc, 65_536, 1)?, 4096);
//! if let Some(chapter) = keeper.turn(rt, &ring, &mut consumer)? {
//!     keep(chapter.entries());
//! }
//! ```
//!
//! The calls are tested in rb_ring_tests and rb_ring_rows, and the example by `a_batch_is_written_as_a_tape`. `fill`
//! and `turn` may wait for other threads, and no proof says that they return.
#![tactic(auto)]

mod batch;
mod batch_items;
mod keeper;
mod look_laws;

pub use batch::Batch;
pub use batch_items::Events;
pub use keeper::Keeper;
pub use look_laws::chapters_are_full_after_their_ring;
