//! A BPF ring buffer that threads share: many workers reserve, submit and discard records, and one consumer takes them
//! in the order in which they were reserved, as the kernel's Documentation/bpf/ringbuf.rst defines it. It is for hosts
//! that run BPF programs on several threads.
//!
//! The memory of a ring does not grow: it keeps one chapter (a bounded segment) of its history at a time
//! (`rb_chapter_ring`), and allocates everything when it is opened. The consumer hands out full chapters, and stores or
//! drops them. The lock is crossbeam's `ArrayQueue` with one place. A caller has a *seat* (a handle to the ring), one
//! for each worker and one for the consumer.
//!
//! Whatever the threads do, all calls are in one history, of which each seat has seen a prefix: the entries of the
//! chapters that were handed out, followed by those of the chapter under the lock (`rb_ledger` has the definitions,
//! with drawings, and the laws). `SharedRing` states what each call promises, and `Closing::bind` what holds once all
//! seats are back and the chapters are bound.
//!
//! Each seat has four *hands* (slots for its records in flight), which hold exactly its worker's busy records. So no
//! reservation is a stranger to its ring: until its seat commits it (by a submit or a discard), it is busy there, and
//! the commit is not refused (`rb_ledger`).
//!
//! The test `example_of_shared_ring` of `rb_stream_tests` runs these lines:
//!
//! ```text
//! let alloc = rt.alloc();
//! // tag 7, 4,096 bytes, start 0, one worker, chapters of 8 entries
//! let (ring, mut seats, mut consumer) = open(&rt, alloc, 7, 4096, 0, 1, 8)?;
//! let Some(mut seat) = seats.pop() else {
//!     return Err(Fail::from("no seat"));
//! };
//! let Ok(record) = ring.reserve(&rt, &mut seat, 8, Sheet::new(alloc, 8)?) else {
//!     return Err(Fail::from("no record"));
//! };
//! // the record is in flight, in hand 0 of the seat
//! assert_eq!(rt; (record.tag(), record.hand()), (7, 0));
//! assert!(rt; matches!(ring.submit(&rt, &mut seat, record, 0), Ok(Notice::Due)));
//! // two entries, and the take that the record will log
//! assert_eq!(rt; ring.used(&rt, &mut consumer), Ok((2, 1)));
//! let Ok(chapter) = ring.hand_out(&rt, &mut consumer, Chapter::new(alloc, 8, 1)?) else {
//!     return Err(Fail::from("no chapter"));
//! };
//! assert!(rt; matches!(ring.take(&rt, &mut consumer), Ok(Taken::Event(0, 0, 0, _))));
//! seats.push(seat)?;
//! let Ok(closing) = ring.close(&rt, seats, consumer) else {
//!     return Err(Fail::from("a seat is missing"));
//! };
//! let Ok(whole) = closing.bind(alloc, vec![in alloc; chapter]?) else {
//!     return Err(Fail::from("not bound"));
//! };
//! // the reservation, the submit and the take
//! assert_eq!(rt; whole.history().len(), 3);
//! ```
//!
//! The proofs do not cover waiting, fairness or time: that a call returns, that a thread gets its turn, how long a lock
//! is held, or that a notification reaches anybody. Rings with the same tag can't be told apart.
#![tactic(auto)]

mod answer_laws;
mod audit;
mod batch_flag;
mod chapters;
mod closed_ring;
mod consumer_seat;
mod kept_reservations;
mod lock;
mod locked_calls;
mod opened_ring;
mod ring_numbers;
mod shared;
mod takes;
mod tally;
mod wait_backoff;
mod whole;
mod worker_seat;

pub use answer_laws::each_answer_is_whole;
pub use audit::Audit;
pub use chapters::HandFault;
pub use closed_ring::{Closing, NotAll};
pub use consumer_seat::ConsumerSeat;
pub use kept_reservations::reservations_are_kept;
pub use opened_ring::open;
pub use rb_chapter_ring::{OpenFault, RecordEnd, Reservation, ReserveFault};
pub use rb_ledger::BindFault;
pub use ring_numbers::RingNumbers;
pub use shared::{Foreign, SharedRing};
pub use wait_backoff::WaitBackoff;
pub use whole::Whole;
pub use worker_seat::Seat;
