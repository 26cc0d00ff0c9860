//! Writes and reads tapes. A tape is the records that were taken from a ring, written one after the other
//! (`specs/TapeBytes.antt` of `rb_history` defines the format; a record's header is that of Linux
//! Documentation/bpf/ringbuf.rst). `TapeWriter` writes a tape; `Tape` and `Feed` read one.
//!
//! # Writing
//!
//! Proved, for any writer that specifies its bytes: `Items` lends the taken records in order, and all of them. After a
//! `put`, the first `sent()` bytes of its record are written, and `resume`, which accepts only that record, writes the
//! rest. `put_all` writes the tape of the records before the one that it returns as its error, and the first `sent()`
//! bytes of that one. By `calls_leave_a_tape`, lawful calls in any order leave a prefix of the tape of the records that
//! they began, and the whole tape if all calls returned Ok. No call allocates.
//!
//! ```text
//! let mut tape = TapeWriter::new(out, 4096, 0);
//! let mut items = Items::new(taken.as_slice());
//! if let Err(item) = tape.put_all(&mut items) {
//!     // `tape.sent()` bytes of this record were written; `items` has the records after it.
//!     tape.resume(&item)?;
//! }
//! ```
//!
//! # Reading
//!
//! `Tape` reads bytes that are in memory as a whole, and does not allocate. `Feed` reads bytes that arrive in pieces,
//! and keeps those of records that were not read yet. Both lend each record's bytes; neither copies the bytes of a
//! record that is complete.
//!
//! Proved: however the input is cut into pieces, the records read are the longest list whose tape is a prefix of the
//! input. If bytes are left after them, the first fault that they show is reported, if and only if they show one, and
//! `Truncated` only at the end of bytes that show none. Nonzero padding and wrong pages are refused, so each tape can
//! be read in only one way.
//!
//! ```text
//! let bytes = [1, 0, 0, 0, 0, 0, 0, 0, 42, 0, 0, 0, 0, 0, 0, 0, 8, 0];
//! let mut tape = Tape::new(&bytes, 4096, 0)?;
//! assert!(rt; matches!(tape.next(), Some(Ok(Record { pos: 0, len: 1, discarded: false, bytes: [42] }))));
//! assert_eq!(rt; tape.next(), Some(Err(TapeFault { kind: TapeKind::Truncated, offset: 16 })));
//! assert!(rt; tape.next().is_none());
//! ```
//!
//! The calls are tested in rb_ring_tests and rb_ring_rows.
#![tactic(auto)]

mod begun_record;
mod failures;
mod fault;
mod feed;
mod item;
mod items;
mod longest_list;
mod piece;
mod record;
mod record_count;
mod record_parser;
mod tape;
mod tape_laws;
mod tape_writer;

pub use fault::{TapeFault, TapeKind};
pub use feed::Feed;
pub use item::{Event, Item};
pub use items::Items;
pub use longest_list::reading_gives_the_longest_list;
pub use record::Record;
pub use record_count::count_records;
pub use tape::Tape;
pub use tape_laws::calls_leave_a_tape;
pub use tape_writer::TapeWriter;
