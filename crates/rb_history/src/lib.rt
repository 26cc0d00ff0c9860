//! The history of a BPF ring buffer, as the rings (`rb_chapter_ring`, `rb_shared_ring`) and their callers use it: its
//! entries, the return values of a ring's calls, the bytes of its records, and the definitions that their contracts
//! cite. The rules are those of Linux Documentation/bpf/ringbuf.rst and bpf-helpers(7). Where these leave a choice, the
//! definition says 'own'.
//!
//! `specs/` defines positions and records as sums and filters over the history, the room rule, which entry may follow
//! which history, and what each call adds. Proved here: every legal history that extends a ring's history by one entry
//! is the result of one call (`each_entry_is_one_call`), so the rules allow exactly what calls can do. This crate
//! contains no ring.
//!
//! ```text
//! assert_eq!(rt; check_setup(4096, 4, 1), Err(SetupFault::Start));
//! assert_eq!(rt; notice_for(0, 0, NO_WAKEUP), Notice::NotDue);
//! assert_eq!(rt; notice_for(0, 16, FORCE_WAKEUP), Notice::Due);
//! ```
//!
//! # The bytes of records
//!
//! `span` is the number of bytes by which a record advances a ring's positions, `page_of` the page in which it begins,
//! and `Header` the eight bytes in front of it (Linux Documentation/bpf/ringbuf.rst and include/uapi/linux/bpf.h). A
//! tape is the records that were taken from a ring, written one after the other.
//!
//! Proved: `from_bytes` returns the only header with the given bytes, and a fault if and only if both bits are set.
//! `span` is the smallest multiple of eight that holds the header and the payload. A sequence of bytes begins with at
//! most one tape of a given number of records (`tapes_are_unique`), so a tape can be read back in only one way. No call
//! allocates, and each takes constant time.
//!
//! ```text
//! assert_eq!(rt; span(13), 24);
//! let header = Header { len: 13, busy: false, discard: true, page: 0 };
//! let bytes = header.to_bytes();
//! assert_eq!(rt; bytes, [13, 0, 0, 0x40, 0, 0, 0, 0]);
//! assert_eq!(rt; Header::from_bytes(&bytes), Ok(header));
//! ```
#![tactic(auto)]

mod answers;
mod bounds;
mod entries;
mod headers;
mod notices_and_queries;
mod one_call;
mod pages;
mod spans;
mod stored_records;
mod tally;
mod tapes;

pub use answers::{Counts, NoGrant, Notice, Taken};
pub use bounds::{POSITION_LIMIT, SetupFault, check_setup, is_size, is_start, is_worker_count};
pub use entries::Entry;
pub use headers::{BUSY_BIT, DISCARD_BIT, Header, HeaderFault, MAX_RECORD_LEN};
pub use notices_and_queries::{
    AVAIL_DATA, CONS_POS, FORCE_WAKEUP, KNOWN_FLAGS, NO_WAKEUP, PROD_POS, RING_SIZE, notice_for,
};
pub use one_call::each_entry_is_one_call;
pub use pages::page_of;
pub use spans::span;
pub use stored_records::{RecordState, StoredRecord};
pub use tally::Tally;
pub use tapes::tapes_are_unique;
