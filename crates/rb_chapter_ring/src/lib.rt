//! A BPF ring buffer for one thread whose memory does not grow, after Linux Documentation/bpf/ringbuf.rst and
//! bpf-helpers(7). It keeps one chapter (a bounded segment) of its history at a time, and allocates everything when it
//! is created.
//!
//! Proved: each call adds its entries to the chapter, and its result depends only on the chapter. The chapter remains
//! legal from its opening, with room for all entries that it owes, and the ring's state is the one that the chapter
//! determines (`RingState::facts`). A chapter that is handed out meets the next one, so that chapters join to one legal
//! history (`chapters_join`). Each busy record is in one of its worker's four hands (slots for records in flight), and
//! a record that is in a hand can be submitted or discarded without a refusal. For tests, `rb_for_tests` has a ring
//! with the same calls that keeps its whole history.
//!
//! `RingState` is the ring, for one thread; its reservations name its tag. A shared ring keeps one under its lock.
//!
//! The test `example_of_ring_state` of `rb_stream_tests` runs these lines:
//!
//! ```text
//! let alloc = rt.alloc();
//! // tag 7, 4,096 bytes, start 0, one worker, chapters of 8 entries
//! let mut ring = RingState::new(alloc, 7, 4096, 0, 1, 8)?;
//! // four bytes, into hand 2 of worker 0
//! let Ok(record) = ring.reserve(0, 2, 4, Sheet::new(alloc, 4)?) else {
//!     return Err(Fail::from("no record"));
//! };
//! assert_eq!(rt; (record.tag(), record.hand()), (7, 2));
//! assert_eq!(rt; ring.submit(record, 0), Notice::Due);
//! let Ok(chapter) = ring.hand_out(Chapter::new(alloc, 8, 1)?) else {
//!     return Err(Fail::from("no chapter"));
//! };
//! assert_eq!(rt; (chapter.number(), chapter.used()), (0, 2));
//! assert!(rt; matches!(ring.take(), Taken::Event(0, 0, 0, _)));
//! ```
//!
//! # Chapters
//!
//! A ring's history is divided into numbered chapters, and a chapter's opening is a summary of everything before it.
//! `Chapter` is a chapter as a value: its number, its opening (`specs/Snapshot.antt`: both positions, the records that
//! were not taken, and the totals so far) and its entries (`specs/Chapters.antt` has a drawing).
//! `specs/CountedFrom.antt` defines what entries mean when they are counted from an opening, `specs/ChapterRoom.antt`
//! how many a chapter has room for, and `specs/ChapterCalls.antt` what each call adds.
//!
//! The definitions over a whole history are those of `rb_history`, and `specs/WholeHistory.antt` relates the two: what
//! is counted from an opening agrees with the whole history (`counted_from_the_opening`), chapters that meet join to
//! one legal history (`chapters_join`), a chapter's room is preserved (`room_is_kept`), and each call by its chapter is
//! the call over the whole history (`calls_are_alike`).
//!
//! ```text
//! size 4096, room 8           used  owed
//! A and B of 8 are granted     2     4       C of 8: no room in the chapter, since 2 + 4 + 3 > 8
//! 5000 twice: Full             4     4       5000 again: no room in the chapter, since 4 + 4 + 1 > 8
//! A is submitted               5     3
//! the chapter is handed out    0     3       the next one opens with A waiting and B busy
//! C of 8 is granted at 32      1     5
//! A is taken                   2     4
//! ```
//!
//! # Hands
//!
//! The ring has a book of hands beside its chapter (`specs/HandRing.antt`): for each worker and each hand, 0 to 3, a
//! record's position, serial and length, or nothing. The book's positions are exactly those of the busy records, each
//! once, and each under its own worker (`specs/Hands.antt`). A grant marks a free hand, a submit or a discard frees it,
//! and nothing else changes the book (`each_call_keeps_hands`). So a record that is in a hand is busy, and committing
//! it can't be refused.
//!
//! ```text
//! two workers                                    hands of 0       hands of 1
//! the ring is opened                             -  -  -  -       -  -  -  -
//! 0 is granted 8 at 0 into its hand 0            0  -  -  -       -  -  -  -
//! 1 is granted 8 at 16 into its hand 0           0  -  -  -       16 -  -  -
//! 0 is granted 8 at 32 into its hand 1           0  32 -  -       16 -  -  -
//! 0 submits the record at 0                      -  32 -  -       16 -  -  -
//! 1 outputs 8 bytes, which are at 48             -  32 -  -       16 -  -  -
//! ```
#![tactic(auto)]

mod chapter;
mod chapter_laws;
mod entries;
mod entry_words;
mod faults;
mod hand_laws;
mod hand_table;
mod hands;
mod out_record;
mod record_end;
mod record_slots;
mod reservation;
mod ring;
mod ring_counts;
mod ring_record;
mod setup;
mod snapshot;
mod snapshot_lists;

pub use chapter::{COUNT_LIMIT, Chapter};
pub use chapter_laws::{calls_are_alike, chapters_join, counted_from_the_opening, room_is_kept};
pub use entries::Entries;
pub use faults::{OpenFault, ReserveFault};
pub use hand_laws::{book_goes_on, each_call_keeps_hands, one_hand_changes};
pub use hands::lowest_free;
pub use out_record::OutRecord;
pub use record_end::RecordEnd;
pub use reservation::Reservation;
pub use ring::RingState;
pub use ring_record::RingRecord;
pub use snapshot::{Snapshot, SnapshotNumbers, UntakenRecord, UntakenStatus};
