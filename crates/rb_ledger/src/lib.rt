//! The specification of a BPF ring buffer that threads share: many workers reserve, submit and discard records, and one
//! consumer takes them in the order in which they were reserved, as the kernel's Documentation/bpf/ringbuf.rst defines
//! it. This crate has definitions and laws; the ring itself is `rb_shared_ring`.
//!
//! Whatever the threads do, all calls are in one history. Each call returns there what the ring of one thread returns,
//! and the calls of each worker and of the consumer are in their own order. What each call does is in
//! specs/LockedCalls.antt, the counts of a seat (a handle to the ring) in specs/Seats.antt, and the invariant of the
//! lock in specs/LockRule.antt:
//!
//! ```text
//!   the one history     Res(0, 0, 8, 0)   Res(1, 0, 8, 16)   Sub(0)   Take(0)   Sub(16)
//!   worker 0 has seen   ------------------------------------------>
//!   worker 1 has seen   ----------------------------------------------------------->
//!   the consumer        ---------------------------------------------------->
//!                       after what a role has seen there is no entry of its own
//! ```
//!
//! `headline_holds` and `numbers_agree` state what follows for the whole ring.
//!
//! # Over chapters
//!
//! The ring under the lock keeps one chapter (a bounded segment) of its history. The consumer hands out full chapters,
//! and stores or drops them; `bind_chapters` joins stored chapters to one history. The older part of the history is in
//! the chapters that were handed out (`specs/ChapteredRing.antt` has a drawing). Each seat has seen a prefix of that
//! whole history, and the consumer also knows the chapters. The lock's rule states this for every moment (the rule over
//! chapters in `specs/LockRule.antt`), and each step preserves it (`chapter_lock_rule_is_kept`,
//! `state_may_be_put_back`). Each call is specified over the ring that keeps all entries, with its room for them
//! (`specs/EntryRoom.antt`), and handing out a chapter changes nothing of that ring (`each_locked_call_is_whole`). Once
//! all seats are gathered and the chapters are bound, `chapter_headline_holds` states what `headline_holds` states.
//!
//! ```text
//! size 4096, room 8               under the lock          the consumer knows   the whole history
//! A and B of 8 are granted        number 0, 2 entries     []                   2 entries
//! C of 8: no room in the chapter  number 0, 2 entries     []                   2 entries
//! 5000 twice: Full                number 0, 4 entries     []                   4 entries
//! A is submitted                  number 0, 5 entries     []                   5 entries
//! the chapter is handed out       number 1, no entries    [number 0]           5 entries
//! C of 8 is granted at 32         number 1, 1 entry       [number 0]           6 entries
//! A is taken                      number 1, 2 entries     [number 0]           7 entries
//! closed, and bound with number 0                                              7 entries
//! closed, and bound without it                                                 none: not numbered from 0
//! ```
//!
//! # With hands
//!
//! The book of hands (a worker's hands are its four slots for records in flight) adds to the ring with chapters what
//! each worker holds. The rule with hands is a layer over the lock's rule over chapters, which it includes unchanged
//! (`specs/LockRule.antt` has all three layers): wherever the ring's state is, it has one book of hands, and a worker's
//! seat shows the hands that the book has. Each step preserves it (`hand_lock_rule_is_kept`). So no reservation is a
//! stranger to the ring that granted it (`specs/NoStranger.antt`): until its seat commits it, it is busy there, in
//! whatever thread, and the commit is not refused. A seat also knows the ring's room, and where the chapter that it saw
//! last begins in the whole history, which determines whether a chapter was full; and it knows what was handed out
//! before the last entry that it saw (`handing_out_makes_room`).
//!
//! ```text
//! two workers                             the book            seat 0 shows    seat 1 shows
//! 0 is granted 8 at 0, 1 is granted 8     0 -  | 16 -         0 -             16 -
//! 1 submits its record                    0 -  | -  -         0 -             -  -
//! a thread has the state out              0 -  | -  -         0 -             -  -
//! 0 discards its record                   -  - | -  -         -  -            -  -
//! ```
//!
//! The proofs do not cover waiting, fairness or time: that a call returns, that a thread gets its turn, how long a lock
//! is held, or that a notification reaches anybody. Rings with the same tag can't be told apart.
#![tactic(auto)]

mod binding_laws;
mod bound_chapters;
mod call_laws;
mod chapter_headline;
mod hand_lock_laws;
mod handed_out_laws;
mod headline;
mod lock_laws;
mod no_stranger;
mod seat_counts;

pub use binding_laws::{chapters_may_be_bound, seats_tie_once_bound};
pub use bound_chapters::{BindFault, bind_chapters};
pub use call_laws::each_locked_call_is_whole;
pub use chapter_headline::chapter_headline_holds;
pub use hand_lock_laws::hand_lock_rule_is_kept;
pub use handed_out_laws::handing_out_makes_room;
pub use headline::headline_holds;
pub use lock_laws::{chapter_lock_rule_is_kept, state_may_be_put_back};
pub use no_stranger::{
    hands_are_what_was_seen, no_reservation_is_a_stranger, seats_hold_what_they_granted,
};
pub use seat_counts::numbers_agree;
