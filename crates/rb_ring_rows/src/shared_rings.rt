//! A ring that threads share, with its seats, here all on one thread.

ghost use Rattle.std.specs.Prelude.{◌≡◌, IfSome};
ghost use Rattle.rb_ledger.specs.Seats.{IsSameSeat};
ghost use Rattle.rb_ring_rows.specs.SharedPlaces.{AreOwnSeats, IsOwnSeat};

use crate::answers::{open_word, reserve_word, tell_counts, tell_notice, tell_refusal, tell_tally};
use crate::consumer_calls::{ConsumerCall, consume};
use crate::script::OpeningNumbers;
use crate::shared_answers::{tell_given_back, tell_hands, tell_reserved};
use crate::text::Text;
use rb_chapter_ring::Chapter;
use rb_history::Notice;
use rb_lend::Sheet;
use rb_shared_ring::{
    Audit, Closing, ConsumerSeat, Foreign, NotAll, Reservation, ReserveFault, Seat, SharedRing,
    open,
};
use std::alloc::Global;
use std::sync::Wait;

/// A shared ring and its seats (the workers' handles to it), in the workers' order.
#[derive(Drop)]
pub(crate) struct SharedPlace {
    ring: SharedRing,
    seats: Vec<Seat>,
    consumer: ConsumerSeat,
    ghost own_seats: { AreOwnSeats ring seats.items },
    ghost own_consumer: { (consumer.tag ≡ ring.tag) × (consumer.ring ≡ ring.ring) },
}

/// A call of a worker.
#[derive(Clone, Copy)]
pub(crate) enum WorkerCall {
    /// Reserves a record that is as long as the sheet.
    Reserve,
    /// Submits the record.
    Submit(u64),
    /// Discards the record.
    Discard(u64),
    /// Outputs the sheet.
    Output(u64),
    Query(u64),
    Audit,
}

/// The argument of a worker's call: a sheet, or a record. After the call it is the record that was granted or handed
/// back.
#[derive(Drop)]
pub(crate) struct Load {
    pub(crate) sheet: Option<Sheet>,
    pub(crate) record: Option<Reservation>,
}

impl SharedPlace {
    /// Opens a ring with this tag, unless it is refused.
    pub(crate) fn open<R: Wait>(
        rt: &R,
        alloc: Global,
        tag: u64,
        setup: OpeningNumbers,
        out: &mut Text,
    ) -> Option<SharedPlace> {
        let OpeningNumbers {
            size,
            start,
            workers,
            room,
        } = setup;
        match open(rt, alloc, tag, size, start, workers, room) {
            Ok((ring, seats, consumer)) => {
                out.word("opened");
                out.field("seats", seats.len() as u64);
                Some(SharedPlace {
                    ring,
                    seats,
                    consumer,
                })
            }
            Err(fault) => {
                out.word(open_word(fault));
                None
            }
        }
    }

    /// Whether a worker has this number.
    pub(crate) fn has_worker(&self, worker: u64) -> bool {
        worker < self.seats.len() as u64
    }

    /// Makes a worker's call by its seat of this ring, at another ring or at this one.
    pub(crate) fn work<R: Wait>(
        &mut self,
        rt: &R,
        other: Option<&SharedPlace>,
        worker: u64,
        call: WorkerCall,
        load: &mut Load,
        out: &mut Text,
    ) {
        if worker >= self.seats.len() as u64 {
            return;
        }
        let seat = &mut self.seats[worker as usize];
        match other {
            None => work(rt, &self.ring, seat, call, load, out),
            Some(other) => {
                if seat.tag() != other.ring.tag() {
                    work(rt, &other.ring, seat, call, load, out);
                }
            }
        }
    }

    /// Makes a consumer's call by this ring's seat, at another ring or at this one.
    pub(crate) fn consume<R: Wait>(
        &mut self,
        rt: &R,
        alloc: Global,
        other: Option<&SharedPlace>,
        call: ConsumerCall<'_>,
        out: &mut Text,
    ) {
        let seat = &mut self.consumer;
        match other {
            None => consume(rt, alloc, &self.ring, seat, call, out),
            Some(other) => {
                if seat.tag() != other.ring.tag() {
                    consume(rt, alloc, &other.ring, seat, call, out);
                }
            }
        }
    }

    /// Appends the counts of a worker's seat.
    pub(crate) fn tell_seat(&self, worker: u64, out: &mut Text) {
        match self.seats.get(worker as usize) {
            Some(seat) => {
                out.field("tag", seat.tag());
                out.field("worker", u64::from(seat.worker()));
                out.field("made", seat.made());
                out.field("refused", seat.refused());
                out.field("submitted", seat.submitted());
                out.field("discarded", seat.discarded());
                tell_hands(seat, out);
            }
            None => out.word("fault: no such worker"),
        }
    }

    /// Appends the counts of the consumer's seat.
    pub(crate) fn tell_consumer(&self, out: &mut Text) {
        let seat = &self.consumer;
        out.field("tag", seat.tag());
        let ring = seat.numbers();
        out.field("workers", u64::from(ring.workers));
        out.field("room", u64::from(ring.room));
        out.field("position", seat.position());
        out.field("consumed", seat.consumed());
        out.field("skipped", seat.skipped());
        out.field("chapters", seat.chapters());
    }

    /// Closes the ring with all its seats, or with all but the last. If it is not closed, everything is as before.
    pub(crate) fn close<R: Wait>(self, rt: &R, all: bool) -> Result<Closing, SharedPlace> {
        let SharedPlace {
            ring,
            mut seats,
            consumer,
        } = self;
        let last = if all {
            None
        } else {
            last_of(&ring, &mut seats)
        };
        let NotAll {
            ring,
            mut seats,
            consumer,
        } = match ring.close(rt, seats, consumer) {
            Ok(closing) => return Ok(closing),
            Err(back) => back,
        };
        put_back(&ring, &mut seats, last);
        Err(SharedPlace {
            ring,
            seats,
            consumer,
        })
    }

    /// Tries to close this ring with the seats of another one, and its own consumer.
    pub(crate) fn close_with<R: Wait>(
        self,
        rt: &R,
        other: SharedPlace,
    ) -> Option<(SharedPlace, SharedPlace)> {
        if other.ring.tag() == self.ring.tag() {
            return None;
        }
        let SharedPlace {
            ring,
            seats: own,
            consumer,
        } = self;
        let SharedPlace {
            ring: home,
            seats,
            consumer: stranger,
        } = other;
        match ring.close(rt, seats, consumer) {
            Ok(closing) => {
                drop((closing, own, home, stranger));
                None
            }
            Err(
                NotAll {
                    ring,
                    seats,
                    consumer,
                },
            ) => Some((
                SharedPlace {
                    ring,
                    seats: own,
                    consumer,
                },
                SharedPlace {
                    ring: home,
                    seats,
                    consumer: stranger,
                },
            )),
        }
    }
}

// Removes the last of a ring's own seats from the list.
fn last_of(ring: &SharedRing, seats: &mut Vec<Seat>) -> Option<Seat>
    requires own { AreOwnSeats ring.now seats.old.items }
    ensures own { AreOwnSeats ring.now seats.new.items }
    ensures last { IfSome result (IsOwnSeat ring.now) }
{
    let _ = ring.tag();
    seats.pop()
}

// Appends a ring's last seat again. There is room for it.
fn put_back(ring: &SharedRing, seats: &mut Vec<Seat>, last: Option<Seat>)
    requires own { AreOwnSeats ring.now seats.old.items }
    requires last { IfSome last (IsOwnSeat ring.now) }
    ensures own { AreOwnSeats ring.now seats.new.items }
{
    let _ = ring.tag();
    if let Some(seat) = last {
        let _ = seats.push(seat);
    }
}

fn work<R: Wait>(
    rt: &R,
    ring: &SharedRing,
    seat: &mut Seat,
    call: WorkerCall,
    load: &mut Load,
    out: &mut Text,
)
    requires ring { seat.old.tag ≡ ring.now.tag → seat.old.ring ≡ ring.now.ring }
    ensures seat { IsSameSeat seat.old seat.new }
{
    match call {
        WorkerCall::Reserve => {
            if let Some(sheet) = load.sheet.take() {
                let answer = ring.reserve(rt, seat, sheet.len(), sheet);
                put(&mut load.record, tell_reserved(answer, out));
            }
        }
        WorkerCall::Submit(flags) => {
            if let Some(record) = load.record.take() {
                let answer = ring.submit(rt, seat, record, flags);
                put(&mut load.record, tell_given_back(answer, out));
            }
        }
        WorkerCall::Discard(flags) => {
            if let Some(record) = load.record.take() {
                let answer = ring.discard(rt, seat, record, flags);
                put(&mut load.record, tell_given_back(answer, out));
            }
        }
        WorkerCall::Output(flags) => {
            if let Some(sheet) = load.sheet.take() {
                tell_output(ring.output(rt, seat, sheet, flags), out);
            }
        }
        WorkerCall::Query(what) => tell_query(ring.query(rt, seat, what), out),
        WorkerCall::Audit => tell_audit(ring.audit(rt, seat), out),
    }
}

// Replaces the record that a call was made with by the one that it returned.
fn put(place: &mut Option<Reservation>, record: Option<Reservation>) {
    *place = record;
}

fn tell_output(answer: Result<Notice, (ReserveFault, Sheet)>, out: &mut Text) {
    match answer {
        Ok(notice) => tell_notice(out, notice),
        Err((fault, back)) => tell_refusal(out, reserve_word(fault), &back),
    }
}

fn tell_query(answer: Result<u64, Foreign>, out: &mut Text) {
    match answer {
        Ok(number) => out.number(number),
        Err(Foreign) => out.word("foreign"),
    }
}

fn tell_audit(answer: Result<Audit, Foreign>, out: &mut Text) {
    match answer {
        Ok(audit) => {
            out.field("producer", audit.producer);
            out.field("consumer", audit.consumer);
            tell_counts(out, audit.counts);
            out.push("; own");
            tell_tally(out, audit.own);
        }
        Err(Foreign) => out.word("foreign"),
    }
}
