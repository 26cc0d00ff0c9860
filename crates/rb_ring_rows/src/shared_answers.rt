//! The answers of rings with hands for reservations, as text.

use crate::answers::{reserve_word, tell_notice, tell_numbers, tell_refusal};
use crate::sheets::write_at;
use crate::text::Text;
use rb_history::Notice;
use rb_lend::{Lent, Sheet};
use rb_shared_ring::{Reservation, ReserveFault, Seat};

/// Appends the answer of a reserve. Returns the reservation that it granted.
pub(crate) fn tell_reserved(
    answer: Result<Reservation, (ReserveFault, Sheet)>,
    out: &mut Text,
) -> Option<Reservation> {
    match answer {
        Ok(record) => {
            out.word("granted");
            tell_contents(&record, out);
            Some(record)
        }
        Err((fault, back)) => {
            tell_refusal(out, reserve_word(fault), &back);
            None
        }
    }
}

/// Appends the answer of a submit or a discard. Returns the reservation if it was handed back.
pub(crate) fn tell_given_back(
    answer: Result<Notice, Reservation>,
    out: &mut Text,
) -> Option<Reservation> {
    match answer {
        Ok(notice) => {
            tell_notice(out, notice);
            None
        }
        Err(back) => {
            out.word("handed back");
            tell_record(&back, out);
            Some(back)
        }
    }
}

/// Writes bytes into a reserved record from byte `at` on, if they fit.
pub(crate) fn write_record(record: &mut Reservation, at: u64, bytes: &[u8], out: &mut Text) {
    if write_at(record, at, bytes) {
        tell_contents(record, out);
    } else {
        out.word("fault: outside");
    }
}

/// Appends the position of the record in each of a seat's hands, with a dash for a free hand.
pub(crate) fn tell_hands(seat: &Seat, out: &mut Text) {
    out.word("hands");
    for hand in 0..4 {
        match seat.hand(hand) {
            Some(pos) => out.number(pos),
            None => out.word("-"),
        }
    }
}

/// Appends the four numbers of a reservation.
pub(crate) fn tell_record(record: &Reservation, out: &mut Text) {
    tell_numbers(
        out,
        record.pos(),
        record.worker(),
        record.serial(),
        record.len(),
    );
}

/// Appends the four numbers of a reservation, and its bytes.
pub(crate) fn tell_contents(record: &Reservation, out: &mut Text) {
    tell_record(record, out);
    out.contents(record.bytes());
}
