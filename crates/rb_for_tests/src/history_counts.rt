//! Counts over the history and over the stored records.

ghost use Rattle.std.specs.Prelude.{◌≡◌, count_by, position};
ghost use Rattle.rb_history.specs.Counting.{is_grant_entry, is_refusal_entry, is_discard_entry};
ghost use Rattle.rb_history.specs.StoredRecords.{is_reserved_state, is_submitted_state, is_reserved_by};

use crate::entry_kinds::{
    is_discarding, is_grant, is_refusal, is_reserved, is_reserved_by, is_submitted,
};
use crate::plain_reservation::PlainReservation;
use rb_history::{Entry, StoredRecord};
use std::collections::VecDeque;

/// Returns the number of records that a history grants. Linear in the history, as are the next two.
pub(crate) fn grants_in(history: &[Entry]) -> u64
    ensures count { result ≡ count_by is_grant_entry history.now }
{
    history.iter().filter(|entry| is_grant(entry)).count() as u64
}

/// Returns the number of reservations that a history refuses for lack of room.
pub(crate) fn refusals_in(history: &[Entry]) -> u64
    ensures count { result ≡ count_by is_refusal_entry history.now }
{
    history.iter().filter(|entry| is_refusal(entry)).count() as u64
}

/// Returns the number of records that a history discards.
pub(crate) fn discards_in(history: &[Entry]) -> u64
    ensures count { result ≡ count_by is_discard_entry history.now }
{
    history.iter().filter(|entry| is_discarding(entry)).count() as u64
}

/// Returns how many of the records are submitted. Linear in the records, as are the next two.
pub(crate) fn submitted_in(records: &VecDeque<StoredRecord>) -> u64
    ensures count { result ≡ count_by (λ s. is_submitted_state s.state) records.now.items }
{
    records.iter().filter(|record| is_submitted(record)).count() as u64
}

/// Returns how many of the records are busy.
pub(crate) fn reserved_in(records: &VecDeque<StoredRecord>) -> u64
    ensures count { result ≡ count_by (λ s. is_reserved_state s.state) records.now.items }
{
    records.iter().filter(|record| is_reserved(record)).count() as u64
}

/// Returns the index of the busy record with the reservation's four numbers, if there is one.
pub(crate) fn busy_index(
    records: &VecDeque<StoredRecord>,
    reservation: &PlainReservation,
) -> Option<usize>
    ensures index { result ≡ position (is_reserved_by reservation.now) records.now.items }
{
    records
        .iter()
        .position(|record| is_reserved_by(reservation, record))
}
