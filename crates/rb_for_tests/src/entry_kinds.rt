//! Classification of entries and of stored records, as their definitions have it.

ghost use Rattle.std.specs.Prelude.{◌≡◌};
ghost use Rattle.rb_history.specs.History.{is_grant_of};
ghost use Rattle.rb_history.specs.Counting.{is_grant_entry, is_refusal_entry, is_discard_entry};
ghost use Rattle.rb_history.specs.StoredRecords.{is_reserved_state, is_submitted_state, is_reserved_by};

use crate::plain_reservation::PlainReservation;
use rb_history::{Entry, RecordState, StoredRecord};

/// Whether the entry grants a record.
pub fn is_grant(entry: &Entry) -> bool
    ensures test { result ≡ is_grant_entry entry.now }
{
    matches!(entry, Entry::Res(_, _, _, _))
}

/// Whether the entry is a refusal for lack of room.
pub fn is_refusal(entry: &Entry) -> bool
    ensures test { result ≡ is_refusal_entry entry.now }
{
    matches!(entry, Entry::Full(_, _))
}

/// Whether the entry discards a record.
pub fn is_discarding(entry: &Entry) -> bool
    ensures test { result ≡ is_discard_entry entry.now }
{
    matches!(entry, Entry::Dis(_))
}

/// Whether the entry grants a record to this worker.
pub fn is_grant_of(worker: u32, entry: &Entry) -> bool
    ensures test { result ≡ is_grant_of worker entry.now }
{
    matches!(entry, Entry::Res(w, _, _, _) if *w == worker)
}

/// Whether the record is busy.
pub fn is_reserved(kept: &StoredRecord) -> bool
    ensures test { result ≡ is_reserved_state kept.now.state }
{
    matches!(kept.state, RecordState::Reserved)
}

/// Whether the record was submitted and waits for the consumer.
pub fn is_submitted(kept: &StoredRecord) -> bool
    ensures test { result ≡ is_submitted_state kept.now.state }
{
    matches!(kept.state, RecordState::Submitted(_))
}

/// Whether the record is busy and has the reservation's position, worker, serial and length.
pub fn is_reserved_by(reservation: &PlainReservation, kept: &StoredRecord) -> bool
    ensures test { result ≡ is_reserved_by reservation.now kept.now }
{
    is_reserved(kept)
        && kept.pos == reservation.pos()
        && kept.worker == reservation.worker()
        && kept.serial == reservation.serial()
        && kept.len == reservation.len()
}
