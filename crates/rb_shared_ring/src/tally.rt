//! What a result adds to a seat's counts.

ghost use Rattle.std.specs.Prelude.{◌≡◌, ◌<◌, ◌≤◌, ◌^◌};
ghost use Rattle.rb_chapter_ring.specs.declared.faults.ReserveFault.TheVariants.{Full as FaultFull};
ghost use Rattle.rb_chapter_ring.specs.RecordEnds.{tally_with_end};
ghost use Rattle.rb_shared_ring.specs.SharedCalls.{IsRefusedInRoomAs, granted_in, refused_in_room_by, reserved_in_room_by, output_in_room_by};

use rb_chapter_ring::{RecordEnd, Reservation, ReserveFault};
use rb_history::{Notice, Tally};
use rb_lend::Sheet;

// Returns the counts after a refusal.
fn after_fault(tally: Tally, fault: ReserveFault) -> Tally
    requires fits { fault ≡ FaultFull → tally.refused < 2 ^ 62 }
    ensures counted { result ≡ refused_in_room_by tally fault }
{
    match fault {
        ReserveFault::Full => Tally {
            refused: tally.refused + 1,
            ..tally
        },
        _ => tally,
    }
}

/// Returns the counts after a reservation with this result.
pub(crate) fn after_reserve(
    tally: Tally,
    answer: &Result<Reservation, (ReserveFault, Sheet)>,
) -> Tally
    requires made { tally.made ≤ 2 ^ 62 }
    requires refused { IsRefusedInRoomAs FaultFull answer.now → tally.refused < 2 ^ 62 }
    ensures counted { result ≡ reserved_in_room_by tally (granted_in answer.now) }
{
    match answer {
        Ok(_) => Tally {
            made: tally.made + 1,
            ..tally
        },
        Err(refused) => after_fault(tally, refused.0),
    }
}

/// Returns the counts after an output with this result.
pub(crate) fn after_output(tally: Tally, answer: &Result<Notice, (ReserveFault, Sheet)>) -> Tally
    requires made { tally.made ≤ 2 ^ 62 }
    requires submitted { tally.submitted ≤ 2 ^ 62 }
    requires refused { IsRefusedInRoomAs FaultFull answer.now → tally.refused < 2 ^ 62 }
    ensures counted { result ≡ output_in_room_by tally answer.now }
{
    match answer {
        Ok(_) => Tally {
            made: tally.made + 1,
            submitted: tally.submitted + 1,
            ..tally
        },
        Err(refused) => after_fault(tally, refused.0),
    }
}

/// Returns the counts after the commit of a record.
pub(crate) fn after_end(tally: Tally, end: RecordEnd) -> Tally
    requires submitted { tally.submitted ≤ 2 ^ 62 }
    requires discarded { tally.discarded ≤ 2 ^ 62 }
    ensures counted { result ≡ tally_with_end end tally }
{
    match end {
        RecordEnd::Submit => Tally {
            submitted: tally.submitted + 1,
            ..tally
        },
        RecordEnd::Discard => Tally {
            discarded: tally.discarded + 1,
            ..tally
        },
    }
}
