//! Entries and records as values.

ghost use Rattle.std.specs.Prelude.{◌≡◌, length};

use crate::expected::{same, same_bytes, same_of, sheet};
use rb_for_tests::{
    PlainReservation, is_discarding, is_grant, is_grant_of, is_refusal, is_reserved,
    is_reserved_by, is_submitted,
};
use rb_history::{Entry, POSITION_LIMIT, RecordState, StoredRecord, Taken, each_entry_is_one_call};
use rb_lend::Lent;
use std::alloc::Global;
use std::process::Abort;

// Entries, and whether each is a grant, a refusal, a discard, and a grant to worker 2.
const ENTRIES: [(Entry, (bool, bool, bool, bool)); 6] = [
    (Entry::Res(2, 0, 8, 0), (true, false, false, true)),
    (Entry::Res(1, 2, 2, 2), (true, false, false, false)),
    (Entry::Full(2, 4096), (false, true, false, false)),
    (Entry::Sub(2), (false, false, false, false)),
    (Entry::Dis(2), (false, false, true, false)),
    (Entry::Take(2), (false, false, false, false)),
];

#[test]
fn entries_are_told_apart(rt: HostRuntime) {
    for (entry, wanted) in &ENTRIES {
        let told = (
            is_grant(entry),
            is_refusal(entry),
            is_discarding(entry),
            is_grant_of(2, entry),
        );
        same_of(&rt, &told, wanted, entry);
    }
    each_entry_is_one_call();
    same(&rt, &POSITION_LIMIT, &4_611_686_018_427_387_904);
}

// Returns a reservation of `n` bytes.
fn reservation(
    rt: &impl Abort,
    alloc: Global,
    pos: u64,
    worker: u32,
    serial: u64,
    n: u32,
) -> PlainReservation
    ensures { length result.bytes ≡ n }
{
    PlainReservation::new(pos, worker, serial, sheet(rt, alloc, n))
}

// Returns a record of four bytes at position 48, the sixth of worker 3.
fn stored(state: RecordState) -> StoredRecord {
    StoredRecord {
        pos: 48,
        len: 4,
        worker: 3,
        serial: 5,
        state,
    }
}

// Whether the record of `stored`, in this state, is reserved under these numbers.
fn is_busy_under(
    rt: &impl Abort,
    alloc: Global,
    state: RecordState,
    numbers: (u64, u32, u64, u32),
) -> bool {
    let (pos, worker, serial, n) = numbers;
    let held = reservation(rt, alloc, pos, worker, serial, n);
    is_reserved_by(&held, &stored(state))
}

// Positions, workers, serials and lengths, and whether a busy record is reserved under them.
const NUMBERS: [((u64, u32, u64, u32), bool); 5] = [
    ((48, 3, 5, 4), true),
    ((56, 3, 5, 4), false),
    ((48, 2, 5, 4), false),
    ((48, 3, 4, 4), false),
    ((48, 3, 5, 5), false),
];

#[test]
fn a_stored_record_is_busy_under_four_numbers(rt: HostRuntime) {
    for (numbers, wanted) in &NUMBERS {
        let is_busy = is_busy_under(&rt, rt.alloc(), RecordState::Reserved, *numbers);
        same_of(&rt, &is_busy, wanted, numbers);
    }
    let is_busy = is_busy_under(&rt, rt.alloc(), RecordState::Discarded, (48, 3, 5, 4));
    same(&rt, &is_busy, &false);
}

// Whether the record is reserved, and whether it is submitted.
fn state_of(record: &StoredRecord) -> (bool, bool) {
    (is_reserved(record), is_submitted(record))
}

// Ends the test unless this is an event of the record of `stored`, with four sixes.
fn is_event(rt: &impl Abort, taken: Taken) {
    match taken {
        Taken::Event(48, 3, 5, sheet) => same_bytes(rt, sheet.bytes(), &[6, 6, 6, 6]),
        _ => rt.panic("no event"),
    }
}

#[test]
fn a_submitted_record_is_handed_out(rt: HostRuntime) {
    let mut filled = sheet(&rt, rt.alloc(), 4);
    filled.bytes_mut().fill(6);
    let waiting = stored(RecordState::Submitted(filled));
    same(&rt, &state_of(&waiting), &(false, true));
    is_event(&rt, waiting.taken());
}

// Whether this is the skipped record of `stored`.
fn is_skipped(taken: &Taken) -> bool {
    matches!(taken, Taken::Skipped(48, 4))
}

#[test]
fn a_discarded_record_is_skipped(rt: HostRuntime) {
    let discarded = stored(RecordState::Discarded);
    same(
        &rt,
        &[
            state_of(&stored(RecordState::Reserved)),
            state_of(&discarded),
        ],
        &[(true, false), (false, false)],
    );
    same(&rt, &is_skipped(&discarded.taken()), &true);
}
