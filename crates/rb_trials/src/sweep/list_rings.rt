//! The ring of one thread that keeps its whole history, and allocates for it as it grows.

ghost use Rattle.std.specs.Prelude.{◌≡◌, IfOk};

use super::memory::{TRIES, tell_memory};
use super::sheets::{LONG, is_filled};
use super::snapshot::{HasSnapshot, RingSnapshot, sheet_beside, tell};
use crate::fault::TrialFault;
use rb_for_tests::{PlainOpenFault, PlainReservation, PlainRing};
use rb_history::{CONS_POS, NoGrant, PROD_POS, Taken};
use rb_lend::Sheet;
use std::alloc::Global;
use std::io::Print;

// How often two records are sent.
const ROUNDS: u32 = 4;

impl HasSnapshot for PlainRing {
    fn snapshot(&self) -> RingSnapshot {
        RingSnapshot {
            chapters: 0,
            entries: self.history().len() as u64,
            producer: self.query(PROD_POS),
            consumer: self.query(CONS_POS),
            counts: self.counts(),
        }
    }
}

/// Reserves and submits records, and outputs others, in turn; then takes them all.
pub(crate) fn run<R: Print>(rt: &R, alloc: Global) -> Result<(), TrialFault> {
    let mut ring = opened(rt, alloc)?;
    tell(rt, "open", &ring);
    send_all(rt, alloc, &mut ring)?;
    take_all(rt, &mut ring)
}

// Sends the records of all rounds.
fn send_all<R: Print>(rt: &R, alloc: Global, ring: &mut PlainRing) -> Result<(), TrialFault>
    requires { ring.old.setup.workers ≡ 1 }
{
    for _ in 0..ROUNDS {
        submit(rt, alloc, ring)?;
        output(rt, alloc, ring)?;
        tell(rt, "output", ring);
    }
    Ok(())
}

// Reserves a record and submits it.
fn submit<R: Print>(rt: &R, alloc: Global, ring: &mut PlainRing) -> Result<(), TrialFault>
    requires { ring.old.setup.workers ≡ 1 }
    ensures { ring.new.setup ≡ ring.old.setup }
{
    let record = reserve(rt, alloc, ring)?;
    tell(rt, "reserve", ring);
    if ring.submit(record, 0).is_err() {
        return Err(TrialFault::Otherwise("submit"));
    }
    tell(rt, "submit", ring);
    Ok(())
}

// Returns a ring of 4,096 bytes with one worker.
fn opened<R: Print>(rt: &R, alloc: Global) -> Result<PlainRing, TrialFault>
    ensures { IfOk result (λ ring. ring.setup.workers ≡ 1) }
{
    for _ in 0..TRIES {
        match PlainRing::new(alloc, 4096, 0, 1) {
            Ok(ring) => return Ok(ring),
            Err(PlainOpenFault::Memory) => tell_memory(rt, "open"),
            Err(_) => return Err(TrialFault::Otherwise("open")),
        }
    }
    Err(TrialFault::Twice("open"))
}

// Reserves a record in a long sheet.
fn reserve<R: Print>(
    rt: &R,
    alloc: Global,
    ring: &mut PlainRing,
) -> Result<PlainReservation, TrialFault>
    requires { ring.old.setup.workers ≡ 1 }
    ensures { ring.new.setup ≡ ring.old.setup }
{
    let mut sheet = sheet_beside(rt, alloc, ring)?;
    for _ in 0..TRIES {
        match ring.reserve(0, LONG, sheet) {
            Ok(record) => return Ok(record),
            Err((fault, back)) => sheet = handed_back("reserve", fault, back)?,
        }
        tell(rt, "reserve memory", ring);
    }
    Err(TrialFault::Twice("reserve"))
}

// Outputs a long sheet.
fn output<R: Print>(rt: &R, alloc: Global, ring: &mut PlainRing) -> Result<(), TrialFault>
    requires { ring.old.setup.workers ≡ 1 }
    ensures { ring.new.setup ≡ ring.old.setup }
{
    let mut sheet = sheet_beside(rt, alloc, ring)?;
    for _ in 0..TRIES {
        match ring.output(0, sheet, 0) {
            Ok(_) => return Ok(()),
            Err((fault, back)) => sheet = handed_back("output", fault, back)?,
        }
        tell(rt, "output memory", ring);
    }
    Err(TrialFault::Twice("output"))
}

// Returns the sheet, unchanged, from a call whose allocation failed.
fn handed_back(call: &'static str, fault: NoGrant, sheet: Sheet) -> Result<Sheet, TrialFault>
    ensures { IfOk result (λ back. back ≡ sheet) }
{
    match fault {
        NoGrant::Memory if is_filled(&sheet, LONG) => Ok(sheet),
        _ => Err(TrialFault::Otherwise(call)),
    }
}

// Takes the records of all rounds.
fn take_all<R: Print>(rt: &R, ring: &mut PlainRing) -> Result<(), TrialFault> {
    for _ in 0..2 * ROUNDS {
        let Taken::Event(_, _, _, _) = ring.take() else {
            return Err(TrialFault::Otherwise("take"));
        };
    }
    tell(rt, "take", ring);
    Ok(())
}
