//! A worker's seat at the ring that threads share. Of the calls only `open` allocates; callers allocate sheets.

ghost use Rattle.std.specs.Prelude.{◌≡◌};
ghost use Rattle.rb_ledger.specs.Seats.{IsSameSeat};

use super::shared_rings::opened;
use super::sheets::{LONG, filled, renew};
use super::snapshot::tell_counts;
use crate::fault::TrialFault;
use crate::fields::print_field;
use rb_history::Taken;
use rb_lend::Sheet;
use rb_shared_ring::{ConsumerSeat, Seat, SharedRing};
use std::alloc::Global;
use std::io::Print;
use std::sync::Wait;

/// Outputs a record with a worker's seat, takes it, and renews its sheet.
pub(crate) fn run<R: Wait + Print>(rt: &R, alloc: Global) -> Result<(), TrialFault> {
    let mut open = opened(rt, alloc)?;
    let Some(mut seat) = open.seats.pop() else {
        return Err(TrialFault::Otherwise("seats"));
    };
    let sheet = output_and_take(rt, alloc, &open.ring, &mut seat, &mut open.consumer)?;
    renew(rt, sheet)
}

// Outputs a long sheet, and takes it again.
fn output_and_take<R: Wait + Print>(
    rt: &R,
    alloc: Global,
    ring: &SharedRing,
    seat: &mut Seat,
    consumer: &mut ConsumerSeat,
) -> Result<Sheet, TrialFault>
    requires seat { seat.old.ring ≡ ring.now.ring }
    requires consumer { consumer.old.ring ≡ ring.now.ring }
{
    tell(rt, "open", ring, seat);
    let sheet = long_sheet(rt, alloc, ring, seat)?;
    if ring.output(rt, seat, sheet, 0).is_err() {
        return Err(TrialFault::Otherwise("output"));
    }
    tell(rt, "output", ring, seat);
    match ring.take(rt, consumer) {
        Ok(Taken::Event(_, _, _, sheet)) => {
            tell(rt, "take", ring, seat);
            Ok(sheet)
        }
        _ => Err(TrialFault::Otherwise("take")),
    }
}

// Returns a long sheet, allocated while the ring exists.
fn long_sheet<R: Wait + Print>(
    rt: &R,
    alloc: Global,
    ring: &SharedRing,
    seat: &mut Seat,
) -> Result<Sheet, TrialFault>
    requires { seat.old.ring ≡ ring.now.ring }
    ensures { IsSameSeat seat.old seat.new }
{
    if let Some(sheet) = filled(alloc, LONG) {
        return Ok(sheet);
    }
    tell(rt, "sheet memory", ring, seat);
    match filled(alloc, LONG) {
        Some(sheet) => Ok(sheet),
        None => Err(TrialFault::Twice("sheet")),
    }
}

// Prints what the seat counted, and the state of its ring by an audit.
fn tell<R: Wait + Print>(rt: &R, call: &str, ring: &SharedRing, seat: &mut Seat)
    requires { seat.old.ring ≡ ring.now.ring }
    ensures { IsSameSeat seat.old seat.new }
{
    let Ok(audit) = ring.audit(rt, seat) else {
        print_field(rt, call, &": foreign\n");
        return;
    };
    tell_seat(rt, call, seat);
    print_field(rt, ", ring producer ", &audit.producer);
    print_field(rt, " consumer ", &audit.consumer);
    tell_counts(rt, audit.counts);
}

// Prints what the seat counted.
fn tell_seat<R: Print>(rt: &R, call: &str, seat: &Seat) {
    print_field(rt, call, &":");
    print_field(rt, " seat made ", &seat.made());
    print_field(rt, " refused ", &seat.refused());
    print_field(rt, " submitted ", &seat.submitted());
    print_field(rt, " discarded ", &seat.discarded());
}
