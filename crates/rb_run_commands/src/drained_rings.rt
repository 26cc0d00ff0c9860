//! Takes what a run left in its rings.

ghost use Rattle.std.specs.Prelude.{◌≡◌, IfOk, IfSome, IsNone, map};
ghost use Rattle.rb_jobs.specs.SeatHelpers.{AtRings, IsAt};
ghost use Rattle.rb_shared_ring.specs.SharedSeats.{IsSameChapterConsumer};
ghost use Rattle.rb_run_commands.specs.DrainedRings.{AreConsumersOf, DrainsRing, DrainsRings, IsConsumerOf, TakesNone, TakesRecord};

use rb_history::Taken;
use rb_shared_ring::{ConsumerSeat, Foreign, Seat, SharedRing};
use std::alloc::{AllocError, Global};
use std::sync::Wait;

/// Takes the records of each ring, up to its producer position, and returns them ring by ring. The seats belong to the
/// rings' worker, which no longer runs; the consumers are the rings' own. Returns `AllocError` if the records cannot be
/// allocated.
pub(crate) fn drain_rings<T: Wait>(
    rt: &T,
    alloc: Global,
    rings: &[SharedRing],
    seats: &mut [Seat],
    consumers: &mut [ConsumerSeat],
) -> Result<Vec<Vec<Taken>>, AllocError>
    requires seats { AtRings rings.now seats.old }
    requires consumers { AreConsumersOf rings.now consumers.old }
    ensures drained { IfOk result (λ records. DrainsRings seats.old consumers.old (map (λ ring. ring.items) records.items)) }
{
    let mut records = Vec::new(alloc);
    for number in 0..rings.len() {
        let ring = drain_ring(
            rt,
            alloc,
            &rings[number],
            &mut seats[number],
            &mut consumers[number],
        )?;
        let Ok(()) = records.push(ring) else {
            return Err(AllocError);
        };
    }
    Ok(records)
}

// Takes the records of a ring, up to the producer position at the time of the call, as the worker's seat reads it.
fn drain_ring<T: Wait>(
    rt: &T,
    alloc: Global,
    ring: &SharedRing,
    seat: &mut Seat,
    consumer: &mut ConsumerSeat,
) -> Result<Vec<Taken>, AllocError>
    requires seat { IsAt ring.now seat.old }
    requires consumer { IsConsumerOf ring.now consumer.old }
    ensures drained { IfOk result (λ records. DrainsRing seat.old consumer.old records.items) }
{
    let end = match ring.audit(rt, seat) {
        Ok(audit) => audit.producer,
        Err(Foreign) => unreachable!(),
    };
    let mut records = Vec::new(alloc);
    for _ in rt.forever() {
        if consumer.position() == end {
            return Ok(records);
        }
        if let Some(taken) = take_record(rt, ring, consumer) {
            let Ok(()) = records.push(taken) else {
                return Err(AllocError);
            };
        }
    }
    unreachable!()
}

// Takes the next record, if there is one.
fn take_record<T: Wait>(rt: &T, ring: &SharedRing, consumer: &mut ConsumerSeat) -> Option<Taken>
    requires consumer { IsConsumerOf ring.now consumer.old }
    ensures same { IsSameChapterConsumer consumer.old consumer.new }
    ensures taken { IfSome result (λ taken. TakesRecord consumer.old taken consumer.new) }
    ensures none { IsNone result → TakesNone consumer.old consumer.new }
{
    match ring.take(rt, consumer) {
        Ok(Taken::BusyFront) => None,
        Ok(Taken::Empty) => None,
        Ok(taken) => Some(taken),
        Err(Foreign) => unreachable!(),
    }
}
