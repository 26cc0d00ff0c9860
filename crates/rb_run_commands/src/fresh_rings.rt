//! The rings over which a program is checked.

ghost use Rattle.std.specs.Prelude.{◌≡◌, IfOk, length, map};
ghost use Rattle.rb_run_commands.specs.FreshRings.{AreNumbered, fresh_taker, fresh_worker};

use rb_shared_ring::{ConsumerSeat, OpenFault, Seat, SharedRing, open};
use std::alloc::{AllocError, Global};
use std::sync::Wait;

/// The size in bytes of each ring over which a program is checked: the minimum.
const RING_SIZE: u64 = 4096;

/// The room of each ring's chapters, in entries: the commands' default.
const ROOM: u32 = 65_536;

/// Newly opened rings, each with its worker's seat (the worker's handle to it) and its consumer.
pub struct Fresh {
    /// The rings, in the order of their numbers.
    pub rings: Vec<SharedRing>,
    /// The worker's seat at each ring.
    pub seats: Vec<Seat>,
    /// Each ring's consumer.
    pub consumers: Vec<ConsumerSeat>,
}

/// Opens `number` rings of 4,096 bytes, each for one worker, with chapters of 65,536 entries. A ring's tag is its
/// number. Returns `AllocError` if they cannot be allocated.
pub(crate) fn fresh_rings<T: Wait>(rt: &T, alloc: Global, number: u32) -> Result<Fresh, AllocError>
    ensures len { IfOk result (λ f. length f.rings.items ≡ number) }
    ensures numbered { IfOk result (λ f. AreNumbered number f.rings.items) }
    ensures seats { IfOk result (λ f. f.seats.items ≡ map fresh_worker f.rings.items) }
    ensures consumers { IfOk result (λ f. f.consumers.items ≡ map fresh_taker f.rings.items) }
{
    let mut rings = Vec::new(alloc);
    let mut seats = Vec::new(alloc);
    let mut consumers = Vec::new(alloc);
    for tag in 0..number {
        let (ring, seat, consumer) = fresh_ring(rt, alloc, u64::from(tag))?;
        let Ok(()) = rings.push(ring) else {
            return Err(AllocError);
        };
        let Ok(()) = seats.push(seat) else {
            return Err(AllocError);
        };
        let Ok(()) = consumers.push(consumer) else {
            return Err(AllocError);
        };
    }
    Ok(Fresh {
        rings,
        seats,
        consumers,
    })
}

#[tactic(auto, using(crate::proofs::Sizes::least_size, crate::proofs::Sizes::first_start, crate::proofs::Sizes::one_worker, crate::proofs::Sizes::default_room))]
fn fresh_ring<T: Wait>(
    rt: &T,
    alloc: Global,
    tag: u64,
) -> Result<(SharedRing, Seat, ConsumerSeat), AllocError>
    ensures tag { IfOk result (λ f. f.0.tag ≡ tag) }
    ensures seat { IfOk result (λ f. f.1 ≡ fresh_worker f.0) }
    ensures consumer { IfOk result (λ f. f.2 ≡ fresh_taker f.0) }
{
    match open(rt, alloc, tag, RING_SIZE, 0, 1, ROOM) {
        Ok((ring, mut seats, consumer)) => match seats.pop() {
            Some(seat) => Ok((ring, seat, consumer)),
            None => unreachable!(),
        },
        Err(OpenFault::Memory) => Err(AllocError),
        Err(OpenFault::Size) => unreachable!(),
        Err(OpenFault::Start) => unreachable!(),
        Err(OpenFault::Workers) => unreachable!(),
        Err(OpenFault::Chapter) => unreachable!(),
    }
}
