//! Worlds through public calls: worked scripts, and every order of the calls of workers and consumers. Shared by these
//! tests: programs and worlds.

mod chapters;
mod hands;
mod orders;
mod refusals;
mod scripts;

use rb_history::{Counts, Taken};
use rb_lend::Lent;
use rb_verifier::Verified;
use rb_world::{Actor, RingSetup, TurnDone, WorkerSetup, World};
use std::alloc::Global;
use std::process::Abort;

/// Reserves a record of 4,000 bytes, of which a ring of 4,096 bytes has room for one, and submits 42 if it was granted.
pub const SUBMIT_WIDE_42: &str =
    "1851000000000000 0000000000000000 b7020000a00f0000 b703000000000000
    8500000083000000 1500040000000000 7a0000002a000000 bf01000000000000
    b702000000000000 8500000084000000 b700000000000000 9500000000000000";

/// Reserves a record of eight bytes, and discards it if it was granted.
pub const DISCARD_42: &str = "1851000000000000 0000000000000000 b702000008000000 b703000000000000
    8500000083000000 1500040000000000 7a0000002a000000 bf01000000000000
    b702000000000000 8500000085000000 b700000000000000 9500000000000000";

/// Returns a worker that runs the program with no context.
pub fn worker(program: &Verified) -> WorkerSetup<'_> {
    WorkerSetup {
        program,
        context: &[],
    }
}

/// Returns a world with one ring of 4,096 bytes that starts at 0, whose chapters have room for 65,536 entries.
pub fn opened<'p>(rt: &impl Abort, alloc: Global, workers: &[WorkerSetup<'p>]) -> World<'p> {
    opened_with(rt, alloc, workers, 65_536)
}

/// Returns the same world, but with chapters of this room.
pub fn opened_with<'p>(
    rt: &impl Abort,
    alloc: Global,
    workers: &[WorkerSetup<'p>],
    room: u32,
) -> World<'p> {
    let ring = RingSetup {
        size: 4096,
        start: 0,
        room,
    };
    World::new(alloc, [ring].as_slice(), workers).expect(rt, "a world")
}

/// Runs one turn of an actor that exists.
pub fn turn(rt: &impl Abort, world: &mut World<'_>, actor: Actor) -> TurnDone {
    if !world.has(actor) {
        rt.panic("no such actor")
    }
    world.turn(actor)
}

/// Runs turns of one actor. Returns the result of the last one.
pub fn turns(rt: &impl Abort, world: &mut World<'_>, actor: Actor, count: u32) -> TurnDone {
    let mut done = TurnDone::Idle;
    for _ in 0..count {
        done = turn(rt, world, actor);
    }
    done
}

/// Returns the positions of ring 0, the producer's first, and its counts.
pub fn ring_0(rt: &impl Abort, world: &World<'_>) -> (u64, u64, Counts) {
    if !world.has(Actor::Consumer(0)) {
        rt.panic("no ring")
    }
    let ring = world.ring(0);
    (ring.query(3), ring.query(2), ring.counts())
}

/// Whether this element of what was taken from ring 0 is this event.
pub fn is_event(
    rt: &impl Abort,
    world: &World<'_>,
    place: usize,
    event: (u64, u32, u64, &[u8]),
) -> bool {
    if !world.has(Actor::Consumer(0)) {
        rt.panic("no ring")
    }
    match world.taken(0).get(place) {
        Some(Taken::Event(pos, worker, serial, sheet)) => {
            (*pos, *worker, *serial) == (event.0, event.1, event.2) && sheet.bytes() == event.3
        }
        _ => false,
    }
}
