//! Why worlds are not opened and lists of actors not run.

use crate::expected::same_of;
use crate::shared::{SUBMIT_42, verified};
use crate::worlds::{opened, worker};
use rb_verifier::Verified;
use rb_world::{Actor, RingSetup, WorkerSetup, World, WorldFault, WorldOpenFault};
use std::alloc::Global;
use std::process::Abort;

// Returns why a world with such a ring and this many workers, each with a context of this length, is not opened.
fn fault(
    rt: &impl Abort,
    alloc: Global,
    program: &Verified,
    ring: RingSetup,
    context: &[u8],
    workers: u32,
) -> WorldOpenFault {
    let mut setups = Vec::new(alloc);
    for _ in 0..workers {
        setups
            .push(WorkerSetup { program, context })
            .expect(rt, "memory");
    }
    match World::new(alloc, [ring].as_slice(), setups.as_slice()) {
        Ok(_) => rt.panic("a world"),
        Err(fault) => fault,
    }
}

// Returns a ring of this size, whose chapters have this room.
fn ring(size: u64, room: u32) -> RingSetup {
    RingSetup {
        size,
        start: 0,
        room,
    }
}

#[test]
// The first refusal that applies is returned, and that of a chapter's room after all others except memory.
fn the_first_refusal_is_told(rt: HostRuntime) {
    let one = verified(&rt, rt.alloc(), SUBMIT_42, 0, 1);
    let two = verified(&rt, rt.alloc(), SUBMIT_42, 0, 2);
    let rows = [
        (&one, ring(4095, 7), 1, 0, WorldOpenFault::Ring),
        (&two, ring(4096, 7), 1, 1, WorldOpenFault::ContextLength),
        (&two, ring(4096, 7), 0, 1, WorldOpenFault::Rings),
        (&one, ring(4096, 7), 0, 0, WorldOpenFault::Workers),
        (&one, ring(4096, 7), 0, 257, WorldOpenFault::Workers),
        (&one, ring(4096, 7), 0, 1, WorldOpenFault::Chapter),
        (&one, ring(4096, 1_048_577), 0, 256, WorldOpenFault::Chapter),
    ];
    for (program, ring, context, workers, wanted) in &rows {
        let context = &[0][..*context];
        let found = fault(&rt, rt.alloc(), program, *ring, context, *workers);
        same_of(&rt, &found, wanted, &(ring, context, workers));
    }
    drop((one, two));
}

// Returns why the actors are not run.
fn run_fault(rt: &impl Abort, world: &mut World<'_>, actors: &[Actor]) -> WorldFault {
    match world.run(actors) {
        Ok(_) => rt.panic("a run"),
        Err(fault) => fault,
    }
}

#[test]
fn an_unknown_actor_is_told_by_its_place(rt: HostRuntime) {
    let program = verified(&rt, rt.alloc(), SUBMIT_42, 0, 1);
    let mut world = opened(&rt, rt.alloc(), &[worker(&program)]);
    for unknown in &[Actor::Worker(1), Actor::Consumer(1), Actor::Keeper(1)] {
        let found = run_fault(&rt, &mut world, &[Actor::Worker(0), *unknown]);
        same_of(&rt, &found, &WorldFault::UnknownActor(1), unknown);
    }
    drop(world);
    drop(program);
}
