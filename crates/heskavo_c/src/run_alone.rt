//! Runs a program over fresh rings that nothing else uses.

ghost use Rattle.std.specs.Prelude.{◌≡◌, ◌≢◌, ◌++◌, All, IfOk, IsTrue, OnOk, length, replicate};
ghost use Rattle.rb_program.specs.Program.{unit_count};
ghost use Rattle.rb_history.specs.RingModel.{IsRingSize};
ghost use Rattle.heskavo_c.specs.Runs.{RunsAlone, turns_alone};

use rb_verifier::Verified;
use rb_world::{Actor, RingSetup, TurnDone, WorkerSetup, World, WorldFault, WorldOpenFault};
use std::alloc::{AllocError, Global};

/// The room of each ring's only chapter, in entries: a unit of a program logs at most three, and a program has at most
/// 4,096 units.
const ROOM: u32 = 16_384;

// Appends `count` turns of an actor.
fn push_turns(
    alloc: Global,
    turns: &mut Vec<Actor>,
    actor: Actor,
    count: usize,
) -> Result<(), AllocError>
    ensures { OnOk result (turns.new.items ≡ turns.old.items ++ replicate count actor) }
{
    let mut block = Vec::new(alloc);
    block.resize(count, actor)?;
    turns.extend_from_slice(block.as_slice())
}

// Returns the turns of a run.
fn turns_of(alloc: Global, units: u32, rings: u32) -> Result<Vec<Actor>, AllocError>
    ensures { IfOk result (λ turns. turns.items ≡ turns_alone units rings) }
{
    let mut turns = Vec::new(alloc);
    push_turns(alloc, &mut turns, Actor::Worker(0), units as usize)?;
    for ring in 0..rings {
        push_turns(alloc, &mut turns, Actor::Consumer(ring), units as usize)?;
    }
    Ok(turns)
}

// Returns whether no turn failed for lack of memory.
fn remembered(dones: &[TurnDone]) -> bool
    ensures { IsTrue result → All (λ done. done ≢ TurnDone.Memory) dones.now }
{
    dones.iter().all(|done| *done != TurnDone::Memory)
}

// Returns the parameters of `rings` fresh rings of this size.
fn fresh_rings(alloc: Global, size: u64, rings: u32) -> Result<Vec<RingSetup>, AllocError>
    ensures { IfOk result (λ setups. setups.items ≡ replicate rings (record { size = size; start = 0; room = 16384 })) }
{
    let mut setups = Vec::new(alloc);
    let ring = RingSetup {
        size,
        start: 0,
        room: ROOM,
    };
    setups.resize(rings as usize, ring)?;
    Ok(setups)
}

// Returns the error for a fault of a world that may be opened, which can only be a lack of memory.
fn want_of_memory(fault: WorldOpenFault) -> AllocError
    requires memory { fault ≡ WorldOpenFault.Memory }
{
    match fault {
        WorldOpenFault::Memory => AllocError,
        _ => unreachable!(),
    }
}

/// Runs the program over the context and fresh rings of this size, as many as it was verified for, and takes what it
/// left in them. Returns the world then, or `AllocError` if memory for the world, for its turns or for what is taken
/// can't be allocated.
pub(crate) fn run_alone<'p>(
    alloc: Global,
    program: &'p Verified,
    context: &'p [u8],
    size: u64,
) -> Result<World<'p>, AllocError>
    requires context { length context.now ≡ program.now.ctx_len }
    requires size { IsRingSize size }
    ensures ran { IfOk result (RunsAlone program.now context.now size) }
    ensures rings { IfOk result (λ world. length world.rings ≡ program.now.rings) }
{
    program.facts();
    let setups = fresh_rings(alloc, size, program.rings())?;
    let turns = turns_of(alloc, program.program().units(), program.rings())?;
    let workers = [WorkerSetup { program, context }];
    let mut world = match World::new(alloc, setups.as_slice(), &workers) {
        Ok(world) => world,
        Err(fault) => return Err(want_of_memory(fault)),
    };
    match world.run(turns.as_slice()) {
        Ok(report) => {
            if !remembered(report.turns.as_slice()) {
                return Err(AllocError);
            }
        }
        Err(WorldFault::Memory) => return Err(AllocError),
        Err(WorldFault::UnknownActor(_)) => unreachable!(),
    }
    Ok(world)
}
