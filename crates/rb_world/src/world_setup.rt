//! The parameters of a world.

ghost use Rattle.std.specs.Prelude.{◌≡◌, ◌↔◌, IsTrue, OnOk, IfOk, IfErr, length};
ghost use Rattle.std.specs.List.{AllZip};
ghost use Rattle.rb_history.specs.RingModel.{IsWorkerCount};
ghost use Rattle.rb_chapter_ring.specs.Chapters.{IsChapterRoom};
ghost use Rattle.rb_world.specs.inner.Refusals.{IsOpenRefusal};
ghost use Rattle.rb_world.specs.OpenedWorlds.{IsRingSetup, AreRings, HaveRooms, HaveContexts, HaveRings, MayOpen, IsStarted, opened_rings};

use crate::consumed_ring::ConsumedRing;
use crate::world_fault::WorldOpenFault;
use rb_chapter_ring::{OpenFault, RingRecord, RingState};
use rb_history::{is_size, is_start};
use rb_interp::Machine;
use rb_verifier::Verified;
use std::alloc::{AllocError, Global};

/// The parameters of a ring: its size and start, both in bytes, and the room of its chapters.
#[derive(Clone, Copy, Debug, PartialEq, Eq)]
pub struct RingSetup {
    /// The size in bytes: a power of two from 4,096 to 67,108,864.
    pub size: u64,
    /// The first position: a multiple of 8, at most 2^61.
    pub start: u64,
    /// The capacity of a chapter of the ring's history, in entries: 8 to 1,048,576.
    pub room: u32,
}

/// A worker's program and its context.
#[derive(Clone, Copy)]
pub struct WorkerSetup<'p> {
    /// The program.
    pub program: &'p Verified,
    /// The bytes of the context. Their number is the context length that the program was verified for.
    pub context: &'p [u8],
}

// Whether a ring's size and start are within their bounds.
fn is_ring(setup: RingSetup) -> bool
    ensures { IsTrue result ↔ IsRingSetup setup }
{
    if !is_size(setup.size) {
        return false;
    }
    is_start(setup.start)
}

// Whether the size and start of every ring are within their bounds.
fn are_rings(rings: &[RingSetup]) -> bool
    ensures { IsTrue result ↔ AreRings rings.now }
{
    for setup in rings {
        if !is_ring(*setup) {
            return false;
        }
    }
    true
}

// Whether a chapter may have this room.
fn is_room(room: u32) -> bool
    ensures { IsTrue result ↔ IsChapterRoom room }
{
    if room < 8 {
        return false;
    }
    room <= 1_048_576
}

// Whether the chapters of every ring may have the room that is requested.
fn have_rooms(rings: &[RingSetup]) -> bool
    ensures { IsTrue result ↔ HaveRooms rings.now }
{
    for setup in rings {
        if !is_room(setup.room) {
            return false;
        }
    }
    true
}

// Whether every context has the length that its program was verified for.
fn have_contexts(workers: &[WorkerSetup<'_>]) -> bool
    ensures { IsTrue result ↔ HaveContexts workers.now }
{
    for worker in workers {
        if worker.context.len() as u64 != u64::from(worker.program.ctx_len()) {
            return false;
        }
    }
    true
}

// Whether there are at most 16 rings, and at least as many as each program was verified for.
fn have_rings(rings: usize, workers: &[WorkerSetup<'_>]) -> bool
    ensures { IsTrue result ↔ HaveRings rings workers.now }
{
    if rings > 16 {
        return false;
    }
    for worker in workers {
        if worker.program.rings() as usize > rings {
            return false;
        }
    }
    true
}

// Returns the first refusal that applies, other than `Memory`.
pub(crate) fn check_setups(
    rings: &[RingSetup],
    workers: &[WorkerSetup<'_>],
) -> Result<(), WorldOpenFault>
    ensures allowed { OnOk result (MayOpen rings.now workers.now) }
    ensures refused { IfErr result (IsOpenRefusal rings.now workers.now) }
{
    if !are_rings(rings) {
        return Err(WorldOpenFault::Ring);
    }
    if !have_contexts(workers) {
        return Err(WorldOpenFault::ContextLength);
    }
    if !have_rings(rings.len(), workers) {
        return Err(WorldOpenFault::Rings);
    }
    if workers.is_empty() {
        return Err(WorldOpenFault::Workers);
    }
    if workers.len() > 256 {
        return Err(WorldOpenFault::Workers);
    }
    if !have_rooms(rings) {
        return Err(WorldOpenFault::Chapter);
    }
    Ok(())
}

// Returns the rings, opened for this number of workers, with nothing taken. A ring's tag is its number.
pub(crate) fn open_rings(
    alloc: Global,
    rings: &[RingSetup],
    workers: u32,
) -> Result<Vec<ConsumedRing>, AllocError>
    requires setups { AreRings rings.now }
    requires rooms { HaveRooms rings.now }
    requires workers { IsWorkerCount workers }
    ensures opened { IfOk result (λ opened. opened.items ≡ opened_rings workers 0 rings.now) }
{
    let mut opened = Vec::new(alloc);
    for (number, setup) in rings.iter().enumerate() {
        let tag = number as u64;
        let ring = match RingState::new(alloc, tag, setup.size, setup.start, workers, setup.room) {
            Ok(ring) => ring,
            Err(OpenFault::Memory) => return Err(AllocError),
            Err(_) => unreachable!(),
        };
        opened.push(ConsumedRing {
            ring,
            chapters: Vec::new(alloc),
            taken: Vec::new(alloc),
        })?;
    }
    Ok(opened)
}

// Returns a worker's machine at its program's first instruction.
fn start_machine<'p>(worker: WorkerSetup<'p>) -> Machine<'p, &'p [u8], RingRecord>
    requires length { length worker.context.now ≡ worker.program.now.ctx_len }
    ensures started { IsStarted worker.entry result }
{
    worker.program.facts();
    worker.program.program().facts();
    match Machine::new(worker.program, worker.context) {
        Ok(machine) => machine,
        Err(_) => unreachable!(),
    }
}

// Returns the workers' machines, each at its program's first instruction.
pub(crate) fn start_machines<'p>(
    alloc: Global,
    workers: &[WorkerSetup<'p>],
) -> Result<Vec<Machine<'p, &'p [u8], RingRecord>>, AllocError>
    requires contexts { HaveContexts workers.now }
    ensures started { IfOk result (λ machines. AllZip IsStarted workers.now machines.items) }
{
    let mut machines = Vec::new(alloc);
    for worker in workers {
        machines.push(start_machine(*worker))?;
    }
    Ok(machines)
}
