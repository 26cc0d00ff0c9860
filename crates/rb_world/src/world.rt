//! A world of workers and rings.

use crate::Actor;
use crate::consumed_ring::ConsumedRing;
use crate::turn_done::TurnDone;
use crate::worker_turn::work;
use crate::world_fault::WorldOpenFault;
use crate::world_setup::{RingSetup, WorkerSetup, check_setups, open_rings, start_machines};
use rb_chapter_ring::{Chapter, RingRecord, RingState};
use rb_history::Taken;
use rb_interp::{Machine, Phase};
use std::alloc::Global;
use std::marker::Model;

/// A world of workers and rings. Each worker has a machine that runs its program. Each ring has a consumer, and a
/// keeper that hands out the ring's chapters, which the world keeps.
///
/// A world advances by turns, one actor at a time, in any order that the caller chooses. Nothing blocks, and there are
/// no threads or locks.
///
/// Contracts see the machines, the rings with what was taken from them, and the world of the definitions that these
/// represent (`world_of`).
#[derive(Drop)]
pub struct World<'p> {
    alloc: Global,
    rings: Vec<ConsumedRing>,
    machines: Vec<Machine<'p, &'p [u8], RingRecord>>,
}

impl<'p> Model for World<'p> {
    ghost use Rattle.rb_world.specs.WorldValue.{WorldValue};
    ghost use Rattle.rb_world.specs.inner.HeldInHands.{IsHeldWorld};
    ghost use Rattle.std.specs.Coded.{codes};
    ghost use Rattle.rb_history.specs.RingModel.{contents_code};
    ghost use Rattle.rb_history.specs.contracts.entries.Entry as entry;
    ghost use Rattle.rb_history.specs.contracts.tally.Tally as tally_row;
    ghost use Rattle.rb_chapter_ring.specs.contracts.out_record.OutRecord as out_row;

    ghost Value = { WorldValue };

    ghost coded = { Prim.hlevel (codes, contents_code, entry.the_row.coded, tally_row.the_row.coded, out_row.the_row.coded) };

    ghost view = { λ w. record { rings = w.rings.items; machines = w.machines.items } };

    ghost invariant = { λ w. IsHeldWorld (record { rings = w.rings.items; machines = w.machines.items }) };
}

impl<'p> World<'p> {
    ghost use Rattle.std.specs.Prelude.{◌≡◌, ◌<◌, ◌↔◌, IsTrue, IsErrOf, OnOk, IfOk, length};
    ghost use Rattle.rb_history.specs.RingModel.{IsWorkerCount};
    ghost use Rattle.rb_world.specs.declared.actor.Actor.TheVariants.{Worker, Consumer, Keeper};
    ghost use Rattle.rb_world.specs.EveryInterleaving.{IsReachedWorld};
    ghost use Rattle.rb_world.specs.OpeningWorld.{IsOpeningWorld};
    ghost use Rattle.rb_world.specs.OpenedWorlds.{AreRings, HaveContexts, HaveRings, HaveRooms, IsOpenedWorld, MayOpen};
    ghost use Rattle.rb_world.specs.RecordReasons.{TurnHasReasons};
    ghost use Rattle.rb_world.specs.WorldRuns.{next_unit, result_of};
    ghost use Rattle.rb_world.specs.TurnsDone.{IsTurnOf, TurnsChaptersOf, chapters_of};
    ghost use Rattle.rb_chapter_ring.specs.Chapters.{joined};
    ghost use Rattle.rb_chapter_ring.specs.ChapterRing.{whole_ring};
    ghost use Rattle.rb_chapter_ring.specs.WholeHistory.{Binds, IsBound, IsKept};
    ghost use Rattle.rb_world.specs.WorldValue.{IsThere, ring_at, world_of};

    /// Opens a world with these rings, from which nothing was taken, and these workers, each at the first instruction
    /// of its program.
    ///
    /// Returns the first refusal that applies, in the order of `WorldOpenFault`. A refusal other than `Memory` is
    /// returned if and only if it is the first that applies; `Memory` is returned only if no other applies.
    pub fn new(
        alloc: Global,
        rings: &[RingSetup],
        workers: &[WorkerSetup<'p>],
    ) -> Result<World<'p>, WorldOpenFault>
        ensures opened { IfOk result (IsOpenedWorld rings.now workers.now) }
        ensures opening { IfOk result (λ w. IsOpeningWorld (world_of w)) }
        ensures ring { IsErrOf result WorldOpenFault.Ring ↔ ¬ AreRings rings.now }
        ensures context_length { IsErrOf result WorldOpenFault.ContextLength ↔ (AreRings rings.now × ¬ HaveContexts workers.now) }
        ensures ring_count { IsErrOf result WorldOpenFault.Rings ↔ (AreRings rings.now × HaveContexts workers.now × ¬ HaveRings (length rings.now) workers.now) }
        ensures worker_count { IsErrOf result WorldOpenFault.Workers ↔ (AreRings rings.now × HaveContexts workers.now × HaveRings (length rings.now) workers.now × ¬ IsWorkerCount (length workers.now)) }
        ensures chapter { IsErrOf result WorldOpenFault.Chapter ↔ (AreRings rings.now × HaveContexts workers.now × HaveRings (length rings.now) workers.now × IsWorkerCount (length workers.now) × ¬ HaveRooms rings.now) }
        ensures memory { IsErrOf result WorldOpenFault.Memory → MayOpen rings.now workers.now }
        ensures allowed { OnOk result (MayOpen rings.now workers.now) }
    {
        if let Err(fault) = check_setups(rings, workers) {
            return Err(fault);
        }
        let Ok(opened) = open_rings(alloc, rings, workers.len() as u32) else {
            return Err(WorldOpenFault::Memory);
        };
        let Ok(machines) = start_machines(alloc, workers) else {
            return Err(WorldOpenFault::Memory);
        };
        Ok(World {
            alloc,
            rings: opened,
            machines,
        })
    }

    /// The invariant of every world: it was reached by turns from an opening of verified programs, so
    /// `reached_worlds_are_well` applies to it. For callers' proofs; it does nothing at run time.
    pub fn facts(&self)
        ensures { IsReachedWorld (world_of self.now) }
    {
        let _ = &self.alloc;
    }

    /// Whether the actor exists. In constant time.
    pub fn has(&self, actor: Actor) -> bool
        ensures { IsTrue result ↔ IsThere self.now actor }
    {
        match actor {
            Actor::Worker(w) => (w as usize) < self.machines.len(),
            Actor::Consumer(r) | Actor::Keeper(r) => (r as usize) < self.rings.len(),
        }
    }

    /// Returns everything that was taken from a ring, in order: the events with their bytes, and the skipped records.
    pub fn taken(&self, r: u32) -> &[Taken]
        requires ring { r < length self.now.rings }
        ensures { result.now ≡ ((world_of self.now).rings r).taken }
    {
        self.rings[r as usize].taken.as_slice()
    }

    /// Returns a ring. Its tag is its number; read its positions by `query`, its counts by `counts` and its chapter by
    /// `chapter`. Positions and counts are those of its whole history, across all chapters.
    pub fn ring(&self, r: u32) -> &RingState
        requires ring { r < length self.now.rings }
        ensures ring { result.now ≡ (ring_at self.now r).ring }
        ensures tag { result.now.tag ≡ r }
        ensures whole { whole_ring (joined (ring_at self.now r).chapters) result.now.state.ring ≡ ((world_of self.now).rings r).ring }
        ensures kept { IsKept (joined (ring_at self.now r).chapters) result.now.state.ring.chapter }
    {
        self.rings[r as usize].facts();
        &self.rings[r as usize].ring
    }

    /// Returns the chapters that a ring handed out, oldest first. Followed by the ring's current chapter, they bind:
    /// they are numbered from 0, the first opens on the empty ring, each continues the one before, and their entries
    /// together are the ring's whole history.
    pub fn chapters(&self, r: u32) -> &[Chapter]
        requires ring { r < length self.now.rings }
        ensures chapters { result.now ≡ (ring_at self.now r).chapters }
        ensures binds { Binds result.now (ring_at self.now r).ring.state.ring.chapter }
        ensures bound { IsBound result.now (ring_at self.now r).ring.state.ring.chapter ((world_of self.now).rings r).ring.history }
    {
        self.rings[r as usize].facts();
        self.rings[r as usize].chapters.as_slice()
    }

    /// Returns the unit of a worker's next instruction, or `None` if the worker has finished.
    pub fn at(&self, w: u32) -> Option<u32>
        requires worker { w < length self.now.machines }
        ensures { result ≡ next_unit ((world_of self.now).workers w) }
    {
        let machine = &self.machines[w as usize];
        match machine.phase() {
            Phase::Ready => Some(machine.unit()),
            _ => None,
        }
    }

    /// Returns the result of a worker's program, or `None` if it is still running.
    pub fn result(&self, w: u32) -> Option<u64>
        requires worker { w < length self.now.machines }
        ensures { result ≡ result_of ((world_of self.now).workers w) }
    {
        match self.machines[w as usize].phase() {
            Phase::Exited(value) => Some(value),
            _ => None,
        }
    }

    // Returns the allocator that the world was opened with.
    pub(crate) fn allocator(&self) -> Global {
        self.alloc
    }

    // Makes one take of a ring's consumer.
    fn turn_consumer(&mut self, r: u32) -> TurnDone
        requires ring { r < length self.old.rings }
        ensures turned { IsTurnOf (Consumer r) self.old result self.new }
        ensures chapters { TurnsChaptersOf (Consumer r) result self.old.rings self.new.rings }
        ensures workers { length self.new.machines ≡ length self.old.machines }
        ensures rings { length self.new.rings ≡ length self.old.rings }
    {
        self.rings[r as usize].consume()
    }

    // Lets a ring's keeper hand out the chapter.
    fn turn_keeper(&mut self, r: u32) -> TurnDone
        requires ring { r < length self.old.rings }
        ensures turned { IsTurnOf (Keeper r) self.old result self.new }
        ensures chapters { TurnsChaptersOf (Keeper r) result self.old.rings self.new.rings }
        ensures workers { length self.new.machines ≡ length self.old.machines }
        ensures rings { length self.new.rings ≡ length self.old.rings }
    {
        self.rings[r as usize].hand_out(self.alloc)
    }

    // Runs one turn of a worker: its next instruction, and the answer if that is a helper call.
    fn turn_worker(&mut self, w: u32) -> TurnDone
        requires worker { w < length self.old.machines }
        ensures turned { IsTurnOf (Worker w) self.old result self.new }
        ensures chapters { TurnsChaptersOf (Worker w) result self.old.rings self.new.rings }
        ensures reasons { TurnHasReasons (Worker w) self.old self.new }
        ensures workers { length self.new.machines ≡ length self.old.machines }
        ensures rings { length self.new.rings ≡ length self.old.rings }
    {
        work(
            &mut self.machines[w as usize],
            &mut self.rings,
            self.alloc,
            w,
        )
    }

    /// Runs one turn of an actor.
    ///
    /// A worker that has not finished executes one instruction, and its ring answers a helper call at once. A consumer
    /// makes one take. A keeper hands out the ring's chapter, which the world keeps.
    ///
    /// A turn takes constant time, apart from copying a record's bytes and growing the lists. A keeper's turn also
    /// allocates a chapter.
    pub fn turn(&mut self, actor: Actor) -> TurnDone
        requires there { IsThere self.old actor }
        ensures turned { IsTurnOf actor self.old result self.new }
        ensures chapters { TurnsChaptersOf actor result self.old.rings self.new.rings }
        ensures reasons { TurnHasReasons actor self.old self.new }
        ensures workers { length self.new.machines ≡ length self.old.machines }
        ensures rings { length self.new.rings ≡ length self.old.rings }
    {
        match actor {
            Actor::Worker(w) => self.turn_worker(w),
            Actor::Consumer(r) => self.turn_consumer(r),
            Actor::Keeper(r) => self.turn_keeper(r),
        }
    }
}
