//! Runs of a world: the turns of a list of actors.

ghost use Rattle.std.specs.Prelude.{◌≡◌, ◌↔◌, ℕ, All, IfOk, IfErr, IsErrOf, OnOk, OnErr, length};
ghost use Rattle.rb_world.specs.WorldRuns.{IsFirstUnknown, IsRunOf, TakesTurns};
ghost use Rattle.rb_world.specs.inner.Refusals.{IsRefusedRun};
ghost use Rattle.rb_world.specs.WorldValue.{IsThere};

use crate::Actor;
use crate::turn_done::TurnDone;
use crate::world::World;
use crate::world_fault::WorldFault;

/// The results of the turns of a list of actors.
#[derive(Drop)]
pub struct Report {
    /// The result of each turn, in order.
    pub turns: Vec<TurnDone>,
}

// Returns the index of the first actor that does not exist as an error, or `Ok` if all exist.
fn check_actors(world: &World<'_>, actors: &[Actor]) -> Result<(), WorldFault>
    ensures known { OnOk result (All (IsThere world.now) actors.now) }
    ensures refused { IfErr result (IsRefusedRun world.now actors.now) }
{
    for (place, actor) in actors.iter().enumerate() {
        if !world.has(*actor) {
            return Err(WorldFault::UnknownActor(place));
        }
    }
    Ok(())
}

impl<'p> World<'p> {
    /// Runs the turns of these actors in order, and returns the result of each.
    ///
    /// Returns `UnknownActor` with the index of the first actor that does not exist, if there is one, or `Memory` if
    /// the report cannot be allocated. In both cases no turn is run.
    pub fn run(&mut self, actors: &[Actor]) -> Result<Report, WorldFault>
        ensures ran { IfOk result (λ report. IsRunOf actors.now self.old report.turns.items self.new) }
        ensures turns { IfOk result (λ report. TakesTurns actors.now self.old report.turns.items self.new) }
        ensures known { OnOk result (All (IsThere self.old) actors.now) }
        ensures unknown { (place : ℕ) → IsErrOf result (WorldFault.UnknownActor place) ↔ IsFirstUnknown self.old actors.now place }
        ensures memory { IsErrOf result WorldFault.Memory → All (IsThere self.old) actors.now }
        ensures nothing_ran { OnErr result (self.new ≡ self.old) }
        ensures workers { length self.new.machines ≡ length self.old.machines }
        ensures rings { length self.new.rings ≡ length self.old.rings }
    {
        if let Err(fault) = check_actors(self, actors) {
            return Err(fault);
        }
        let Ok(mut turns) = Vec::with_capacity(self.allocator(), actors.len()) else {
            return Err(WorldFault::Memory);
        };
        for actor in actors {
            let done = self.turn(*actor);
            turns.push_reserved(done);
        }
        Ok(Report { turns })
    }
}
