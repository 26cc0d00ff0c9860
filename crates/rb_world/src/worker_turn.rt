//! One turn of a worker.

ghost use Rattle.std.specs.Prelude.{◌≡◌, ◌<◌, ◌≤◌, length, map};
ghost use Rattle.rb_world.specs.inner.HeldInHands.{AreInHand, HoldsEachOldOrOut, KeepsEachInHand, books_of};
ghost use Rattle.rb_world.specs.inner.WorkerTurn.{IsWorkerTurn};
ghost use Rattle.rb_world.specs.inner.FittingWorlds.{AreOwn, AreOpenTo, setups_of};
ghost use Rattle.rb_world.specs.RecordReasons.{HasReasons};
ghost use Rattle.rb_world.specs.TurnsDone.{chapters_of};
ghost use Rattle.rb_world.specs.WorldValue.{world_ring, worker_of};

use crate::consumed_ring::ConsumedRing;
use crate::turn_done::TurnDone;
use rb_chapter_ring::{RecordEnd, RingRecord};
use rb_interp::{Machine, Phase, Request, Step};
use std::alloc::Global;

// Executes the worker's next instruction. If it is a helper call, answers it.
pub(crate) fn work(
    machine: &mut Machine<'_, &[u8], RingRecord>,
    rings: &mut Vec<ConsumedRing>,
    alloc: Global,
    w: u32,
) -> TurnDone
    requires rings { AreOpenTo w (setups_of (map world_ring rings.old.items)) }
    requires program { machine.old.program.rings ≤ length rings.old.items }
    requires own { AreOwn w (length rings.old.items) machine.old.records }
    requires in_hand { AreInHand (books_of rings.old.items) machine.old.records }
    ensures turned { IsWorkerTurn w machine.old (map world_ring rings.old.items) result machine.new (map world_ring rings.new.items) }
    ensures own { AreOwn w (length rings.new.items) machine.new.records }
    ensures held { HoldsEachOldOrOut (books_of rings.new.items) machine.old.records machine.new.records }
    ensures hands { KeepsEachInHand rings.old.items rings.new.items }
    ensures program { machine.new.program ≡ machine.old.program }
    ensures chapters { map chapters_of rings.new.items ≡ map chapters_of rings.old.items }
    ensures reasons { HasReasons w (worker_of machine.old) rings.old.items rings.new.items }
{
    match machine.phase() {
        Phase::Ready => {}
        _ => return TurnDone::Idle,
    }
    machine.facts();
    match machine.step() {
        Step::Went => TurnDone::Went,
        Step::Exit(n) => TurnDone::Finished(n),
        Step::Call(Request::Reserve { ring, len, flags }) => {
            rings[ring as usize].answer_reserve(machine, alloc, w, ring, len, flags);
            TurnDone::Went
        }
        Step::Call(Request::Output { ring, flags }) => {
            rings[ring as usize].answer_output(machine, alloc, w, flags);
            TurnDone::Went
        }
        Step::Call(Request::Query { ring, what }) => {
            rings[ring as usize].answer_query(machine, what);
            TurnDone::Went
        }
        Step::Call(Request::Submit { owned, flags }) => {
            rings[owned.ring as usize].answer_given_back(machine, RecordEnd::Submit, owned, flags);
            TurnDone::Went
        }
        Step::Call(Request::Discard { owned, flags }) => {
            rings[owned.ring as usize].answer_given_back(machine, RecordEnd::Discard, owned, flags);
            TurnDone::Went
        }
    }
}
