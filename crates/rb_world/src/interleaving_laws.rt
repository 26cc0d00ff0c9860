//! The theorem on all interleavings.

ghost use Rattle.rb_world.specs.EveryInterleaving.{EveryInterleavingIsWell, ReachedWorldsAreWell, TurnsLeadOn};
ghost use Rattle.rb_world.specs.TakenTapes.{EnoughTakesLeaveNone, TakenStandOnTapes};

/// After the turns of any list of actors, in any order:
///
/// - no worker is stuck, and no record was returned to its worker as a stray;
/// - a worker that had at least as many turns as its program has units has finished;
/// - the busy records of each ring are exactly those that unfinished workers hold, each held once;
/// - at each position bytes were handed over at most once, by the worker that the record there was granted to;
/// - the bytes taken as a worker's event are the bytes that this worker handed over;
/// - the records taken are the first that were reserved, in that order.
pub fn every_interleaving_is_well()
    ensures { EveryInterleavingIsWell }
{}

/// Every world reached by turns from an opening of verified programs satisfies `IsWellRun` for these turns, and one
/// more turn leads to another reachable world.
pub fn reached_worlds_are_well()
    ensures well { ReachedWorldsAreWell }
    ensures leads_on { TurnsLeadOn }
{}

/// In every reachable world, the records taken from a ring (of at most 67,108,864 bytes) form a tape. After all workers
/// have finished, a ring is empty once its consumer has had as many turns as all actors had until then, provided that
/// none of the later turns failed for memory.
pub fn taken_records_are_tapes()
    ensures stand { TakenStandOnTapes }
    ensures none_left { EnoughTakesLeaveNone }
{}
