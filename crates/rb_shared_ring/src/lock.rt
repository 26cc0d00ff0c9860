//! The lock of a shared ring: a queue of one place, which contains the ring's state with its book of hands, or nothing
//! while a thread holds the state. Each seat has a pass, which is its right to use the lock.

ghost use Rattle.std.specs.Prelude.{◌≡◌, [], Some, None, IfOk};
ghost use Rattle.std.specs.FinMap.{empty};
ghost use Rattle.crossbeam_queue.specs.Passes.{view, IsPassOf, IsSamePass, ruled_capacity};
ghost use Rattle.rb_ledger.specs.ChapteredRing.{chaptered_ring, IsChapteredRing};
ghost use Rattle.rb_chapter_ring.specs.Hands.{free_book};
ghost use Rattle.rb_chapter_ring.specs.HandRing.{HasHands};
ghost use Rattle.rb_ledger.specs.HandKnowledge.{hand_view};
ghost use Rattle.rb_ledger.specs.HandLockSteps.{TakesHandState, PutsHandState, OpensHandState, MayPutHands, unopened_hands};

use crate::batch_flag::BatchFlag;
use crate::wait_backoff::WaitBackoff;
use crossbeam_queue::protocol::{Join, Lesson, Outcome, Protocol, Split};
use crossbeam_queue::{Pass, RuledArrayQueue};
use rb_chapter_ring::RingState;
use std::alloc::{AllocError, Global};
use std::marker::Model;
use std::sync::Wait;

/// What a pass knows: its roles, and the state while it holds it. It exists only in proofs; no value of it is ever
/// created.
pub struct PassKnowledge;

impl Model for PassKnowledge {
    ghost use Rattle.std.specs.Coded.{codes};
    ghost use Rattle.std.specs.Prelude.{None, []};
    ghost use Rattle.rb_history.specs.RingModel.{contents_code};
    ghost use Rattle.rb_history.specs.contracts.entries.Entry as entry;
    ghost use Rattle.rb_history.specs.contracts.tally.Tally as tally_row;
    ghost use Rattle.rb_chapter_ring.specs.contracts.out_record.OutRecord as out_row;
    ghost use Rattle.rb_ledger.specs.HandKnowledge.{HandPassView, hand_view};

    ghost Value = { HandPassView };

    ghost coded = { Prim.hlevel (codes, contents_code, entry.the_row.coded, tally_row.the_row.coded, out_row.the_row.coded) };

    ghost view = { λ k. hand_view [] None };
}

/// A ring of one thread while it is in the lock. It is on the heap, so that taking it out and putting it back moves only
/// a pointer. Contracts see all of it but its tag.
#[derive(Drop)]
pub struct LockedState {
    ring: Box<RingState>,
}

impl Model for LockedState {
    ghost use Rattle.std.specs.Coded.{codes};
    ghost use Rattle.rb_history.specs.RingModel.{contents_code};
    ghost use Rattle.rb_history.specs.contracts.entries.Entry as entry;
    ghost use Rattle.rb_history.specs.contracts.tally.Tally as tally_row;
    ghost use Rattle.rb_chapter_ring.specs.contracts.out_record.OutRecord as out_row;
    ghost use Rattle.rb_chapter_ring.specs.HandRing.{HandRing};

    ghost Value = { HandRing };

    ghost coded = { Prim.hlevel (codes, contents_code, entry.the_row.coded, tally_row.the_row.coded, out_row.the_row.coded) };

    ghost view = { λ r. r.ring.value.state };
}

/// The lock's rule with hands: the invariant that each step of each thread preserves.
pub struct LockRule;

impl Protocol<LockedState, PassKnowledge> for LockRule {
    ghost use Rattle.std.specs.Prelude.{[], Some};
    ghost use Rattle.rb_ledger.specs.HandKnowledge.{hand_view};
    ghost use Rattle.rb_ledger.specs.LockRule.{KeepsHandLockRule};
    ghost use Rattle.rb_ledger.specs.HandLockSteps.{unopened_hands};

    ghost holds = { KeepsHandLockRule };

    ghost first = { hand_view [] (Some unopened_hands) };
}

// The step in which a pass takes the state out.
struct TakeOut;

impl Outcome<LockedState, PassKnowledge> for TakeOut {
    ghost use Rattle.rb_ledger.specs.HandLockSteps.{TakesHandState};

    ghost then = { TakesHandState };
}

impl Lesson<LockedState, PassKnowledge> for TakeOut {
    ghost fact = { λ v items. Unit {0} };
}

// The step in which a pass puts the state back after a call.
struct PutBack;

impl Outcome<LockedState, PassKnowledge> for PutBack {
    ghost use Rattle.rb_ledger.specs.HandLockSteps.{PutsHandState};

    ghost then = { PutsHandState };
}

impl Lesson<LockedState, PassKnowledge> for PutBack {
    ghost use Rattle.std.specs.Prelude.{◌≡◌, []};

    ghost fact = { λ v items. items ≡ [] };
}

// The step in which the opening pass puts the first state in.
struct PutFirst;

impl Outcome<LockedState, PassKnowledge> for PutFirst {
    ghost use Rattle.rb_ledger.specs.HandLockSteps.{OpensHandState};

    ghost then = { OpensHandState };
}

impl Lesson<LockedState, PassKnowledge> for PutFirst {
    ghost use Rattle.std.specs.Prelude.{◌≡◌, []};

    ghost fact = { λ v items. items ≡ [] };
}

/// Splits off a pass's first role, as a separate pass.
pub struct SplitFirstRole;

impl Split<PassKnowledge> for SplitFirstRole {
    ghost use Rattle.std.specs.Prelude.{None};
    ghost use Rattle.rb_ledger.specs.HandKnowledge.{hand_view};
    ghost use Rattle.rb_ledger.specs.HandLockSteps.{first_hand_role, other_hand_roles};

    ghost left = { λ v. hand_view (other_hand_roles v.knows) v.out };

    ghost right = { λ v. hand_view (first_hand_role v.knows) None };
}

/// Prepends another pass's roles to those of a pass.
pub struct JoinRoles;

impl Join<PassKnowledge> for JoinRoles {
    ghost use Rattle.std.specs.Prelude.{None, [], ◌++◌};
    ghost use Rattle.rb_ledger.specs.HandKnowledge.{hand_view};

    ghost both = { λ v w. hand_view (w.knows ++ v.knows) v.out };

    ghost spent = { hand_view [] None };
}

/// A seat's right to use the lock, with what it has seen, has sent or received, and holds.
pub type RingPass = Pass<LockedState, PassKnowledge>;

/// The queue of one place that contains a ring's state.
pub type Lock = RuledArrayQueue<LockedState, PassKnowledge, LockRule>;

/// Returns a lock without a state, and the pass that puts the first one in.
pub(crate) fn new_lock(alloc: Global) -> Result<(Lock, RingPass), AllocError>
    ensures capacity { IfOk result (λ l. ruled_capacity l.0 ≡ 1) }
    ensures pass { IfOk result (λ l. IsPassOf l.0 l.1) }
    ensures unopened { IfOk result (λ l. view l.1 ≡ hand_view [] (Some unopened_hands)) }
{
    Lock::ruled(alloc, 1)
}

/// Takes the state out as soon as it is available. A thread that finds the queue empty waits and tries again. A newly
/// arrived thread polls the batch flag and, if a batch is in progress, tries again as soon as it ends. Otherwise, and
/// from its second wait on, a thread backs off, for longer each time.
///
/// So after a batch the thread that used the ring last proceeds, and the waiting threads do not all retry at once.
pub(crate) fn take_out<R: Wait>(
    rt: &R,
    lock: &Lock,
    batch: &BatchFlag,
    pass: &mut RingPass,
) -> Box<RingState>
    requires pass { IsPassOf lock.now pass.old }
    requires free { (view pass.old).out ≡ None }
    ensures same { IsSamePass pass.old pass.new }
    ensures took { TakesHandState (view pass.old) result.value.state (view pass.new) }
{
    let mut wait_backoff = WaitBackoff::new();
    let mut has_just_come = true;
    for _ in rt.forever() {
        if let Some(state) = lock.pop_as::<TakeOut, R>(rt, pass) {
            return state.ring;
        }
        if !has_just_come || !batch.wait_out() {
            wait_backoff.wait();
        }
        has_just_come = false;
    }
    unreachable!()
}

/// Puts the state back, after a call with the pass's one role.
pub(crate) fn put_back<R: Wait>(rt: &R, lock: &Lock, pass: &mut RingPass, state: Box<RingState>)
    requires pass { IsPassOf lock.now pass.old × (ruled_capacity lock.now ≡ 1) }
    requires step { MayPutHands (view pass.old) state.value.state }
    ensures same { IsSamePass pass.old pass.new }
    ensures put { PutsHandState (view pass.old) state.value.state (view pass.new) }
{
    let resting = LockedState { ring: state };
    if lock.push_as::<PutBack, R>(rt, pass, resting).is_err() {
        unreachable!()
    }
}

/// Puts the first state in. From then on the pass has the roles of the consumer and of all workers.
pub(crate) fn put_first<R: Wait>(rt: &R, lock: &Lock, pass: &mut RingPass, state: Box<RingState>)
    requires pass { IsPassOf lock.now pass.old × (ruled_capacity lock.now ≡ 1) }
    requires unopened { view pass.old ≡ hand_view [] (Some unopened_hands) }
    requires opened { IsChapteredRing (chaptered_ring [] state.value.state.ring) × (state.value.state.ring.contents ≡ empty) }
    requires hands { HasHands state.value.state × (state.value.state.hands ≡ free_book state.value.state.ring.chapter.opening.setup.workers) }
    ensures same { IsSamePass pass.old pass.new }
    ensures put { OpensHandState (view pass.old) state.value.state (view pass.new) }
{
    let resting = LockedState { ring: state };
    if lock.push_as::<PutFirst, R>(rt, pass, resting).is_err() {
        unreachable!()
    }
}
