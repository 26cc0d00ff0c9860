//! A worker of a world with all of its four hands in use.

use crate::expected::same;
use crate::shared::{HOLD_FOUR, verified};
use crate::worlds::{opened, ring_0, turns, worker};
use rb_history::Counts;
use rb_world::{Actor, TurnDone};

const FOUR_HELD: Counts = Counts {
    made: 4,
    refused: 0,
    consumed: 0,
    discarded: 0,
    waiting: 0,
    busy: 4,
};

const ONE_SENT: Counts = Counts {
    made: 5,
    refused: 0,
    consumed: 0,
    discarded: 0,
    waiting: 1,
    busy: 4,
};

const ALL_SENT: Counts = Counts {
    made: 5,
    refused: 0,
    consumed: 0,
    discarded: 0,
    waiting: 5,
    busy: 0,
};

#[test]
// A worker is granted four records; an output succeeds while it holds all four.
fn a_worker_holds_four_records(rt: HostRuntime) {
    let program = verified(&rt, rt.alloc(), HOLD_FOUR, 0, 1);
    let mut world = opened(&rt, rt.alloc(), &[worker(&program)]);
    turns(&rt, &mut world, Actor::Worker(0), 24);
    let held = ring_0(&rt, &world);
    turns(&rt, &mut world, Actor::Worker(0), 5);
    let sent = ring_0(&rt, &world);
    let done = turns(&rt, &mut world, Actor::Worker(0), 14);
    same(
        &rt,
        &(held, sent, ring_0(&rt, &world), done),
        &(
            (64, 0, FOUR_HELD),
            (80, 0, ONE_SENT),
            (80, 0, ALL_SENT),
            TurnDone::Finished(0),
        ),
    );
    drop(world);
    drop(program);
}
