//! A worked script, with answers that were worked out by hand.

use crate::expected::same;
use crate::shared::{SUBMIT_42, verified};
use crate::worlds::{is_event, opened, ring_0, turn, worker};
use rb_history::Counts;
use rb_world::{Actor, TurnDone, World};
use std::process::Abort;

const FORTY_TWO: [u8; 8] = [42, 0, 0, 0, 0, 0, 0, 0];

// Worker 0 makes its reserve; worker 1 runs to its end and has submitted a record after it; the consumer finds the
// front busy; worker 0 runs to its end; and the consumer takes both records and then finds none.
fn script(n: usize) -> (Actor, TurnDone) {
    match n {
        0..4 => (Actor::Worker(0), TurnDone::Went),
        4..14 => (Actor::Worker(1), TurnDone::Went),
        14 => (Actor::Worker(1), TurnDone::Finished(0)),
        15 => (Actor::Consumer(0), TurnDone::BusyFront),
        16..22 => (Actor::Worker(0), TurnDone::Went),
        22 => (Actor::Worker(0), TurnDone::Finished(0)),
        23..25 => (Actor::Consumer(0), TurnDone::Took),
        _ => (Actor::Consumer(0), TurnDone::Empty),
    }
}

fn actors() -> [Actor; 26] {
    let mut actors = [Actor::Consumer(0); 26];
    for n in 0..26 {
        actors[n] = script(n).0;
    }
    actors
}

// Returns what each of its turns does.
fn answers() -> [TurnDone; 26] {
    let mut answers = [TurnDone::Idle; 26];
    for n in 0..26 {
        answers[n] = script(n).1;
    }
    answers
}

const TWO_CONSUMED: Counts = Counts {
    made: 2,
    refused: 0,
    consumed: 2,
    discarded: 0,
    waiting: 0,
    busy: 0,
};

#[test]
fn a_busy_record_stops_the_consumer(rt: HostRuntime) {
    let program = verified(&rt, rt.alloc(), SUBMIT_42, 0, 1);
    let mut world = opened(&rt, rt.alloc(), &[worker(&program); 2]);
    let report = world.run(&actors()).expect(&rt, "a run");
    same(&rt, &report.turns.as_slice(), &answers().as_slice());
    let events = [
        is_event(&rt, &world, 0, (0, 0, 0, &FORTY_TWO)),
        is_event(&rt, &world, 1, (16, 1, 0, &FORTY_TWO)),
    ];
    same(
        &rt,
        &(events, ring_0(&rt, &world)),
        &([true, true], (32, 32, TWO_CONSUMED)),
    );
    drop((world, report));
    drop(program);
}

// Returns the answers of the script's turns, one by one.
fn turned(rt: &impl Abort, world: &mut World<'_>) -> [TurnDone; 26] {
    let mut answers = [TurnDone::Idle; 26];
    for n in 0..26 {
        answers[n] = turn(rt, world, script(n).0);
    }
    answers
}

#[test]
// A run returns the same answers as the turns of its actors, one by one.
fn a_run_answers_as_its_turns_do(rt: HostRuntime) {
    let program = verified(&rt, rt.alloc(), SUBMIT_42, 0, 1);
    let mut world = opened(&rt, rt.alloc(), &[worker(&program); 2]);
    let report = world.run(&actors()).expect(&rt, "a run");
    let mut other = opened(&rt, rt.alloc(), &[worker(&program); 2]);
    same(
        &rt,
        &report.turns.as_slice(),
        &turned(&rt, &mut other).as_slice(),
    );
    drop((world, other, report));
    drop(program);
}
