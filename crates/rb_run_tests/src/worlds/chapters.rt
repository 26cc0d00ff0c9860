//! Worlds whose keepers hand chapters out.

use crate::expected::same;
use crate::shared::{SUBMIT_42, verified};
use crate::worlds::{is_event, opened_with, ring_0, turn, turns, worker};
use rb_history::{Counts, Entry};
use rb_ledger::bind_chapters;
use rb_world::{Actor, TurnDone, World};
use std::alloc::Global;
use std::process::Abort;

const FORTY_TWO: [u8; 8] = [42, 0, 0, 0, 0, 0, 0, 0];

// Returns the numbers of the chapters that ring 0 handed out and the numbers of their entries, and then those of the
// current one.
fn chapters(rt: &impl Abort, world: &World<'_>) -> [(u64, u32); 2] {
    if !world.has(Actor::Keeper(0)) {
        rt.panic("no ring")
    }
    let kept = world.ring(0).chapter();
    match world.chapters(0).first() {
        Some(chapter) => [
            (chapter.number(), chapter.used()),
            (kept.number(), kept.used()),
        ],
        None => rt.panic("no chapter"),
    }
}

// Returns the whole history of ring 0: its chapters, bound.
fn history(rt: &impl Abort, alloc: Global, world: &World<'_>) -> Vec<Entry> {
    if !world.has(Actor::Keeper(0)) {
        rt.panic("no ring")
    }
    bind_chapters(alloc, world.chapters(0), world.ring(0).chapter()).expect(rt, "a history")
}

// Returns a worker's next unit, and its result.
fn state(rt: &impl Abort, world: &World<'_>) -> (Option<u32>, Option<u64>) {
    if !world.has(Actor::Worker(0)) {
        rt.panic("no worker")
    }
    (world.at(0), world.result(0))
}

// Returns the turns and states of a worker and a keeper, with the record reserved in the first chapter and submitted
// and taken in the second.
fn over_two_chapters(
    rt: &impl Abort,
    world: &mut World<'_>,
) -> ([TurnDone; 3], [(Option<u32>, Option<u64>); 2]) {
    turns(rt, world, Actor::Worker(0), 4);
    let reserved = state(rt, world);
    let handed_out = turn(rt, world, Actor::Keeper(0));
    let finished = turns(rt, world, Actor::Worker(0), 7);
    let ended = state(rt, world);
    let took = turn(rt, world, Actor::Consumer(0));
    ([handed_out, finished, took], [reserved, ended])
}

const ONE_CONSUMED: Counts = Counts {
    made: 1,
    refused: 0,
    consumed: 1,
    discarded: 0,
    waiting: 0,
    busy: 0,
};

#[test]
fn a_record_outlives_its_chapter(rt: HostRuntime) {
    let program = verified(&rt, rt.alloc(), SUBMIT_42, 0, 1);
    let mut world = opened_with(&rt, rt.alloc(), &[worker(&program)], 8);
    same(
        &rt,
        &over_two_chapters(&rt, &mut world),
        &(
            [TurnDone::Chapter(0), TurnDone::Finished(0), TurnDone::Took],
            [(Some(5), None), (None, Some(0))],
        ),
    );
    same(
        &rt,
        &(
            is_event(&rt, &world, 0, (0, 0, 0, &FORTY_TWO)),
            ring_0(&rt, &world),
            chapters(&rt, &world),
        ),
        &(true, (16, 16, ONE_CONSUMED), [(0, 1), (1, 2)]),
    );
    same(
        &rt,
        &history(&rt, rt.alloc(), &world).as_slice(),
        &[Entry::Res(0, 0, 8, 0), Entry::Sub(0), Entry::Take(0)].as_slice(),
    );
    drop(world);
    drop(program);
}

const TWO_BUSY: Counts = Counts {
    made: 2,
    refused: 0,
    consumed: 0,
    discarded: 0,
    waiting: 0,
    busy: 2,
};

#[test]
// With two busy records, a chapter of room 8 is full. The third worker gets null, which is not logged.
fn a_full_chapter_gives_no_record(rt: HostRuntime) {
    let program = verified(&rt, rt.alloc(), SUBMIT_42, 0, 1);
    let mut world = opened_with(&rt, rt.alloc(), &[worker(&program); 3], 8);
    for w in 0..3 {
        turns(&rt, &mut world, Actor::Worker(w), 4);
    }
    same(&rt, &ring_0(&rt, &world), &(32, 0, TWO_BUSY));
    let done = turns(&rt, &mut world, Actor::Worker(2), 3);
    same(&rt, &done, &TurnDone::Finished(0));
    drop(world);
    drop(program);
}

#[test]
// The keeper has two turns: in the first chapter a record was reserved, in the second it is submitted.
fn a_second_chapter_is_handed_out(rt: HostRuntime) {
    let program = verified(&rt, rt.alloc(), SUBMIT_42, 0, 1);
    let mut world = opened_with(&rt, rt.alloc(), &[worker(&program)], 8);
    turns(&rt, &mut world, Actor::Worker(0), 4);
    let first = turn(&rt, &mut world, Actor::Keeper(0));
    turns(&rt, &mut world, Actor::Worker(0), 7);
    let second = turn(&rt, &mut world, Actor::Keeper(0));
    same(
        &rt,
        &[first, second],
        &[TurnDone::Chapter(0), TurnDone::Chapter(1)],
    );
    same(
        &rt,
        &history(&rt, rt.alloc(), &world).as_slice(),
        &[Entry::Res(0, 0, 8, 0), Entry::Sub(0)].as_slice(),
    );
    drop(world);
    drop(program);
}
