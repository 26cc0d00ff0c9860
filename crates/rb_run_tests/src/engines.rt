//! Tests of each public call of an engine, with exact results.

ghost use Rattle.std.specs.Prelude.{◌≡◌, [], length};

use super::expected::same;
use super::shared::{SUBMIT_42, verified};
use rb_chapter_ring::OpenFault;
use rb_engine::{Engine, NoRun, NotSent};
use rb_history::{
    AVAIL_DATA, CONS_POS, Counts, FORCE_WAKEUP, NO_WAKEUP, Notice, PROD_POS, RING_SIZE, Taken,
};
use rb_lend::Lent;
use std::alloc::Global;
use std::process::Abort;

// A program that reserves a record of eight bytes, discards it if it was granted, and returns 7.
const DISCARD_8: &str = "1851000000000000 0000000000000000 b702000008000000 b703000000000000
    8500000083000000 1500030000000000 bf01000000000000
    b702000000000000 8500000085000000 b700000007000000 9500000000000000";

const CONTEXT: [u8; 16] = [0; 16];

// Returns an engine with rings of 4,096 and 8,192 bytes, for contexts of 16 bytes.
fn opened(rt: &impl Abort, alloc: Global) -> Engine
    ensures rings { length result.rings ≡ 2 }
    ensures programs { result.programs ≡ [] }
    ensures ctx_len { result.ctx_len ≡ 16 }
{
    Engine::open(alloc, &[4096, 8192], 16).expect(rt, "an engine")
}

// Returns whether the record at this position was taken, with these bytes.
fn is_event(taken: Taken, position: u64, bytes: &[u8]) -> bool {
    match taken {
        Taken::Event(at, _, _, sheet) => at == position && sheet.bytes() == bytes,
        _ => false,
    }
}

#[test]
fn runs_puts_and_takes_go_on_where_the_one_before_ended(rt: HostRuntime) {
    let alloc = rt.alloc();
    let mut engine = opened(&rt, alloc);
    let number = engine
        .add(verified(&rt, alloc, SUBMIT_42, 16, 2))
        .expect(&rt, "memory");
    let results = [engine.run(number, &CONTEXT), engine.run(number, &CONTEXT)];
    let notice = engine.put(0, &[1, 2, 3], 0);
    let lengths = (engine.front_len(0), engine.front_len(1));
    let first = is_event(engine.take(0), 0, &[42, 0, 0, 0, 0, 0, 0, 0]);
    let second = is_event(engine.take(0), 16, &[42, 0, 0, 0, 0, 0, 0, 0]);
    let third = is_event(engine.take(0), 32, &[1, 2, 3]);
    let is_empty = matches!(engine.take(0), Taken::Empty);
    same(
        &rt,
        &(number, results, notice),
        &(0, [Ok(0), Ok(0)], Ok(Notice::NotDue)),
    );
    same(
        &rt,
        &(lengths, first, second, third, is_empty),
        &((Some(8), None), true, true, true, true),
    );
    drop(engine);
}

#[test]
fn queries_and_counts_are_those_of_all_calls(rt: HostRuntime) {
    let alloc = rt.alloc();
    let mut engine = opened(&rt, alloc);
    let submits = engine
        .add(verified(&rt, alloc, SUBMIT_42, 16, 2))
        .expect(&rt, "memory");
    let discards = engine
        .add(verified(&rt, alloc, DISCARD_8, 16, 2))
        .expect(&rt, "memory");
    let results = [
        engine.run(discards, &CONTEXT),
        engine.run(submits, &CONTEXT),
    ];
    let refused = engine.put(0, &[0; 4096], 0);
    let is_skipped = matches!(engine.take(0), Taken::Skipped(0, 8));
    let answers = [AVAIL_DATA, RING_SIZE, CONS_POS, PROD_POS].map(|what| engine.query(0, what));
    let counts = Counts {
        made: 2,
        refused: 1,
        consumed: 0,
        discarded: 1,
        waiting: 1,
        busy: 0,
    };
    same(
        &rt,
        &(results, refused, is_skipped),
        &([Ok(7), Ok(0)], Err(NotSent::Full), true),
    );
    same(
        &rt,
        &(answers, engine.counts(0)),
        &([16, 4096, 16, 32], counts),
    );
    same(
        &rt,
        &(engine.rings(), engine.programs(), engine.ctx_len()),
        &(2, 2, 16),
    );
    drop(engine);
}

#[test]
fn refusals_have_their_reasons(rt: HostRuntime) {
    let alloc = rt.alloc();
    let mut engine = opened(&rt, alloc);
    let number = engine
        .add(verified(&rt, alloc, SUBMIT_42, 16, 2))
        .expect(&rt, "memory");
    let short = engine.run(number, &[0; 15]);
    let faults = [
        Engine::open(alloc, &[4096, 4095], 16).err(),
        Engine::open(alloc, &[], 0).err(),
    ];
    let notices = [
        engine.put(1, &[5], NO_WAKEUP),
        engine.put(1, &[5], FORCE_WAKEUP),
    ];
    same(
        &rt,
        &(short, faults),
        &(Err(NoRun::ContextLength), [Some(OpenFault::Size), None]),
    );
    same(&rt, &notices, &[Ok(Notice::NotDue), Ok(Notice::Due)]);
    drop(engine);
}

// Puts a byte into ring 0 and takes it. Returns whether the byte was at this position and the only record of the ring.
fn passes(engine: &mut Engine, byte: u8, position: u64) -> bool {
    if engine.rings() == 0 {
        return false;
    }
    engine.facts(0);
    engine.put(0, &[byte], 0) == Ok(Notice::Due) && is_event(engine.take(0), position, &[byte])
}

#[test]
fn a_ring_goes_on_through_its_chapters(rt: HostRuntime) {
    let mut engine = opened(&rt, rt.alloc());
    let mut passed = true;
    for number in 0..2000u64 {
        passed = passed && passes(&mut engine, (number % 251) as u8, number * 16);
    }
    let consumed = if engine.rings() > 0 {
        engine.counts(0).consumed
    } else {
        0
    };
    same(&rt, &(passed, consumed), &(true, 2000));
    drop(engine);
}
