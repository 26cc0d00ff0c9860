//! Helpers that answer from a list.

ghost use Rattle.std.specs.Prelude.{◌≡◌};

use super::expected::same;
use super::shared::submit_filled;
use rb_interp::{DISCARD, Done, EAGAIN, Helpers, Listed, OUTPUT, QUERY, RESERVE, SUBMIT};
use rb_lend::{Lent, Sheet};
use std::alloc::Global;
use std::process::Abort;

/// Returns helpers that give these answers, in this order.
fn listed(rt: &impl Abort, alloc: Global, answers: &[bool]) -> Listed
    ensures { result.left ≡ answers.now }
{
    let answers = answers.to_vec(alloc).expect(rt, "memory");
    Listed::new(alloc, answers).expect(rt, "memory")
}

#[test]
fn the_answers_of_the_list_come_one_a_call(rt: HostRuntime) {
    let mut helpers = listed(&rt, rt.alloc(), &[true, true, false]);
    let before = helpers.room();
    let is_submitted = submit_filled(&mut helpers, 7, 8, 42);
    let between = helpers.room();
    let is_granted = helpers.reserve(0, 8, 0).is_some();
    same(
        &rt,
        &(before, is_submitted, between, is_granted, helpers.room()),
        &(3, true, 1, false, 0),
    );
    same(&rt, &helpers.trace(), &GRANTED_ONCE.as_slice());
}

const GRANTED_ONCE: [Done; 3] = [
    Done::Reserve {
        ring: 7,
        len: 8,
        flags: 0,
        granted: true,
    },
    Done::Submit {
        flags: 0,
        taken: true,
    },
    Done::Reserve {
        ring: 0,
        len: 8,
        flags: 0,
        granted: false,
    },
];

#[test]
fn a_granted_record_is_zero_bytes(rt: HostRuntime) {
    let mut helpers = listed(&rt, rt.alloc(), &[true]);
    let owned = helpers.reserve(3, 4, 9).expect(&rt, "a record");
    same(&rt, &owned.bytes(), &[0, 0, 0, 0].as_slice());
}

#[test]
fn false_hands_the_record_back(rt: HostRuntime) {
    let mut helpers = listed(&rt, rt.alloc(), &[false, false, true]);
    let owned = Sheet::new(rt.alloc(), 2).expect(&rt, "memory");
    let back = helpers.submit(owned, 0).expect_err(&rt, "handed back");
    let back = helpers.discard(back, 1).expect_err(&rt, "handed back");
    let left = (back.len(), helpers.room());
    let is_taken = helpers.discard(back, 2).is_ok();
    same(&rt, &(left, is_taken), &((2, 1), true));
    same(&rt, &helpers.trace(), &TAKEN_AT_LAST.as_slice());
}

const TAKEN_AT_LAST: [Done; 3] = [
    Done::Submit {
        flags: 0,
        taken: false,
    },
    Done::Discard {
        flags: 1,
        taken: false,
    },
    Done::Discard {
        flags: 2,
        taken: true,
    },
];

#[test]
fn outputs_and_queries_are_answered(rt: HostRuntime) {
    let mut helpers = listed(&rt, rt.alloc(), &[true, false, true]);
    let outputs = [
        helpers.output(1, [5, 6].as_slice(), 0),
        helpers.output(2, [].as_slice(), 4),
    ];
    same(&rt, &(outputs, helpers.query(3, 1)), &([0, -EAGAIN], 0));
    same(&rt, &helpers.trace(), &OUTPUTS_AND_QUERY.as_slice());
}

const OUTPUTS_AND_QUERY: [Done; 3] = [
    Done::Output {
        ring: 1,
        len: 2,
        flags: 0,
        answer: 0,
    },
    Done::Output {
        ring: 2,
        len: 0,
        flags: 4,
        answer: -11,
    },
    Done::Query {
        ring: 3,
        what: 1,
        answer: 0,
    },
];

#[test]
fn the_numbers_are_the_kernels(rt: HostRuntime) {
    same(
        &rt,
        &[OUTPUT, RESERVE, SUBMIT, DISCARD, QUERY],
        &[130, 131, 132, 133, 134],
    );
}
