//! Every order of the calls of some workers and of the takes of a consumer. The final state of each is compared with a
//! plain implementation of the ring's rules. What a worker does between its calls touches no ring.

use crate::expected::{same, same_of};
use crate::shared::verified;
use crate::worlds::{DISCARD_42, SUBMIT_WIDE_42, opened, ring_0, turns, worker};
use rb_history::{Counts, Taken};
use rb_lend::Lent;
use rb_world::{Actor, WorkerSetup, World};
use std::alloc::Global;
use std::process::Abort;

#[derive(Clone, Copy, PartialEq, Eq)]
enum Status {
    Busy,
    Waiting,
    Discarded,
    Consumed,
    PassedOver,
}

#[derive(Clone, Copy)]
struct PlainRecord {
    worker: u32,
    status: Status,
}

/// A ring of 4,096 bytes whose records have one span, by the rules.
#[derive(Drop)]
struct OneSpanRing {
    span: u64,
    producer: u64,
    consumer: u64,
    refused: u64,
    records: Vec<PlainRecord>,
    /// The workers whose records were taken, in order.
    taken: Vec<u32>,
}

impl OneSpanRing {
    fn new(alloc: Global, span: u64) -> OneSpanRing {
        OneSpanRing {
            span,
            producer: 0,
            consumer: 0,
            refused: 0,
            records: Vec::new(alloc),
            taken: Vec::new(alloc),
        }
    }

    fn reserve(&mut self, rt: &impl Abort, worker: u32) {
        let end = self.producer.wrapping_add(self.span);
        if end.wrapping_sub(self.consumer) > 4095 {
            self.refused = self.refused.wrapping_add(1);
            return;
        }
        self.producer = end;
        self.records
            .push(PlainRecord {
                worker,
                status: Status::Busy,
            })
            .expect(rt, "memory");
    }

    fn give_back(&mut self, worker: u32, status: Status) {
        for record in self.records.iter_mut() {
            if record.worker == worker && record.status == Status::Busy {
                record.status = status;
            }
        }
    }

    fn take(&mut self, rt: &impl Abort) {
        for record in self.records.iter_mut() {
            match record.status {
                Status::Busy => return,
                Status::Waiting => {
                    record.status = Status::Consumed;
                    self.consumer = self.consumer.wrapping_add(self.span);
                    self.taken.push(record.worker).expect(rt, "memory");
                    return;
                }
                Status::Discarded => {
                    record.status = Status::PassedOver;
                    self.consumer = self.consumer.wrapping_add(self.span);
                    return;
                }
                Status::Consumed | Status::PassedOver => {}
            }
        }
    }

    fn count(&self, status: Status) -> u64 {
        let mut count: u64 = 0;
        for record in self.records.iter() {
            if record.status == status {
                count = count.wrapping_add(1);
            }
        }
        count
    }

    fn counts(&self) -> Counts {
        Counts {
            made: self.records.len() as u64,
            refused: self.refused,
            consumed: self.count(Status::Consumed),
            discarded: self
                .count(Status::Discarded)
                .wrapping_add(self.count(Status::PassedOver)),
            waiting: self.count(Status::Waiting),
            busy: self.count(Status::Busy),
        }
    }
}

/// Returns how often a digit occurs among the first eight base-4 digits of a code.
fn times(code: u32, digit: u32) -> u32 {
    let mut rest = code;
    let mut count: u32 = 0;
    for _ in 0..8 {
        if rest % 4 == digit {
            count = count.wrapping_add(1);
        }
        rest = rest / 4;
    }
    count
}

/// Returns the workers whose records were taken from ring 0, in order. Each handed over 42.
fn takers(rt: &impl Abort, alloc: Global, world: &World<'_>) -> Vec<u32> {
    let mut takers = Vec::new(alloc);
    if !world.has(Actor::Consumer(0)) {
        rt.panic("no ring")
    }
    for taken in world.taken(0) {
        if let Taken::Event(_, worker, _, sheet) = taken {
            same(rt, &sheet.bytes().first().copied(), &Some(42));
            takers.push(*worker).expect(rt, "memory");
        }
    }
    takers
}

// Performs one step of an order, in the world and in the plain ring. A worker makes its first call within four turns,
// and its second within five more.
fn go_on(
    rt: &impl Abort,
    world: &mut World<'_>,
    plain: &mut OneSpanRing,
    reserved: &mut [bool; 4],
    digit: u32,
    ends: Status,
) {
    let at = (digit % 4) as usize;
    if digit == 3 {
        turns(rt, world, Actor::Consumer(0), 1);
        plain.take(rt);
    } else if !reserved[at] {
        reserved[at] = true;
        turns(rt, world, Actor::Worker(digit), 4);
        plain.reserve(rt, digit);
    } else {
        turns(rt, world, Actor::Worker(digit), 5);
        plain.give_back(digit, ends);
    }
}

// Whether the world's ring has the same state as the plain one.
fn is_alike(rt: &impl Abort, alloc: Global, world: &World<'_>, plain: &OneSpanRing) -> bool {
    let found = ring_0(rt, world);
    let taken = takers(rt, alloc, world);
    found == (plain.producer, plain.consumer, plain.counts())
        && taken.as_slice() == plain.taken.as_slice()
}

/// Runs the order of a code, whose base-4 digits are the workers 0 to 2 and, as 3, the consumer.
fn runs_as_planned(
    rt: &impl Abort,
    alloc: Global,
    code: u32,
    workers: &[WorkerSetup<'_>],
    span: u64,
    ends: Status,
) -> bool {
    let mut world = opened(rt, alloc, workers);
    let mut plain = OneSpanRing::new(alloc, span);
    let mut reserved = [false; 4];
    let mut rest = code;
    for _ in 0..8 {
        go_on(rt, &mut world, &mut plain, &mut reserved, rest % 4, ends);
        rest = rest / 4;
    }
    is_alike(rt, alloc, &world, &plain)
}

/// Runs every order in which each digit occurs this often. Returns how many there are.
fn orders_that_run(
    rt: &impl Abort,
    alloc: Global,
    workers: &[WorkerSetup<'_>],
    often: [u32; 4],
    span: u64,
    ends: Status,
) -> u32 {
    let mut orders: u32 = 0;
    for code in 0..65_536 {
        let digits = [
            times(code, 0),
            times(code, 1),
            times(code, 2),
            times(code, 3),
        ];
        if digits == often {
            let is_planned = runs_as_planned(rt, alloc, code, workers, span, ends);
            same_of(rt, &is_planned, &true, &code);
            orders = orders.wrapping_add(1);
        }
    }
    orders
}

#[test]
// Two workers over a ring with room for one record: each makes both its calls at most twice, and the consumer takes the
// rest of the eight steps.
fn every_order_of_two_workers_over_room_for_one_record(rt: HostRuntime) {
    let program = verified(&rt, rt.alloc(), SUBMIT_WIDE_42, 0, 1);
    let workers = [worker(&program); 2];
    let often = [2, 2, 0, 4];
    let orders = orders_that_run(&rt, rt.alloc(), &workers, often, 4008, Status::Waiting);
    same(&rt, &orders, &420);
    drop(program);
}

#[test]
fn every_order_of_three_workers_that_discard(rt: HostRuntime) {
    let program = verified(&rt, rt.alloc(), DISCARD_42, 0, 1);
    let workers = [worker(&program); 3];
    let often = [2, 2, 2, 2];
    let orders = orders_that_run(&rt, rt.alloc(), &workers, often, 16, Status::Discarded);
    same(&rt, &orders, &2520);
    drop(program);
}
