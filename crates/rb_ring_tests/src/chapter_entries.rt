//! The entries of a chapter, which are read in full although each is stored in eight bytes.

use crate::expected::{same, sheet};
use rb_chapter_ring::{Chapter, Reservation, RingState};
use rb_history::Entry;
use std::alloc::Global;
use std::process::Abort;

// The greatest first position of a ring, so that positions take as many bits as they can.
const START: u64 = 2_305_843_009_213_693_952;

// The entries of the first chapter, and of the second one, whose serials continue.
const FIRST: [Entry; 6] = [
    Entry::Res(255, 0, 5, START),
    Entry::Sub(START),
    Entry::Res(255, 1, 4000, START + 16),
    Entry::Sub(START + 16),
    Entry::Full(3, 4096),
    Entry::Take(START),
];

const SECOND: [Entry; 6] = [
    Entry::Res(255, 2, 0, START + 4024),
    Entry::Sub(START + 4024),
    Entry::Res(0, 0, 8, START + 4032),
    Entry::Dis(START + 4032),
    Entry::Take(START + 16),
    Entry::Take(START + 4024),
];

// Makes the worker output `n` bytes.
fn output(rt: &impl Abort, alloc: Global, ring: &mut RingState, worker: u32, n: u32) {
    if worker < ring.chapter().opening().numbers().workers {
        let _ = ring.output(worker, sheet(rt, alloc, n), 0);
    }
}

// Reserves a record of eight bytes of worker 0.
fn reserved(rt: &impl Abort, alloc: Global, ring: &mut RingState) -> Option<Reservation> {
    if ring.chapter().opening().numbers().workers == 0 {
        return None;
    }
    let hand = ring.free_hand(0)?;
    ring.reserve(0, hand, 8, sheet(rt, alloc, 8)).ok()
}

// Reserves and discards a record of eight bytes of worker 0.
fn discard(rt: &impl Abort, alloc: Global, ring: &mut RingState) {
    if let Some(record) = reserved(rt, alloc, ring) {
        if ring.is_out(&record) {
            ring.discard(record, 0);
        }
    }
}

// Ends the test unless the chapter has these entries.
fn has_entries(rt: &impl Abort, alloc: Global, chapter: &Chapter, wanted: &[Entry; 6]) {
    let mut entries = chapter.entries();
    let told = (entries.len(), entries.next(), entries.len());
    same(rt, &told, &(6, Some(wanted[0]), 5));
    let mut all = Vec::new(alloc);
    let _ = chapter.entries().append_to(&mut all);
    same(rt, &all.as_slice(), &wanted.as_slice());
}

// Lets the ring log the entries of the first chapter. Returns that chapter, which the ring hands out.
fn first_chapter(rt: &impl Abort, alloc: Global, ring: &mut RingState) -> Chapter {
    output(rt, alloc, ring, 255, 5);
    output(rt, alloc, ring, 255, 4000);
    output(rt, alloc, ring, 3, 4096);
    let _ = ring.take();
    let empty = Chapter::new(alloc, 16, 256).expect(rt, "memory");
    ring.hand_out(empty).ok().expect(rt, "a chapter")
}

// Lets the ring log the entries of the second chapter.
fn log_second(rt: &impl Abort, alloc: Global, ring: &mut RingState) {
    output(rt, alloc, ring, 255, 0);
    discard(rt, alloc, ring);
    let _ = ring.take();
    let _ = ring.take();
}

#[test]
fn entries_are_read_in_full(rt: HostRuntime) {
    let alloc = rt.alloc();
    let mut ring = RingState::new(alloc, 7, 4096, START, 256, 16).expect(&rt, "a ring");
    let first = first_chapter(&rt, alloc, &mut ring);
    has_entries(&rt, alloc, &first, &FIRST);
    log_second(&rt, alloc, &mut ring);
    has_entries(&rt, alloc, ring.chapter(), &SECOND);
    same(&rt, &first.meets(ring.chapter()), &true);
    drop((ring, first));
}
