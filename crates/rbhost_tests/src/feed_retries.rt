//! Writing that continues after a write that failed.

use crate::endings::ending;
use crate::expected::same_of;
use crate::fakes::{FakeReader, FakeWriter, OneFailure, Trouble};
use rb_command_line::{Host, Terminals, command};
use rb_io::{NotedReader, NotedWriter, ReadAhead};
use rb_tape_commands::{FeedFault, feed};
use std::alloc::Global;
use std::fs::File;
use std::io::{Eprint, ErrorKind};
use std::process::Abort;
use std::rt::Files;
use std::sync::Wait;
use std::thread::Threads;
use std::time::Clock;

// A payload of eight bytes, and its tape.
const ONE: [u8; 12] = [8, 0, 0, 0, 0x2a, 0, 0, 0, 0, 0, 0, 0];

const ONE_TAPE: [u8; 16] = [8, 0, 0, 0, 0, 0, 0, 0, 0x2a, 0, 0, 0, 0, 0, 0, 0];

// Returns the result of `feed` over a writer that accepts one byte in each write and fails once, and its output.
fn fed(
    alloc: Global,
    fails_at: usize,
    trouble: Trouble,
    retries: u32,
) -> (Result<(u64, u64), FeedFault>, Vec<u8>) {
    let writer = OneFailure::new(alloc, fails_at, trouble);
    let Ok(mut reader) = ReadAhead::new(alloc, FakeReader::new(&ONE, 5)) else {
        return (Err(FeedFault::Memory), writer.taken);
    };
    let (answer, writer) = feed(alloc, &mut reader, writer, 4096, 0, retries);
    (answer, writer.taken)
}

const TROUBLES: [Trouble; 3] = [
    Trouble::TakesNothing,
    Trouble::Fails(ErrorKind::StorageFull),
    Trouble::Fails(ErrorKind::Interrupted),
];

#[test]
// For each write that fails without a retry, the bytes before it were written.
fn one_write_fails(rt: HostRuntime) {
    for trouble in &TROUBLES {
        for k in 1..17usize {
            let (answer, taken) = fed(rt.alloc(), k, *trouble, 0);
            same_of(
                &rt,
                &(answer, taken.as_slice()),
                &(Err(FeedFault::Device), &ONE_TAPE[..k - 1]),
                &k,
            );
        }
    }
}

#[test]
// For each write that fails, with a retry all bytes were written.
fn one_write_is_tried_again(rt: HostRuntime) {
    for trouble in &TROUBLES {
        for k in 1..17usize {
            let (answer, taken) = fed(rt.alloc(), k, *trouble, 1);
            same_of(
                &rt,
                &(answer, taken.as_slice()),
                &(Ok((16, 16)), ONE_TAPE.as_slice()),
                &k,
            );
        }
    }
}

// Returns the same for the command: its status, what it reported, and its output.
fn told<T: Abort + Threads + Wait + Sync + Files<File = File> + Clock + Eprint + Host>(
    rt: &T,
    alloc: Global,
    fails_at: usize,
    trouble: Trouble,
    retries: &str,
) -> (String, Vec<u8>) {
    let words = ["feed", "--size", "4096", "--retry", retries];
    let mut reader = FakeReader::new(&ONE, 5);
    let mut writer = OneFailure::new(alloc, fails_at, trouble);
    let mut told = Vec::new(alloc);
    let status = command(
        rt,
        alloc,
        &words,
        Terminals::default(),
        &mut NotedReader::new(&mut reader),
        &mut NotedWriter::new(&mut writer),
        &mut told,
    );
    (ending(rt, alloc, status, &told, &[]), writer.taken)
}

const TOLD_TROUBLES: [Trouble; 2] = [
    Trouble::TakesNothing,
    Trouble::Fails(ErrorKind::Interrupted),
];

#[test]
// Without a retry the command is refused. The last flush comes in any case, and writes what the failed write left.
fn one_write_of_the_command_fails(rt: HostRuntime) {
    for trouble in &TOLD_TROUBLES {
        for k in 1..17usize {
            let (ending, taken) = told(&rt, rt.alloc(), k, *trouble, "0");
            same_of(
                &rt,
                &(ending.as_str(), taken.as_slice()),
                &("1 refused device\n", ONE_TAPE.as_slice()),
                &k,
            );
        }
    }
}

#[test]
fn one_write_of_the_command_is_tried_again(rt: HostRuntime) {
    for trouble in &TOLD_TROUBLES {
        for k in 1..17usize {
            let (ending, taken) = told(&rt, rt.alloc(), k, *trouble, "1");
            same_of(
                &rt,
                &(ending.as_str(), taken.as_slice()),
                &("0 producer 16 consumer 16\n", ONE_TAPE.as_slice()),
                &k,
            );
        }
    }
}

// Returns the result of a hundred retries over a writer that has room for `room` bytes and then fails again and again,
// and its output.
fn retried(alloc: Global, room: usize) -> (Result<(u64, u64), FeedFault>, Vec<u8>) {
    let sink = FakeWriter::new(alloc, room, 3, Trouble::TakesNothing);
    let Ok(mut reader) = ReadAhead::new(alloc, FakeReader::new(&ONE, 5)) else {
        return (Err(FeedFault::Memory), sink.taken);
    };
    let (answer, sink) = feed(alloc, &mut reader, sink, 4096, 0, 100);
    (answer, sink.taken)
}

#[test]
fn retries_end(rt: HostRuntime) {
    for room in 0..16usize {
        let (answer, taken) = retried(rt.alloc(), room);
        same_of(
            &rt,
            &(answer, taken.as_slice()),
            &(Err(FeedFault::Device), &ONE_TAPE[..room]),
            &room,
        );
    }
}
