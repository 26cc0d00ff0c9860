//! Commands, with everything that they print.

use crate::endings::{ended, ending};
use crate::expected::{same, same_of};
use crate::fakes::{FakeReader, FakeWriter, Trouble};
use rb_command_line::{Host, Terminals, command};
use rb_io::{NotedReader, NotedWriter};
use std::alloc::Global;
use std::fs::File;
use std::io::{Eprint, ErrorKind};
use std::process::Abort;
use std::rt::Files;
use std::sync::Wait;
use std::thread::Threads;
use std::time::Clock;

// A payload of one byte, and an empty one.
const TWO: [u8; 9] = [1, 0, 0, 0, 0xff, 0, 0, 0, 0];

// Returns whether the arguments print a help text that ends with a single line feed, while nothing is read or reported.
fn is_help<T: Threads + Wait + Sync + Files<File = File> + Clock + Eprint + Host>(
    rt: &T,
    alloc: Global,
    words: &[&str],
) -> bool {
    let mut reader = FakeReader::new(&[1], 5);
    let mut text = Vec::new(alloc);
    let mut told = Vec::new(alloc);
    let status = command(
        rt,
        alloc,
        words,
        Terminals::default(),
        &mut NotedReader::new(&mut reader),
        &mut NotedWriter::new(&mut text),
        &mut told,
    );
    let is_one_text = text.as_slice().ends_with(b"\n") && !text.as_slice().ends_with(b"\n\n");
    status == 0 && is_one_text && told.is_empty() && reader.rest.len() == 1
}

#[test]
fn help(rt: HostRuntime) {
    let helps: [&[&str]; 4] = [
        &["--help"],
        &["help"],
        &["feed", "--help"],
        &["tape", "--help"],
    ];
    for words in &helps {
        same_of(&rt, &is_help(&rt, rt.alloc(), words), &true, words);
    }
}

// Returns the status of `feed` over this reader and a writer with `room` bytes of room, and how many bytes it wrote.
fn fed_with<T: Abort + Threads + Wait + Sync + Files<File = File> + Clock + Eprint + Host>(
    rt: &T,
    alloc: Global,
    mut reader: FakeReader<'_>,
    mut tape: FakeWriter,
    mut told: FakeWriter,
) -> (String, usize) {
    let words = ["feed", "--size", "4096"];
    let status = command(
        rt,
        alloc,
        &words,
        Terminals::default(),
        &mut NotedReader::new(&mut reader),
        &mut NotedWriter::new(&mut tape),
        &mut told,
    );
    (
        ending(rt, alloc, status, &told.taken, &[]),
        tape.taken.len(),
    )
}

#[test]
fn readers_that_fail_are_told(rt: HostRuntime) {
    let alloc = rt.alloc();
    for kind in &[ErrorKind::BrokenPipe, ErrorKind::Interrupted] {
        let reader = FakeReader::failing(&TWO, *kind);
        let (ending, written) = fed_with(
            &rt,
            alloc,
            reader,
            FakeWriter::open(alloc),
            FakeWriter::open(alloc),
        );
        same(
            &rt,
            &(ending.as_str(), written),
            &("1 refused device\n", 24),
        );
    }
}

#[test]
fn writers_that_fail_are_told(rt: HostRuntime) {
    let alloc = rt.alloc();
    for trouble in &[Trouble::TakesNothing, Trouble::Fails(ErrorKind::BrokenPipe)] {
        for room in &[0, 1, 23] {
            let tape = FakeWriter::new(alloc, *room, 100, *trouble);
            let reader = FakeReader::new(&TWO, 100);
            let (ending, written) = fed_with(&rt, alloc, reader, tape, FakeWriter::open(alloc));
            same(
                &rt,
                &(ending.as_str(), written),
                &("1 refused device\n", *room),
            );
        }
    }
}

#[test]
fn positions_that_cannot_be_told(rt: HostRuntime) {
    let alloc = rt.alloc();
    let told = FakeWriter::new(alloc, 3, 100, Trouble::TakesNothing);
    let reader = FakeReader::new(&TWO, 100);
    let (ending, written) = fed_with(&rt, alloc, reader, FakeWriter::open(alloc), told);
    same(&rt, &(ending.as_str(), written), &("1 pro", 24));
}

// Returns the status of `feed --why` over this reader and this writer.
fn fed_with_reason<T: Abort + Threads + Wait + Sync + Files<File = File> + Clock + Eprint + Host>(
    rt: &T,
    alloc: Global,
    mut reader: FakeReader<'_>,
    mut tape: FakeWriter,
) -> String {
    let words = ["feed", "--size", "4096", "--why"];
    let mut told = Vec::new(alloc);
    let status = command(
        rt,
        alloc,
        &words,
        Terminals::default(),
        &mut NotedReader::new(&mut reader),
        &mut NotedWriter::new(&mut tape),
        &mut told,
    );
    ending(rt, alloc, status, &told, &[])
}

#[test]
fn what_failed_is_told_in_front(rt: HostRuntime) {
    let alloc = rt.alloc();
    let reader = FakeReader::failing(&TWO, ErrorKind::BrokenPipe);
    let read = fed_with_reason(&rt, alloc, reader, FakeWriter::open(alloc));
    let fails = FakeWriter::new(alloc, 1, 100, Trouble::Fails(ErrorKind::StorageFull));
    let written = fed_with_reason(&rt, alloc, FakeReader::new(&TWO, 100), fails);
    let full = FakeWriter::new(alloc, 1, 100, Trouble::TakesNothing);
    let taken = fed_with_reason(&rt, alloc, FakeReader::new(&TWO, 100), full);
    same(
        &rt,
        &(read.as_str(), written.as_str(), taken.as_str()),
        &(
            "1 cannot read standard input: broken pipe\nrefused device\n",
            "1 cannot write to standard output: no storage space\nrefused device\n",
            "1 cannot write to standard output: it takes no more bytes\nrefused device\n",
        ),
    );
}

#[test]
fn numbers_that_no_command_takes_are_told_in_one_form(rt: HostRuntime) {
    let rows: [(&[&str], &str); 7] = [
        (
            &["run", "--workers", "1", "--jobs", "0", "--size", "4096"],
            "2 error: the value '0' of '--jobs' is not a decimal number from 1 to 1000000\n",
        ),
        (
            &["check", "--ctx", "65537"],
            "2 error: the value '65537' of '--ctx' is not a decimal number from 0 to 65536\n",
        ),
        (
            &["feed", "--size", "+4096"],
            "2 error: the value '+4096' of '--size' is not a power of two from 4096 to 67108864\n\nUsage: rbhost feed",
        ),
        (
            &["check", "--ctx", "65K"],
            "2 error: the value '65K' of '--ctx' is not a decimal number from 0 to 65536\n\nUsage: rbhost check",
        ),
        (
            &["feed", "--size", "17592186044416M"],
            "2 error: the value '17592186044416M' of '--size' is not a power of two from 4096 to 67108864\n",
        ),
        (
            &["tape", "--size", "4K", "--start", "8K"],
            "2 error: the value '8K' of '--start' is not a multiple of 8 up to 2305843009213693952\n",
        ),
        (
            &["feed", "--size", "5K", "--why"],
            "1 --size 5120: a power of two from 4096 to 67108864\nrefused size\n",
        ),
    ];
    for (words, wanted) in &rows {
        let ending = ended(&rt, rt.alloc(), words, &[]);
        same_of(&rt, &ending.as_str().starts_with(*wanted), &true, words);
    }
}
