//! The results of commands, as one text or one status.

use crate::fakes::FakeReader;
use rb_command_line::{Host, Terminals, command};
use rb_io::{NotedReader, NotedWriter};
use std::alloc::Global;
use std::fs::File;
use std::io::Eprint;
use std::process::Abort;
use std::rt::Files;
use std::sync::Wait;
use std::thread::Threads;
use std::time::Clock;

/// Returns the status, what was reported on stderr, and what was printed, which must be text, too.
pub(crate) fn ended<T: Abort + Threads + Wait + Sync + Files<File = File> + Clock + Eprint + Host>(
    rt: &T,
    alloc: Global,
    words: &[&str],
    input: &[u8],
) -> String {
    ended_over(rt, alloc, words, FakeReader::new(input, 7))
}

/// Returns the same, over this reader.
pub(crate) fn ended_over<
    T: Abort + Threads + Wait + Sync + Files<File = File> + Clock + Eprint + Host,
>(rt: &T, alloc: Global, words: &[&str], mut reader: FakeReader<'_>) -> String {
    let mut printed = Vec::new(alloc);
    let mut told = Vec::new(alloc);
    let status = command(
        rt,
        alloc,
        words,
        Terminals::default(),
        &mut NotedReader::new(&mut reader),
        &mut NotedWriter::new(&mut printed),
        &mut told,
    );
    ending(rt, alloc, status, &told, &printed)
}

/// Returns the status, what was reported, and what was printed, as one text.
pub(crate) fn ending(
    rt: &impl Abort,
    alloc: Global,
    status: u8,
    told: &[u8],
    printed: &[u8],
) -> String {
    let told = str::from_utf8(told).expect(rt, "text");
    let printed = str::from_utf8(printed).expect(rt, "text");
    format!(in alloc; "{status} {told}{printed}").expect(rt, "memory")
}

/// Returns the number at an index of a line's words, or the greatest number if there is none.
pub(crate) fn number(line: &str, place: usize) -> u64 {
    match line.split(' ').nth(place) {
        Some(word) => word.parse().unwrap_or(u64::MAX),
        None => u64::MAX,
    }
}
