//! The command `check` over devices that fail.

use crate::endings::ending;
use crate::expected::same_of;
use crate::fakes::{FakeReader, FakeWriter, Trouble};
use rb_command_line::{Host, Terminals, command};
use rb_io::{NotedReader, NotedWriter};
use std::alloc::Global;
use std::fs::File;
use std::io::{Eprint, ErrorKind};
use std::process::Abort;
use std::rt::Files;
use std::sync::Wait;
use std::thread::Threads;
use std::time::Clock;

// r0 = 0, and exit.
const EXIT_ZERO: &str = "b700000000000000 9500000000000000";

// Returns what is reported about a reader that fails after the program, and about a writer with room for `room` bytes,
// or one that can't be flushed.
fn told_of_trouble<T: Abort + Threads + Wait + Sync + Files<File = File> + Clock + Eprint + Host>(
    rt: &T,
    alloc: Global,
    mut reader: FakeReader<'_>,
    room: usize,
    flush_fails: bool,
) -> String {
    let mut writer = FakeWriter::new(alloc, room, 100, Trouble::TakesNothing);
    writer.flush_fails = flush_fails;
    let mut told = Vec::new(alloc);
    let status = command(
        rt,
        alloc,
        &["check"],
        Terminals::default(),
        &mut NotedReader::new(&mut reader),
        &mut NotedWriter::new(&mut writer),
        &mut told,
    );
    ending(rt, alloc, status, &told, &writer.taken)
}

#[test]
// If a write fails, a prefix of the text was printed; if a read fails, nothing was.
fn check_with_devices_that_fail(rt: HostRuntime) {
    let rows = [
        (
            Some(ErrorKind::BrokenPipe),
            100,
            false,
            "1 refused device\n",
        ),
        (None, 0, false, "1 refused device\n"),
        (None, 3, false, "1 refused device\nacc"),
        (None, 16, false, "1 refused device\naccepted\nresult "),
        (None, 100, true, "1 refused device\naccepted\nresult 0\n"),
        (None, 100, false, "0 accepted\nresult 0\n"),
    ];
    for (fault, room, flush_fails, wanted) in &rows {
        let mut reader = FakeReader::new(EXIT_ZERO.as_bytes(), 100);
        reader.fault = *fault;
        let told = told_of_trouble(&rt, rt.alloc(), reader, *room, *flush_fails);
        same_of(&rt, &told.as_str(), wanted, room);
    }
}
