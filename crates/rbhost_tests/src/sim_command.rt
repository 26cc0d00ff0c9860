//! The command `sim` over devices that fail.

use crate::endings::ending;
use crate::expected::same_of;
use crate::fakes::{FakeReader, FakeWriter, Trouble};
use rb_command_line::{Host, Terminals, command};
use rb_io::{NotedReader, NotedWriter};
use std::alloc::Global;
use std::fs::File;
use std::io::{Eprint, ErrorKind};
use std::process::Abort;
use std::rt::Files;
use std::sync::Wait;
use std::thread::Threads;
use std::time::Clock;

// A take of an empty ring.
const SCRIPT: &[u8] = b"ring 4096 0\nworker b7000000000000009500000000000000\nw 0 2\nc 0\n";

const SIMULATED: &str = "0 take 0 empty
worker 0 done 0
ring 0 producer 0 consumer 0 consumed 0 discarded 0 waiting 0 busy 0
";

// Returns what is reported about a reader that fails after the script, or doesn't, and about a writer with room for
// `room` bytes.
fn told_of_trouble<T: Abort + Threads + Wait + Sync + Files<File = File> + Clock + Eprint + Host>(
    rt: &T,
    alloc: Global,
    words: &[&str],
    fault: Option<ErrorKind>,
    room: usize,
) -> String {
    let mut reader = FakeReader::new(SCRIPT, 7);
    reader.fault = fault;
    let mut writer = FakeWriter::new(alloc, room, 100, Trouble::TakesNothing);
    let mut told = Vec::new(alloc);
    let status = command(
        rt,
        alloc,
        words,
        Terminals::default(),
        &mut NotedReader::new(&mut reader),
        &mut NotedWriter::new(&mut writer),
        &mut told,
    );
    ending(rt, alloc, status, &told, &writer.taken)
}

#[test]
fn sim_with_devices_that_fail(rt: HostRuntime) {
    let broken = Some(ErrorKind::BrokenPipe);
    let rows: [(&[&str], Option<ErrorKind>, usize, &str); 6] = [
        (&["sim"], broken, 100, "1 refused device\n"),
        (
            &["sim", "--why"],
            broken,
            100,
            "1 cannot read standard input: broken pipe\nrefused device\n",
        ),
        (
            &["sim", "--json"],
            broken,
            100,
            "1 refused device\n{\"refused\":\"device\"}\n",
        ),
        (&["sim"], None, 0, "1 refused device\n"),
        (&["sim"], None, 3, "1 refused device\ntak"),
        (&["sim"], None, 200, SIMULATED),
    ];
    for (words, fault, room, wanted) in &rows {
        let told = told_of_trouble(&rt, rt.alloc(), words, *fault, *room);
        same_of(&rt, &told.as_str(), wanted, words);
    }
}
