//! What a command reads, and how much of it.

use crate::endings::{ended, ending};
use crate::expected::same_of;
use rb_command_line::{Host, Terminals, command};
use rb_io::{NotedReader, NotedWriter};
use std::alloc::Global;
use std::fs;
use std::fs::File;
use std::io::{Eprint, Read, Result};
use std::process::Abort;
use std::rt::Files;
use std::sync::Wait;
use std::thread::Threads;
use std::time::Clock;

// A reader that gives this byte for ever, or a number of times and then the end.
#[derive(Drop)]
struct Repeated {
    byte: u8,
    left: Option<usize>,
}

impl Read for Repeated {
    fn read(&mut self, buf: &mut [u8]) -> Result<usize> {
        let count = self.left.unwrap_or(buf.len()).min(buf.len());
        for place in &mut buf[..count] {
            *place = self.byte;
        }
        self.left = self.left.map(|left| left.saturating_sub(count));
        Ok(count)
    }
}

// Returns the result of a command over this reader, with these streams as terminals.
fn ended_at<T: Abort + Threads + Wait + Sync + Files<File = File> + Clock + Eprint + Host>(
    rt: &T,
    alloc: Global,
    words: &[&str],
    terminals: Terminals,
    mut reader: Repeated,
) -> String {
    let mut printed = Vec::new(alloc);
    let mut told = Vec::new(alloc);
    let status = command(
        rt,
        alloc,
        words,
        terminals,
        &mut NotedReader::new(&mut reader),
        &mut NotedWriter::new(&mut printed),
        &mut told,
    );
    ending(rt, alloc, status, &told, &printed)
}

#[test]
// A byte that is no digit decides at once; the digits of a text that is too long for a program are counted to its end.
fn text_is_read_as_far_as_needed(rt: HostRuntime) {
    let rows = [
        (0, None, "1 refused text\n"),
        (b'0', Some(65_536), "1 refused decode BadOpcode unit 0\n"),
        (b'0', Some(65_552), "1 refused decode TooLong unit 4096\n"),
        (b'0', Some(200_000), "1 refused decode TooLong unit 4096\n"),
        (b'0', Some(200_002), "1 refused decode Length unit 0\n"),
        (b'0', Some(200_001), "1 refused text\n"),
        (b' ', Some(200_001), "1 refused decode Length unit 0\n"),
    ];
    for (byte, left, wanted) in rows {
        let reader = Repeated { byte, left };
        let found = ended_at(&rt, rt.alloc(), &["check"], Terminals::default(), reader);
        same_of(&rt, &found.as_str(), &wanted, &(byte, left));
    }
}

#[test]
// A file is read in place of stdin, and `-` is stdin.
fn a_file_is_read(rt: HostRuntime) {
    let path = "a_program_that_is_read";
    let program = b"b700000000000000 9500000000000000";
    fs::write(&rt, path, program).ok().expect(&rt, "a file");
    let rows: [(&[&str], &[u8], &str); 4] = [
        (&["check", path], b"zz", "0 accepted\nresult 0\n"),
        (&["check", "-"], program, "0 accepted\nresult 0\n"),
        (&["check", "-"], b"zz", "1 refused text\n"),
        (
            &["check", "there_is_no_such_file"],
            program,
            "1 refused device\n",
        ),
    ];
    for (words, input, wanted) in rows {
        let found = ended(&rt, rt.alloc(), words, input);
        same_of(&rt, &found.as_str(), &wanted, &words);
    }
    let _ = fs::remove_file(&rt, path);
}

#[test]
// If stderr is a terminal, reasons are printed, as with `--why`, unless `--no-why` is given.
fn a_terminal_asks_for_reasons(rt: HostRuntime) {
    let reason =
        "1 byte 0 of standard input is 'z', neither a hex digit nor white space\nrefused text\n";
    let terminals = Terminals {
        out: false,
        err: true,
    };
    let rows: [(&[&str], Terminals, &str); 4] = [
        (&["check"], terminals, reason),
        (&["check", "--no-why"], terminals, "1 refused text\n"),
        (&["check"], Terminals::default(), "1 refused text\n"),
        (&["check", "--why"], Terminals::default(), reason),
    ];
    for (words, terminals, wanted) in rows {
        let reader = Repeated {
            byte: b'z',
            left: Some(2),
        };
        let found = ended_at(&rt, rt.alloc(), words, terminals, reader);
        same_of(&rt, &found.as_str(), &wanted, &words);
    }
}
