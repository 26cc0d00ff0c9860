//! The command `tape` over devices that fail.

use crate::endings::ended_over;
use crate::expected::{same, same_of};
use crate::fakes::{FakeReader, FakeWriter, Trouble};
use rb_io::ReadAhead;
use rb_json::LineForm;
use rb_tape::TapeKind;
use rb_tape_commands::{TapeRefusal, tape};
use std::alloc::Global;
use std::io::ErrorKind;

// The tape of one record of eight bytes.
const ONE_RECORD: [u8; 16] = [8, 0, 0, 0, 0, 0, 0, 0, 0x2a, 0, 0, 0, 0, 0, 0, 0];

const WORDS: [&str; 3] = ["tape", "--size", "4096"];

#[test]
// Wherever a read fails, the lines of the records before it were printed.
fn reads_that_fail(rt: HostRuntime) {
    for kind in &[ErrorKind::BrokenPipe, ErrorKind::Interrupted] {
        for end in &[0usize, 5, 15, 16] {
            let reader = FakeReader::failing(&ONE_RECORD[..*end], *kind);
            let wanted = if *end < 16 {
                "1 refused device\n"
            } else {
                "1 refused device\npos 0 len 8 2a00000000000000\n"
            };
            let ending = ended_over(&rt, rt.alloc(), &WORDS, reader);
            same_of(&rt, &ending.as_str(), &wanted, end);
        }
    }
}

// Returns the result of `tape` over these bytes and a writer with `room` bytes of room, and what was printed.
fn printed(alloc: Global, bytes: &[u8], room: usize) -> (Result<(), TapeRefusal>, Vec<u8>) {
    let mut sink = FakeWriter::new(alloc, room, 3, Trouble::TakesNothing);
    let Ok(mut reader) = ReadAhead::new(alloc, FakeReader::new(bytes, 5)) else {
        return (Err(TapeRefusal::Memory), sink.taken);
    };
    let answer = tape(alloc, &mut reader, &mut sink, 4096, 0, LineForm::Words);
    (answer, sink.taken)
}

#[test]
fn writes_that_fail(rt: HostRuntime) {
    let line = b"pos 0 len 8 2a00000000000000\n";
    for room in 0..29usize {
        let (answer, taken) = printed(rt.alloc(), &ONE_RECORD, room);
        same_of(
            &rt,
            &(answer, taken.as_slice()),
            &(Err(TapeRefusal::Device), &line[..room]),
            &room,
        );
    }
}

#[test]
fn a_record_that_is_cut_off(rt: HostRuntime) {
    let refused = Err(TapeRefusal::Record {
        kind: TapeKind::Truncated,
        offset: 0,
    });
    same(
        &rt,
        &printed(rt.alloc(), &ONE_RECORD[..12], 100).0,
        &refused,
    );
}
