//! Feeding payloads and writing their tape, over devices that fail.

ghost use Rattle.std.specs.Prelude.{◌≤◌};

use crate::expected::same_of;
use crate::fakes::{FakeReader, FakeWriter, Trouble};
use rb_io::ReadAhead;
use rb_tape_commands::{FeedFault, feed};
use std::alloc::Global;
use std::io::ErrorKind;
use std::process::Abort;

// A payload of one byte, and an empty one, and their tape.
const TWO: [u8; 9] = [1, 0, 0, 0, 0xff, 0, 0, 0, 0];

const TWO_TAPE: [u8; 24] = [
    1, 0, 0, 0, 0, 0, 0, 0, 0xff, 0, 0, 0, 0, 0, 0, 0, // one byte
    0, 0, 0, 0, 0, 0, 0, 0, // none
];

// The result of a feed of these payloads, what was written, and how much of it was flushed.
type Fed = (Result<(u64, u64), FeedFault>, Vec<u8>, usize);

fn feed_to(alloc: Global, reader: FakeReader<'_>, sink: FakeWriter) -> Fed {
    let Ok(mut reader) = ReadAhead::new(alloc, reader) else {
        return (Err(FeedFault::Memory), sink.taken, 0);
    };
    let (answer, writer) = feed(alloc, &mut reader, sink, 4096, 0, 0);
    (answer, writer.taken, writer.flushed)
}

#[test]
// Wherever a read fails, the tape of the payloads that were read was written and flushed.
fn readers_that_fail(rt: HostRuntime) {
    for kind in &[ErrorKind::BrokenPipe, ErrorKind::Interrupted] {
        for end in 0..10usize {
            let reader = FakeReader::failing(&TWO[..end], *kind);
            let (answer, taken, flushed) = feed_to(
                rt.alloc(),
                reader,
                FakeWriter::open(rt.alloc()),
            );
            let tape = match end {
                0..5 => 0,
                5..9 => 16,
                _ => 24,
            };
            same_of(
                &rt,
                &(answer, taken.as_slice(), flushed),
                &(Err(FeedFault::Device), &TWO_TAPE[..tape], tape),
                &end,
            );
        }
    }
}

// Ends the test unless the output to a writer with `room` bytes of room, which accepts at most `most` bytes at a time,
// is a prefix of the tape.
fn stops(rt: &impl Abort, alloc: Global, room: usize, most: usize, trouble: Trouble)
    requires { room ≤ 24 }
{
    let sink = FakeWriter::new(alloc, room, most, trouble);
    let (answer, taken, _) = feed_to(alloc, FakeReader::new(&TWO, 100), sink);
    let wanted = if room < 24 {
        Err(FeedFault::Device)
    } else {
        Ok((24, 24))
    };
    same_of(
        rt,
        &(answer, taken.as_slice()),
        &(wanted, &TWO_TAPE[..room]),
        &(room, most),
    );
}

#[test]
// Wherever a write fails or accepts nothing, the output is a prefix of the tape.
fn writers_that_stop(rt: HostRuntime) {
    for trouble in &[
        Trouble::TakesNothing,
        Trouble::Fails(ErrorKind::StorageFull),
        Trouble::Fails(ErrorKind::Interrupted),
    ] {
        for room in 0..25usize {
            for most in &[1usize, 5, 100] {
                stops(&rt, rt.alloc(), room, *most, *trouble);
            }
        }
    }
}

// Returns how many bytes of the input's tape are flushed.
fn flushed(alloc: Global, input: &[u8]) -> usize {
    feed_to(alloc, FakeReader::new(input, 100), FakeWriter::open(alloc)).2
}

// Returns the result if each flush fails, and how much was written: the first flush comes before the first read.
fn unflushed(alloc: Global, input: &[u8]) -> (Result<(u64, u64), FeedFault>, usize) {
    let mut failing = FakeWriter::open(alloc);
    failing.flush_fails = true;
    let (answer, taken, _) = feed_to(alloc, FakeReader::new(input, 100), failing);
    (answer, taken.len())
}

#[test]
fn flushes(rt: HostRuntime) {
    let rows: [(&[u8], usize); 3] = [(&TWO, 24), (&[1, 0, 0, 0, 0xff, 9], 16), (&[], 0)];
    for (input, tape) in &rows {
        same_of(
            &rt,
            &(flushed(rt.alloc(), input), unflushed(rt.alloc(), input)),
            &(*tape, (Err(FeedFault::Device), 0)),
            input,
        );
    }
}
