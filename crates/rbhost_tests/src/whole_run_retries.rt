//! The retries of a whole run, which cover all payloads and all flushes.

use crate::expected::same_of;
use crate::fakes::{FakeReader, MoreFailures, OneFailure, Trouble};
use rb_io::ReadAhead;
use rb_tape_commands::{FeedFault, feed};
use std::alloc::Global;

// Two payloads of eight bytes, and their tape.
const TWO: [u8; 24] = [
    8, 0, 0, 0, 0x2a, 0, 0, 0, 0, 0, 0, 0, 8, 0, 0, 0, 0x2b, 0, 0, 0, 0, 0, 0, 0,
];

const TWO_TAPES: [u8; 32] = [
    8, 0, 0, 0, 0, 0, 0, 0, 0x2a, 0, 0, 0, 0, 0, 0, 0, 8, 0, 0, 0, 0, 0, 0, 0, 0x2b, 0, 0, 0, 0, 0,
    0, 0,
];

// Returns the result of `feed` for the two payloads, which arrive in one read, over a writer that accepts one byte in
// each write and fails at these two writes, and whose first `opens` flushes succeed while the next `closed` fail; how
// many bytes were written, and whether they are a prefix of the tape.
fn fed_two(
    alloc: Global,
    (first, second): (usize, usize),
    (opens, closed): (u32, u32),
    retries: u32,
) -> (Result<(u64, u64), FeedFault>, usize, bool) {
    let Ok(mut reader) = ReadAhead::new(alloc, FakeReader::new(&TWO, 100)) else {
        return (Err(FeedFault::Memory), 0, false);
    };
    let writer = MoreFailures {
        inner: OneFailure::new(alloc, first, Trouble::TakesNothing),
        writes: 0,
        fails_at: second,
        opens,
        closed,
    };
    let (answer, writer) = feed(alloc, &mut reader, writer, 4096, 0, retries);
    let taken = writer.inner.taken.as_slice();
    (answer, taken.len(), TWO_TAPES.starts_with(taken))
}

#[test]
// A failure in each of two payloads: one retry covers the whole run, so the tape ends in the second payload; two are
// enough.
fn retries_are_for_the_whole_run(rt: HostRuntime) {
    for (first, second, out) in [(1, 18, 16), (9, 25, 23), (16, 33, 31)] {
        let cut = fed_two(rt.alloc(), (first, second), (0, 0), 1);
        let whole = fed_two(rt.alloc(), (first, second), (0, 0), 2);
        same_of(
            &rt,
            &(cut, whole),
            &(
                (Err(FeedFault::Device), out, true),
                (Ok((32, 32)), 32, true),
            ),
            &first,
        );
    }
}

#[test]
// Each flush has the retries that the writes before it left: the one before the first read, the one before the second,
// and the last one. Without enough of them, the first one leaves none for the write that fails in the first payload.
fn each_handing_on_is_tried_again(rt: HostRuntime) {
    for (opens, out_then) in [(0, 8), (1, 32), (2, 32)] {
        for (closed, retries, is_out) in [
            (1, 1, false),
            (1, 2, true),
            (2, 2, false),
            (2, 3, true),
            (3, 3, false),
            (3, 4, true),
        ] {
            let (answer, out, are_first) = fed_two(rt.alloc(), (9, 0), (opens, closed), retries);
            let out_wanted = if is_out { 32 } else { out_then };
            same_of(
                &rt,
                &(answer.is_ok(), out, are_first),
                &(is_out, out_wanted, true),
                &(opens, closed, retries),
            );
        }
    }
}
