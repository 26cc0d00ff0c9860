//! Reading tapes.

use crate::expected::same;
use rb_tape::{Feed, Record, Tape, TapeFault, TapeKind, count_records};

// The tape of one record of eight bytes.
const ONE_RECORD: [u8; 16] = [8, 0, 0, 0, 0, 0, 0, 0, 0x2a, 0, 0, 0, 0, 0, 0, 0];

#[test]
fn example_of_a_reader_of_tapes(rt: HostRuntime) {
    let bytes = [1, 0, 0, 0, 0, 0, 0, 0, 42, 0, 0, 0, 0, 0, 0, 0, 8, 0];
    let mut tape = Tape::new(&bytes, 4096, 0).expect(&rt, "a tape");
    let record = Record {
        pos: 0,
        len: 1,
        discarded: false,
        bytes: &[42],
    };
    let cut = TapeFault {
        kind: TapeKind::Truncated,
        offset: 16,
    };
    same(
        &rt,
        &[tape.next(), tape.next(), tape.next()],
        &[Some(Ok(record)), Some(Err(cut)), None],
    );
    same(
        &rt,
        &[
            count_records(&bytes, 4096, 0),
            count_records(&bytes[..16], 4096, 0),
        ],
        &[Ok((1, Some(cut))), Ok((1, None))],
    );
}

// Whether the feed returns a record.
fn is_record(feed: &mut Feed) -> bool {
    matches!(feed.next(), Some(Ok(_)))
}

// Returns the next fault of the feed, if there is one.
fn fault_of(feed: &mut Feed) -> Option<TapeFault> {
    match feed.next() {
        Some(Err(fault)) => Some(fault),
        _ => None,
    }
}

#[test]
fn a_fault_stays(rt: HostRuntime) {
    let busy = TapeFault {
        kind: TapeKind::Busy,
        offset: 8,
    };
    let mut feed = Feed::new(rt.alloc(), 4096, 0).expect(&rt, "a feed");
    let fed = feed.feed(&[0, 0, 0, 0, 0, 0, 0, 0, 8, 0, 0, 0x80, 0, 0, 0, 0]);
    same(&rt, &(fed, is_record(&mut feed)), &(Ok(()), true));
    let first = fault_of(&mut feed);
    let fed = feed.feed(&ONE_RECORD);
    let second = fault_of(&mut feed);
    same(
        &rt,
        &(first, fed, second, feed.end()),
        &(Some(busy), Err(busy), Some(busy), Err(busy)),
    );
}
