//! A tape in segments in memory, with sizes worked out by hand: records of 16 bytes take 24, so three of them close a segment of 64.

use super::given::same;
use rb_segments::{MemoryFile, MemoryStore, SegmentPlan, SegmentWriter};
use rb_tape::{Event, Item, Tape};
use std::alloc::Global;
use std::test::Fail;

type MemoryWriter = SegmentWriter<MemoryStore, MemoryFile>;

const PLAN: SegmentPlan = SegmentPlan {
    segment: 64,
    keep: u64::MAX,
};

// Writes the next record: sixteen bytes, each of them `byte`.
fn put(writer: &mut MemoryWriter, byte: u8) {
    let bytes = [byte; 16];
    let pos = writer.position();
    if pos > 1000 {
        return;
    }
    writer.put(&Item::Event(Event {
        pos,
        worker: 0,
        serial: 0,
        bytes: &bytes,
    }));
}

// The store of a tape of `count` records.
fn written(alloc: Global, plan: SegmentPlan, count: u8) -> Result<MemoryStore, Fail> {
    let store = MemoryStore::new(alloc);
    let mut writer: MemoryWriter = SegmentWriter::open(alloc, store, 4096, 0, plan)?;
    for byte in 0..count {
        put(&mut writer, byte);
    }
    Ok(writer.finish().0)
}

// A writer that goes on with the segments of a store.
fn restarted(alloc: Global, before: MemoryStore) -> Result<MemoryWriter, Fail> {
    let mut store = MemoryStore::new(alloc);
    store.closed = before.closed;
    Ok(SegmentWriter::open(alloc, store, 4096, 0, PLAN)?)
}

// The positions of the segments, and their lengths.
fn shapes(alloc: Global, store: &MemoryStore) -> Result<Vec<(u64, usize)>, Fail> {
    let mut shapes = Vec::new(alloc);
    for segment in store.closed.iter() {
        shapes.push((segment.position, segment.bytes.len()))?;
    }
    Ok(shapes)
}

// The bytes of the segments, joined.
fn joined(alloc: Global, store: &MemoryStore) -> Result<Vec<u8>, Fail> {
    let mut bytes = Vec::new(alloc);
    for segment in store.closed.iter() {
        bytes.extend_from_slice(segment.bytes.as_slice())?;
    }
    Ok(bytes)
}

#[test]
fn segments_are_named_by_their_first_positions(rt: HostRuntime) -> Result<(), Fail> {
    let store = written(rt.alloc(), PLAN, 8)?;
    let shapes = shapes(rt.alloc(), &store)?;
    same(
        &rt,
        &shapes.as_slice(),
        &[(0, 72), (72, 72), (144, 48)].as_slice(),
    );
    let bytes = joined(rt.alloc(), &store)?;
    let (mut next, mut byte) = (0, 0u8);
    for record in Tape::new(bytes.as_slice(), 4096, 0)? {
        assert!(rt;
            matches!(record, Ok(found) if found.pos == next && found.bytes == [byte; 16].as_slice())
        );
        next += 24;
        byte = byte.wrapping_add(1);
    }
    same(&rt, &next, &192);
    Ok(())
}

#[test]
fn the_oldest_segments_are_deleted(rt: HostRuntime) -> Result<(), Fail> {
    let plan = SegmentPlan {
        segment: 64,
        keep: 100,
    };
    let store = written(rt.alloc(), plan, 7)?;
    same(
        &rt,
        &shapes(rt.alloc(), &store)?.as_slice(),
        &[(72, 72), (144, 24)].as_slice(),
    );
    let store = written(rt.alloc(), plan, 8)?;
    same(
        &rt,
        &shapes(rt.alloc(), &store)?.as_slice(),
        &[(144, 48)].as_slice(),
    );
    Ok(())
}

#[test]
fn a_restart_goes_on_after_the_last_whole_record(rt: HostRuntime) -> Result<(), Fail> {
    let alloc = rt.alloc();
    for cut in 0..49 {
        let mut store = written(alloc, PLAN, 8)?;
        if let Some(last) = store.closed.back_mut() {
            last.bytes.truncate(cut);
        }
        let mut writer = restarted(alloc, store)?;
        let whole = cut / 24 * 24;
        same(&rt, &writer.position(), &(144 + whole as u64));
        put(&mut writer, 99);
        let store = writer.finish().0;
        let mut want = joined(alloc, &written(alloc, PLAN, 6 + (cut / 24) as u8)?)?;
        want.extend_from_slice(&[16, 0, 0, 0, 0, 0, 0, 0])?;
        want.extend_from_slice(&[99; 16])?;
        same(&rt, &joined(alloc, &store)?.as_slice(), &want.as_slice());
    }
    Ok(())
}
