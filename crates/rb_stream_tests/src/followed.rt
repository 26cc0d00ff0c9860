//! A ring's directory on the file system, written and followed. Records of 16 bytes take 24, so three of them close a segment of 64.

use super::given::same;
use rb_json::LineForm;
use rb_segments::{
    DirectoryStore, SegmentFile, SegmentPlan, SegmentWriter, SegmentedRing, enter_ring, mark_end,
};
use rb_tape::{Event, Item};
use rb_tape_commands::{FollowRefusal, follow};
use std::fs;
use std::fs::File;
use std::test::Fail;

type DirectoryWriter<'a> = SegmentWriter<DirectoryStore<'a, HostRuntime>, SegmentFile<File>>;

const NUMBERS: SegmentedRing = SegmentedRing {
    size: 4096,
    start: 0,
};

// Opens the ring's directory, writes records of sixteen bytes, each of them `byte`, and ends the tape in order.
fn write(
    rt: &HostRuntime,
    folder: &str,
    plan: SegmentPlan,
    first: u8,
    end: u8,
) -> Result<u64, Fail> {
    let alloc = rt.alloc();
    fs::create_dir_all(rt, folder)?;
    enter_ring(rt, alloc, folder, "events", NUMBERS)?;
    let store = DirectoryStore::new(rt, alloc, folder, "events");
    let mut writer: DirectoryWriter<'_> = SegmentWriter::open(alloc, store, 4096, 0, plan)?;
    for byte in first..end {
        let bytes = [byte; 16];
        let pos = writer.position();
        if pos < 1000 {
            writer.put(&Item::Event(Event {
                pos,
                worker: 0,
                serial: 0,
                bytes: &bytes,
            }));
        }
    }
    let position = writer.position();
    let fault = writer.finish().1;
    if fault.is_some() {
        return Err(Fail::from("a fault"));
    }
    mark_end(rt, alloc, folder, "events", position)?;
    Ok(position)
}

// What `follow` prints.
fn followed(rt: &HostRuntime, folder: &str, from: Option<u64>) -> Result<Vec<u8>, FollowRefusal> {
    let mut out = Vec::new(rt.alloc());
    follow(
        rt,
        rt.alloc(),
        folder,
        "events",
        from,
        &mut out,
        LineForm::Words,
    )?;
    Ok(out)
}

#[test]
fn a_ring_is_followed_over_segments_and_a_restart(rt: HostRuntime) -> Result<(), Fail> {
    let folder = "followed-segments";
    let _ = fs::remove_dir_all(&rt, folder);
    let plan = SegmentPlan {
        segment: 64,
        keep: u64::MAX,
    };
    same(&rt, &write(&rt, folder, plan, 0, 4)?, &96);
    same(&rt, &write(&rt, folder, plan, 4, 8)?, &192);
    let all = followed(&rt, folder, None)?;
    let lines = all.as_slice().split(|byte| *byte == b'\n').count();
    same(&rt, &lines, &9);
    let last = followed(&rt, folder, Some(168))?;
    same(
        &rt,
        &last.as_slice(),
        &b"pos 168 len 16 07070707070707070707070707070707\n".as_slice(),
    );
    assert!(rt; all.as_slice().ends_with(last.as_slice()));
    assert!(rt;
        all.as_slice().starts_with(
            b"pos 0 len 16 00000000000000000000000000000000\npos 24 len 16 01".as_slice()
        )
    );
    assert!(rt;
        matches!(
            followed(&rt, folder, Some(25)),
            Err(FollowRefusal::NoRecord)
        )
    );
    fs::remove_dir_all(&rt, folder)?;
    Ok(())
}

#[test]
fn deleted_segments_are_reported(rt: HostRuntime) -> Result<(), Fail> {
    let folder = "deleted-segments";
    let _ = fs::remove_dir_all(&rt, folder);
    let plan = SegmentPlan {
        segment: 64,
        keep: 100,
    };
    same(&rt, &write(&rt, folder, plan, 0, 8)?, &192);
    assert!(rt;
        matches!(
            followed(&rt, folder, Some(72)),
            Err(FollowRefusal::Deleted(144))
        )
    );
    let left = followed(&rt, folder, None)?;
    assert!(rt; left.as_slice().starts_with(b"pos 144 len 16 06".as_slice()));
    fs::remove_dir_all(&rt, folder)?;
    Ok(())
}
