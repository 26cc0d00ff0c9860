//! The examples of the module docs of `rb_chapter_ring`, `rb_shared_ring`, `rb_workers` and `rb_stream`: each line of
//! such an example is a line of its test here, in the same order (`tools/check examples` compares them).

use rb_chapter_ring::{Chapter, RingState};
use rb_history::{Notice, Taken};
use rb_jobs::{Job, OpenGate};
use rb_lend::Sheet;
use rb_program::{from_text, shape};
use rb_shared_ring::open;
use rb_source::ListSource;
use rb_stream::{Late, run_stream};
use rb_stream_worker::{CountOptions, LiveCounts};
use rb_verifier::verify;
use rb_workers::{NullSink, Opened, chapter_margin, chapter_room, run_jobs};
use std::test::Fail;

#[test]
fn example_of_ring_state(rt: HostRuntime) -> Result<(), Fail> {
    let alloc = rt.alloc();
    // tag 7, 4,096 bytes, start 0, one worker, chapters of 8 entries
    let mut ring = RingState::new(alloc, 7, 4096, 0, 1, 8)?;
    // four bytes, into hand 2 of worker 0
    let Ok(record) = ring.reserve(0, 2, 4, Sheet::new(alloc, 4)?) else {
        return Err(Fail::from("no record"));
    };
    assert_eq!(rt; (record.tag(), record.hand()), (7, 2));
    assert_eq!(rt; ring.submit(record, 0), Notice::Due);
    let Ok(chapter) = ring.hand_out(Chapter::new(alloc, 8, 1)?) else {
        return Err(Fail::from("no chapter"));
    };
    assert_eq!(rt; (chapter.number(), chapter.used()), (0, 2));
    assert!(rt; matches!(ring.take(), Taken::Event(0, 0, 0, _)));
    Ok(())
}

#[test]
fn example_of_shared_ring(rt: HostRuntime) -> Result<(), Fail> {
    let alloc = rt.alloc();
    // tag 7, 4,096 bytes, start 0, one worker, chapters of 8 entries
    let (ring, mut seats, mut consumer) = open(&rt, alloc, 7, 4096, 0, 1, 8)?;
    let Some(mut seat) = seats.pop() else {
        return Err(Fail::from("no seat"));
    };
    let Ok(record) = ring.reserve(&rt, &mut seat, 8, Sheet::new(alloc, 8)?) else {
        return Err(Fail::from("no record"));
    };
    // the record is in flight, in hand 0 of the seat
    assert_eq!(rt; (record.tag(), record.hand()), (7, 0));
    assert!(rt; matches!(ring.submit(&rt, &mut seat, record, 0), Ok(Notice::Due)));
    // two entries, and the take that the record will log
    assert_eq!(rt; ring.used(&rt, &mut consumer), Ok((2, 1)));
    let Ok(chapter) = ring.hand_out(&rt, &mut consumer, Chapter::new(alloc, 8, 1)?) else {
        return Err(Fail::from("no chapter"));
    };
    assert!(rt; matches!(ring.take(&rt, &mut consumer), Ok(Taken::Event(0, 0, 0, _))));
    seats.push(seat)?;
    let Ok(closing) = ring.close(&rt, seats, consumer) else {
        return Err(Fail::from("a seat is missing"));
    };
    let Ok(whole) = closing.bind(alloc, vec![in alloc; chapter]?) else {
        return Err(Fail::from("not bound"));
    };
    // the reservation, the submit and the take
    assert_eq!(rt; whole.history().len(), 3);
    Ok(())
}

#[test]
fn example_of_run_jobs(rt: HostRuntime) -> Result<(), Fail> {
    let alloc = rt.alloc();
    // outputs the first eight bytes of the context to ring 0, and returns the answer
    let text = "bf12000000000000 1851000000000000 0000000000000000
        b703000008000000 b704000000000000 8500000082000000 9500000000000000";
    let program = verify(alloc, shape(alloc, from_text(alloc, text)?)?, 16, 1)?;
    // tag 0, 4,096 bytes, start 0, two workers
    let (room, margin) = (chapter_room(4096), chapter_margin(4096));
    let sink = NullSink { position: 0 };
    let ring = Opened::open(&rt, alloc, 0, 4096, 0, 2, room, margin, sink)?;
    let jobs = [
        Job {
            worker: 0,
            program: &program,
            ctx: &[1; 16],
        },
        Job {
            worker: 1,
            program: &program,
            ctx: &[2; 16],
        },
    ];
    let Ok(report) = run_jobs(&rt, alloc, vec![in alloc; ring]?, &jobs, &OpenGate) else {
        return Err(Fail::from("no report"));
    };
    assert_eq!(rt; report.answers.as_slice(), [Ok(0), Ok(0)].as_slice());
    for ended in &report.rings {
        assert_eq!(rt; ended.closing.counts().consumed, 2);
    }
    Ok(())
}

#[test]
fn example_of_run_stream(rt: HostRuntime) -> Result<(), Fail> {
    let alloc = rt.alloc();
    // outputs the first eight bytes of the context to ring 0, and returns the answer
    let text = "bf12000000000000 1851000000000000 0000000000000000
        b703000008000000 b704000000000000 8500000082000000 9500000000000000";
    let program = verify(alloc, shape(alloc, from_text(alloc, text)?)?, 16, 1)?;
    // tag 0, 4,096 bytes, start 0, two workers
    let (room, margin) = (chapter_room(4096), chapter_margin(4096));
    let sink = NullSink { position: 0 };
    let ring = Opened::open(&rt, alloc, 0, 4096, 0, 2, room, margin, sink)?;
    let contexts = vec![in alloc; vec![in alloc; 1; 16]?, vec![in alloc; 2; 16]?]?;
    let mut source = ListSource::new(&contexts, 16);
    // counts the results 0 to 15 individually, and publishes nothing while the stream runs
    let live = LiveCounts::new(alloc, 0, 0, 0, 16)?;
    let options = CountOptions {
        bound: 16,
        live: &live,
    };
    let (rings, programs) = (vec![in alloc; ring]?, [program]);
    let Ok(report) = run_stream(
        &rt,
        alloc,
        rings,
        &programs,
        &mut source,
        Late::Block,
        options,
    ) else {
        return Err(Fail::from("no report"));
    };
    assert_eq!(rt; (report.contexts, report.dropped, report.ran), (2, 0, 2));
    for ended in &report.rings {
        assert_eq!(rt; ended.closing.counts().consumed, 2);
    }
    Ok(())
}
