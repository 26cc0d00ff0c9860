//! A worker that runs programs over contexts, with one ring.

ghost use Rattle.std.specs.Prelude.{◌≡◌, ◌≤◌, length};
ghost use Rattle.rb_jobs.specs.SeatHelpers.{IsAt};
ghost use Rattle.rb_stream_worker.specs.ContextRuns.{IsNewWorker};

use super::given::{self, FIRST_BYTE, OUTPUT_CONTEXT, same};
use rb_dealing::Work;
use rb_history::Taken;
use rb_jobs::NoStock;
use rb_lend::Lent;
use rb_shared_ring::{ConsumerSeat, Seat, SharedRing, open};
use rb_source::Piece;
use rb_stream_worker::{CountOptions, LiveCounts, StreamCounts, StreamWorker, WhenFull};
use rb_verifier::Verified;
use std::alloc::Global;
use std::process::Abort;
use std::sync::Wait;

// Returns a program that was verified for contexts of eight bytes and one ring.
fn verified(rt: &impl Abort, alloc: Global, text: &str) -> Verified
    ensures rings { result.rings ≡ 1 }
    ensures ctx_len { result.ctx_len ≡ 8 }
{
    given::verified(rt, alloc, text, 8, 1)
}

// Returns a ring with one seat.
fn opened<R: Wait + Abort>(rt: &R, alloc: Global) -> (SharedRing, Seat, ConsumerSeat)
    ensures seat { IsAt result.0 result.1 }
    ensures consumer { result.2.ring ≡ result.0.ring }
{
    let Ok((ring, mut seats, consumer)) = open(rt, alloc, 0, 4096, 0, 1, 64) else {
        rt.panic("no ring")
    };
    match seats.pop() {
        Some(seat) => (ring, seat, consumer),
        None => rt.panic("no seat"),
    }
}

// Returns a piece of contexts of this length, one for each number, filled with it.
fn piece_of(rt: &impl Abort, alloc: Global, ctx_len: u32, numbers: &[u8]) -> Piece
    requires { ctx_len ≤ 65536 }
{
    let mut piece = Piece::new(alloc, ctx_len).expect(rt, "memory");
    for number in numbers {
        let context = vec![in alloc; *number; ctx_len as usize].expect(rt, "memory");
        if !piece.is_full() {
            piece.push(&context);
        }
    }
    piece
}

// Returns the first byte of the next record, or 255 if there is none or if it does not have eight bytes.
fn next_byte<R: Wait + Abort>(rt: &R, ring: &SharedRing, consumer: &mut ConsumerSeat) -> u8
    requires { consumer.old.ring ≡ ring.now.ring }
    ensures { consumer.new.ring ≡ consumer.old.ring }
{
    match ring.take(rt, consumer) {
        Ok(Taken::Event(_, _, _, sheet)) => {
            let bytes = sheet.bytes();
            if bytes.len() == 8 { bytes[0] } else { 255 }
        }
        _ => 255,
    }
}

// Returns whether a worker, which may be sent to another thread, has stopped.
fn has_stopped<W: Work + Send>(worker: &W) -> bool {
    worker.is_short()
}

// Returns live counts for this many workers over one ring.
fn live_counts(rt: &impl Abort, alloc: Global, workers: u32, programs: usize) -> LiveCounts {
    LiveCounts::new(alloc, workers, programs, 1, 16).expect(rt, "memory")
}

// Ends the test if the live counts differ from those of the one worker.
fn same_live(rt: &impl Abort, alloc: Global, live: &LiveCounts, counts: &StreamCounts, made: u64) {
    same(
        rt,
        &(live.run(), live.unlogged(), live.requests(0)),
        &(counts.contexts, counts.unlogged, (made, 0)),
    );
    let results = live.results(alloc).expect(rt, "memory");
    same(rt, &results.len(), &counts.results.len());
    for at in 0..results.len().min(counts.results.len()) {
        same(rt, &results[at].other, &counts.results[at].other);
        same(
            rt,
            &results[at].below.as_slice(),
            &counts.results[at].below.as_slice(),
        );
    }
}

// Returns a worker of these programs at these rings, without seats.
fn new_worker<'w, R: Wait + Abort>(
    rt: &'w R,
    alloc: Global,
    rings: &'w [SharedRing],
    programs: &'w [Verified],
    full: &'w WhenFull,
    live: &'w LiveCounts,
) -> StreamWorker<'w, R, NoStock>
    ensures { IsNewWorker 0 rings.now programs.now full.now 8 16 result }
{
    let options = CountOptions { bound: 16, live };
    match StreamWorker::new(rt, alloc, 0, rings, programs, full, 8, &NoStock, options) {
        Ok(worker) => worker,
        Err(_) => rt.panic("no memory"),
    }
}

#[test]
fn two_programs_over_three_contexts(rt: HostRuntime) {
    let alloc = rt.alloc();
    let programs = [
        verified(&rt, alloc, OUTPUT_CONTEXT),
        verified(&rt, alloc, FIRST_BYTE),
    ];
    let (ring, seat, mut consumer) = opened(&rt, alloc);
    let rings = [ring];
    let live = live_counts(&rt, alloc, 1, programs.len());
    let mut worker = new_worker(&rt, alloc, &rings, &programs, &WhenFull::Refuse, &live);
    worker.seats.push_reserved(seat);
    worker.run(&piece_of(&rt, alloc, 8, &[7, 99, 7]));
    let counts = &worker.counts;
    same(
        &rt,
        &(counts.contexts, counts.left, counts.unlogged),
        &(3, 0, 0),
    );
    let first = &counts.results[0];
    let second = &counts.results[1];
    same(
        &rt,
        &(first.below[0], first.below[7], first.other),
        &(3, 0, 0),
    );
    same(
        &rt,
        &(second.below[7], second.below[9], second.other),
        &(2, 0, 1),
    );
    same(&rt, &has_stopped(&worker), &false);
    same_live(&rt, alloc, &live, counts, 3);
    for number in [7, 99, 7, 255] {
        same(&rt, &next_byte(&rt, &rings[0], &mut consumer), &number);
    }
}

#[test]
fn a_worker_that_stopped_runs_nothing_more(rt: HostRuntime) {
    let alloc = rt.alloc();
    let programs = [verified(&rt, alloc, OUTPUT_CONTEXT)];
    let (ring, seat, mut consumer) = opened(&rt, alloc);
    let rings = [ring];
    let live = live_counts(&rt, alloc, 1, programs.len());
    let mut worker = new_worker(&rt, alloc, &rings, &programs, &WhenFull::Refuse, &live);
    worker.seats.push_reserved(seat);
    worker.run(&piece_of(&rt, alloc, 9, &[1, 2]));
    worker.run(&piece_of(&rt, alloc, 8, &[3]));
    let counts = &worker.counts;
    same(
        &rt,
        &(counts.contexts, counts.left, has_stopped(&worker)),
        &(0, 3, true),
    );
    same(&rt, &next_byte(&rt, &rings[0], &mut consumer), &255);
}

#[test]
fn a_worker_publishes_its_counts_after_each_piece(rt: HostRuntime) {
    let alloc = rt.alloc();
    let programs = [
        verified(&rt, alloc, OUTPUT_CONTEXT),
        verified(&rt, alloc, FIRST_BYTE),
    ];
    let (ring, seat, _) = opened(&rt, alloc);
    let rings = [ring];
    let live = live_counts(&rt, alloc, 2, programs.len());
    let mut worker = new_worker(&rt, alloc, &rings, &programs, &WhenFull::Refuse, &live);
    worker.seats.push_reserved(seat);
    same_live(&rt, alloc, &live, &worker.counts, 0);
    worker.run(&piece_of(&rt, alloc, 8, &[7, 99, 7]));
    same_live(&rt, alloc, &live, &worker.counts, 3);
    worker.run(&piece_of(&rt, alloc, 8, &[15]));
    same_live(&rt, alloc, &live, &worker.counts, 4);
    worker.run(&piece_of(&rt, alloc, 9, &[1]));
    same_live(&rt, alloc, &live, &worker.counts, 4);
}
