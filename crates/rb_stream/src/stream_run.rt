//! Runs of streams over rings.

ghost use Rattle.std.specs.Prelude.{◌≡◌, ◌≢◌, ◌≤◌, ◌<◌, ◌↔◌, ℕ, [], All, IfErr, IfOk, IfSome, false, true, length, map, slice_index_or, vec_capacity, vec_len};
ghost use Rattle.std.specs.List.{AllZip};
ghost use Rattle.rb_jobs.specs.SeatHelpers.{AtRings};
ghost use Rattle.rb_dealing.specs.Streams.{IsEndOf};
ghost use Rattle.rb_stream_worker.specs.ContextRuns.{IsNewCounts, IsProgramFor};
ghost use Rattle.rb_stream_worker.specs.Turns.{FitsRings};
ghost use Rattle.rb_workers.specs.Opened.{AreOpened, IsOpened, workers_of};
ghost use Rattle.rb_workers.specs.Rest.{IsDrained, LeavesNothing};
ghost use Rattle.rb_workers.specs.SeatRows.{seat_rows, worker_column};
ghost use Rattle.rb_workers.specs.Settled.{EachSettled, EndsSettled};
ghost use Rattle.rb_workers.specs.inner.ConsumerTasks.{Consumed, IsConsumed, IsConsumerTaskOf, joined_rings};
ghost use Rattle.rb_workers.specs.inner.RunBuffers.{HasRoomForRun};
ghost use Rattle.rb_workers.specs.inner.WorkerRuns.{IsNew};
ghost use Rattle.rb_stream.specs.Refusals.{StopsFor, has_other_length, has_unknown_ring};
ghost use Rattle.rb_stream.specs.Returned.{AreReturned};
ghost use Rattle.rb_stream.specs.Streamed.{EndsSource, IsStoppedAs, IsStreamedAs};
ghost use Rattle.rb_stream.specs.inner.Runs.{StreamRan, reported_as, seats_of};

use crate::lanes::{Lanes, add_up, make_lanes, swap_seats};
use crate::refusals::{find_unfit, gives_nothing};
use crate::report::{StreamEnd, StreamFault, StreamReport, StreamStop};
use crate::threads::run_threads;
use crossbeam_queue::ArrayQueue;
use rb_consumer::Batch;
use rb_dealing::{DealEnd, Dealt, Late};
use rb_lend::Sheet;
use rb_shared_ring::SharedRing;
use rb_source::Source;
use rb_stream_worker::{CountOptions, StreamCounts, WhenFull};
use rb_verifier::Verified;
use rb_workers::run_parts::{
    ConsumerTask, RunBuffers, Worker, close_all, count_workers, make_buffers, merge, return_seats,
    split, take_rests,
};
use rb_workers::used_sheets::UsedSheets;
use rb_workers::{Opened, Sink};
use std::alloc::Global;
use std::sync::Wait;
use std::thread::Threads;

// Runs the stream over rings whose seats the workers hold, and adds up the workers' counts. If the lanes can't be
// allocated, nothing is read.
fn run_split<R: Threads + Wait + Sync, I: Source + Send, S: Sink + Send>(
    rt: &R,
    alloc: Global,
    rings: &[SharedRing],
    programs: &[Verified],
    full: &WhenFull,
    ctx_len: u32,
    source: &mut I,
    late: Late,
    sheets: &ArrayQueue<Sheet>,
    workers: &mut [Worker],
    consumers: &mut [ConsumerTask<S>],
    options: CountOptions<'_>,
    dealt: &mut Dealt,
    total: &mut StreamCounts,
)
    requires fit { All (IsProgramFor (length rings.now) ctx_len) programs.now }
    requires limits { FitsRings full.now (length rings.now) }
    requires numbered { (k : ℕ) (d : _) → k < length workers.old → (slice_index_or workers.old k d).number ≡ k }
    requires seats { All (λ w. AtRings rings.now w.seats.items) workers.old }
    requires consumers { AllZip (IsConsumerTaskOf S.position_of) rings.now consumers.old }
    requires dealt { (dealt.old.contexts ≡ 0) × (dealt.old.dropped ≡ 0) × IsEndOf I.is_over I.fails source.old dealt.old.end }
    requires total { IsNewCounts (length programs.now) options.bound total.old }
    ensures ran { StreamRan I.gives (length workers.old) programs.now full.now options.entry.bound source.old source.new (seats_of workers.old) (seats_of workers.new) dealt.new total.new }
    ensures end { IsEndOf I.is_over I.fails source.new dealt.new.end }
    ensures seats { All (λ w. AtRings rings.now w.seats.items) workers.new }
    ensures consumers { AllZip (Consumed S.position_of S.takes) consumers.old consumers.new }
{
    gives_nothing::<I>();
    let stock = UsedSheets { rt, sheets };
    let made = make_lanes(
        rt, alloc, rings, programs, full, ctx_len, options, &stock, workers,
    );
    let Ok(
        Lanes {
            mut feeds,
            mut lanes,
        },
    ) = made
    else {
        return;
    };
    swap_seats(workers, lanes.as_mut_slice());
    run_threads(
        rt,
        alloc,
        rings,
        source,
        late,
        &options.live.dropped,
        sheets,
        feeds.as_mut_slice(),
        lanes.as_mut_slice(),
        consumers,
        dealt,
    );
    swap_seats(workers, lanes.as_mut_slice());
    add_up(lanes.as_slice(), total);
}

// Splits the rings, runs the stream in threads, and returns the seats to the consumer tasks.
fn run_in<R: Threads + Wait + Sync, I: Source + Send, S: Sink + Send + Drop>(
    rt: &R,
    alloc: Global,
    opened: Vec<Opened<S>>,
    programs: &[Verified],
    full: &WhenFull,
    ctx_len: u32,
    source: &mut I,
    late: Late,
    rings: &mut Vec<SharedRing>,
    consumers: &mut Vec<ConsumerTask<S>>,
    batches: Vec<Batch>,
    sheets: &ArrayQueue<Sheet>,
    workers: &mut [Worker],
    options: CountOptions<'_>,
    dealt: &mut Dealt,
    total: &mut StreamCounts,
)
    requires fit { All (IsProgramFor (vec_len opened) ctx_len) programs.now }
    requires limits { FitsRings full.now (vec_len opened) }
    requires opened { All (IsOpened S.position_of (length workers.old)) opened.items }
    requires count { length workers.old ≡ workers_of opened.items }
    requires batches { vec_len batches ≡ vec_len opened }
    requires empty { (rings.old.items ≡ []) × (consumers.old.items ≡ []) }
    requires room { (vec_len opened ≤ vec_capacity rings.old) × (vec_len opened ≤ vec_capacity consumers.old) }
    requires workers { (k : ℕ) (d : _) → k < length workers.old → IsNew k (vec_len opened) (slice_index_or workers.old k d) }
    requires dealt { (dealt.old.contexts ≡ 0) × (dealt.old.dropped ≡ 0) × IsEndOf I.is_over I.fails source.old dealt.old.end }
    requires total { IsNewCounts (length programs.now) options.bound total.old }
    ensures len { vec_len consumers.new ≡ vec_len rings.new }
    ensures returned { AreReturned S.position_of S.takes opened.items (joined_rings rings.new.items consumers.new.items) }
    ensures consumed { AllZip (IsConsumed S.position_of S.takes) opened.items (joined_rings rings.new.items consumers.new.items) }
    ensures ran { StreamRan I.gives (workers_of opened.items) programs.now full.now options.entry.bound source.old source.new (λ k. worker_column k (seat_rows opened.items)) (λ k. worker_column k (seat_rows (joined_rings rings.new.items consumers.new.items))) dealt.new total.new }
    ensures end { IsEndOf I.is_over I.fails source.new dealt.new.end }
{
    split(opened, rings, consumers, batches, workers);
    run_split(
        rt,
        alloc,
        rings.as_slice(),
        programs,
        full,
        ctx_len,
        source,
        late,
        sheets,
        workers,
        consumers.as_mut_slice(),
        options,
        dealt,
        total,
    );
    return_seats(workers, consumers.as_mut_slice());
}

// Runs the stream, like `run_in`, and then takes what is left in the rings.
fn run_and_empty<R: Threads + Wait + Sync, I: Source + Send, S: Sink + Send + Drop>(
    rt: &R,
    alloc: Global,
    opened: Vec<Opened<S>>,
    programs: &[Verified],
    full: &WhenFull,
    ctx_len: u32,
    source: &mut I,
    late: Late,
    rings: &mut Vec<SharedRing>,
    consumers: &mut Vec<ConsumerTask<S>>,
    batches: Vec<Batch>,
    rest: &mut Batch,
    sheets: &ArrayQueue<Sheet>,
    workers: &mut [Worker],
    options: CountOptions<'_>,
    dealt: &mut Dealt,
    total: &mut StreamCounts,
)
    requires fit { All (IsProgramFor (vec_len opened) ctx_len) programs.now }
    requires limits { FitsRings full.now (vec_len opened) }
    requires opened { All (IsOpened S.position_of (length workers.old)) opened.items }
    requires count { length workers.old ≡ workers_of opened.items }
    requires batches { vec_len batches ≡ vec_len opened }
    requires empty { (rings.old.items ≡ []) × (consumers.old.items ≡ []) }
    requires room { (vec_len opened ≤ vec_capacity rings.old) × (vec_len opened ≤ vec_capacity consumers.old) }
    requires workers { (k : ℕ) (d : _) → k < length workers.old → IsNew k (vec_len opened) (slice_index_or workers.old k d) }
    requires dealt { (dealt.old.contexts ≡ 0) × (dealt.old.dropped ≡ 0) × IsEndOf I.is_over I.fails source.old dealt.old.end }
    requires total { IsNewCounts (length programs.now) options.bound total.old }
    ensures len { vec_len consumers.new ≡ vec_len rings.new }
    ensures returned { AreReturned S.position_of S.takes opened.items (joined_rings rings.new.items consumers.new.items) }
    ensures drained { All IsDrained (joined_rings rings.new.items consumers.new.items) }
    ensures ran { StreamRan I.gives (workers_of opened.items) programs.now full.now options.entry.bound source.old source.new (λ k. worker_column k (seat_rows opened.items)) (λ k. worker_column k (seat_rows (joined_rings rings.new.items consumers.new.items))) dealt.new total.new }
    ensures end { IsEndOf I.is_over I.fails source.new dealt.new.end }
{
    run_in(
        rt, alloc, opened, programs, full, ctx_len, source, late, rings, consumers, batches,
        sheets, workers, options, dealt, total,
    );
    take_rests(rt, rings.as_slice(), consumers.as_mut_slice(), rest);
}

// Returns why the stream ended, if all contexts of the source were dealt and run.
fn end_of(end: DealEnd, stopped: bool) -> Option<StreamEnd>
    ensures not_stopped { IfSome result (λ _. stopped ≡ false) }
    ensures end { IfSome result (λ e. end ≡ reported_as e) }
{
    if stopped {
        return None;
    }
    match end {
        DealEnd::Over => Some(StreamEnd::Over),
        DealEnd::Failed(fault) => Some(StreamEnd::Failed(fault)),
        DealEnd::Memory => None,
        DealEnd::Short => None,
    }
}

// Runs the stream, and closes the rings if the stream reached its end.
fn run_known<R: Threads + Wait + Sync, I: Source + Send, S: Sink + Send + Drop>(
    rt: &R,
    alloc: Global,
    opened: Vec<Opened<S>>,
    programs: &[Verified],
    full: &WhenFull,
    ctx_len: u32,
    source: &mut I,
    late: Late,
    buffers: RunBuffers<S>,
    options: CountOptions<'_>,
    mut total: StreamCounts,
) -> Result<StreamReport<S>, StreamStop<S>>
    requires opened { AreOpened S.position_of opened.items }
    requires fit { All (IsProgramFor (vec_len opened) ctx_len) programs.now }
    requires limits { FitsRings full.now (vec_len opened) }
    requires buffers { HasRoomForRun (workers_of opened.items) (vec_len opened) 0 buffers }
    requires total { IsNewCounts (length programs.now) options.bound total }
    ensures memory { IfErr result (λ stop. stop.fault ≡ StreamFault.Memory) }
    ensures streamed { IfOk result (IsStreamedAs full.now S.position_of S.takes I.gives opened.items programs.now options.entry.bound source.old source.new) }
    ensures end { IfOk result (λ r. EndsSource I.is_over I.fails source.new r.end) }
    ensures no_strays { IfOk result (λ r. r.strays ≡ 0) }
    ensures nothing_left { IfOk result (λ r. All LeavesNothing r.rings.items) }
    ensures settled { IfOk result (λ r. EachSettled (workers_of opened.items) (seat_rows opened.items) → All EndsSettled r.rings.items) }
    ensures stopped { IfErr result (IsStoppedAs full.now S.position_of S.takes I.gives opened.items programs.now source.old source.new) }
{
    let RunBuffers {
        mut rings,
        mut consumers,
        batches,
        mut rest,
        sheets,
        merged,
        mut workers,
        tallies,
        ended,
        results: _,
    } = buffers;
    let mut dealt = Dealt {
        contexts: 0,
        dropped: 0,
        end: DealEnd::Memory,
    };
    run_and_empty(
        rt,
        alloc,
        opened,
        programs,
        full,
        ctx_len,
        source,
        late,
        &mut rings,
        &mut consumers,
        batches,
        &mut rest,
        &sheets,
        workers.as_mut_slice(),
        options,
        &mut dealt,
        &mut total,
    );
    let Dealt {
        contexts,
        dropped,
        end,
    } = dealt;
    let Some(end) = end_of(end, total.stopped) else {
        return Err(StreamStop {
            fault: StreamFault::Memory,
            contexts,
            dropped,
            left: total.left,
            opened: merge(rings, consumers, merged),
        });
    };
    let rings = close_all(rt, rings, consumers, tallies, ended);
    Ok(StreamReport {
        rings,
        contexts,
        dropped,
        ran: total.contexts,
        results: total.results,
        unlogged: total.unlogged,
        // No run ends with a stray record: the clause `no_strays` of `run_stream`.
        strays: 0,
        end,
    })
}

/// Runs a stream like `run_stream`, with workers that run contexts at once or wait for room, according to `full`.
///
/// Workers that wait for room (`WhenFull::Wait`) run the contexts of a piece in turns. Before each turn a worker
/// queries every ring for its untaken bytes until they are within the ring's limit, and sleeps in between, never
/// without a timeout. A worker that waits holds no record, so the consumers can make room. If no thread can be started
/// for the consumers, it waits forever.
///
/// # Errors
///
/// The same as those of `run_stream`.
pub fn run_stream_as<R: Threads + Wait + Sync, I: Source + Send, S: Sink + Send + Drop>(
    rt: &R,
    alloc: Global,
    opened: Vec<Opened<S>>,
    programs: &[Verified],
    source: &mut I,
    late: Late,
    options: CountOptions<'_>,
    full: &WhenFull,
) -> Result<StreamReport<S>, StreamStop<S>>
    requires opened { AreOpened S.position_of opened.items }
    requires limits { FitsRings full.now (vec_len opened) }
    ensures unknown_ring { StopsFor StreamFault.UnknownRing result ↔ (has_unknown_ring (vec_len opened) programs.now ≡ true) }
    ensures context_length { StopsFor StreamFault.ContextLength result ↔ ((has_unknown_ring (vec_len opened) programs.now ≡ false) × (has_other_length (I.ctx_len_of source.old) programs.now ≡ true)) }
    ensures no_worker { StopsFor StreamFault.NoWorker result ↔ ((has_unknown_ring (vec_len opened) programs.now ≡ false) × (has_other_length (I.ctx_len_of source.old) programs.now ≡ false) × (workers_of opened.items ≡ 0)) }
    ensures nothing_read { IfErr result (λ stop. stop.fault ≢ StreamFault.Memory → (stop.opened ≡ opened) × (source.new ≡ source.old)) }
    ensures stopped { IfErr result (IsStoppedAs full.now S.position_of S.takes I.gives opened.items programs.now source.old source.new) }
    ensures streamed { IfOk result (IsStreamedAs full.now S.position_of S.takes I.gives opened.items programs.now options.entry.bound source.old source.new) }
    ensures end { IfOk result (λ r. EndsSource I.is_over I.fails source.new r.end) }
    ensures no_strays { IfOk result (λ r. r.strays ≡ 0) }
    ensures nothing_left { IfOk result (λ r. All LeavesNothing r.rings.items) }
    ensures settled { IfOk result (λ r. EachSettled (workers_of opened.items) (seat_rows opened.items) → All EndsSettled r.rings.items) }
{
    gives_nothing::<I>();
    let ctx_len = source.ctx_len();
    let unfit = find_unfit(programs, opened.len(), ctx_len);
    if unfit.rings {
        return Err(StreamStop::refusal(StreamFault::UnknownRing, opened));
    }
    if unfit.length {
        return Err(StreamStop::refusal(StreamFault::ContextLength, opened));
    }
    let count = count_workers(&opened);
    if count == 0 {
        return Err(StreamStop::refusal(StreamFault::NoWorker, opened));
    }
    let Ok(total) = StreamCounts::new(alloc, programs.len(), options.bound) else {
        return Err(StreamStop::refusal(StreamFault::Memory, opened));
    };
    let Ok(buffers) = make_buffers(alloc, count, &[], opened.len(), 0) else {
        return Err(StreamStop::refusal(StreamFault::Memory, opened));
    };
    match run_known(
        rt, alloc, opened, programs, full, ctx_len, source, late, buffers, options, total,
    ) {
        Ok(report) => Ok(report),
        Err(stop) => Err(stop),
    }
}
