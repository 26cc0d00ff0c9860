//! Streams whose workers wait for room.

ghost use Rattle.std.specs.Prelude.{◌≡◌, ◌≢◌, ◌↔◌, All, IfErr, IfOk, false, true, vec_len};
ghost use Rattle.rb_workers.specs.Opened.{AreOpened, workers_of};
ghost use Rattle.rb_workers.specs.Rest.{LeavesNothing};
ghost use Rattle.rb_workers.specs.SeatRows.{seat_rows};
ghost use Rattle.rb_workers.specs.Settled.{EachSettled, EndsSettled};
ghost use Rattle.rb_stream.specs.Refusals.{StopsFor, has_other_length, has_unknown_ring};
ghost use Rattle.rb_stream.specs.Streamed.{EndsSource, IsStoppedAs, IsStreamedAs};
ghost use Rattle.rb_waiting.specs.Failures.{FailsUnlogged};
ghost use Rattle.rb_waiting.specs.NoneRefused.{HasNotAsked, RefusesNoRecord, StaysLow};
ghost use Rattle.rb_waiting.specs.Plans.{IsPlan};

use rb_dealing::Late;
use rb_source::Source;
use rb_stream::{StreamFault, StreamReport, StreamStop, run_stream_as};
use rb_stream_worker::{CountOptions, Turns, WhenFull};
use rb_verifier::Verified;
use rb_workers::{Opened, Sink};
use std::alloc::Global;
use std::sync::Wait;
use std::thread::Threads;

/// Runs a stream like `rb_stream::run_stream`, with workers that wait for room before each turn, by a plan of
/// `plan_turns` for these programs and rings.
///
/// At the end, no worker was refused a record for lack of room (`none_refused`), if none had requested a record from
/// its ring before: no seat counts a refusal, and no history of a ring has one. The other premise is that the producer
/// position stays below 2^62 by at least the ring's size; beyond 2^62 no record is granted.
///
/// A worker that waits holds no record, so a consumer can always make room. If no thread can be started for the
/// consumers, a worker waits forever.
///
/// # Errors
///
/// The same as those of `run_stream`.
pub fn run_waiting_stream<R: Threads + Wait + Sync, I: Source + Send, S: Sink + Send + Drop>(
    rt: &R,
    alloc: Global,
    opened: Vec<Opened<S>>,
    programs: &[Verified],
    source: &mut I,
    late: Late,
    options: CountOptions<'_>,
    turns: Turns,
) -> Result<StreamReport<S>, StreamStop<S>>
    requires opened { AreOpened S.position_of opened.items }
    requires planned { IsPlan opened.items programs.now turns }
    ensures none_refused { IfOk result (λ r. All (All HasNotAsked) (seat_rows opened.items) → All StaysLow r.rings.items → All RefusesNoRecord r.rings.items) }
    ensures fails_unlogged { IfOk result (λ r. All (All HasNotAsked) (seat_rows opened.items) → All StaysLow r.rings.items → FailsUnlogged (WhenFull.Wait turns) S.position_of S.takes I.gives opened.items programs.now options.entry.bound source.old source.new r) }
    ensures unknown_ring { StopsFor StreamFault.UnknownRing result ↔ (has_unknown_ring (vec_len opened) programs.now ≡ true) }
    ensures context_length { StopsFor StreamFault.ContextLength result ↔ ((has_unknown_ring (vec_len opened) programs.now ≡ false) × (has_other_length (I.ctx_len_of source.old) programs.now ≡ true)) }
    ensures no_worker { StopsFor StreamFault.NoWorker result ↔ ((has_unknown_ring (vec_len opened) programs.now ≡ false) × (has_other_length (I.ctx_len_of source.old) programs.now ≡ false) × (workers_of opened.items ≡ 0)) }
    ensures nothing_read { IfErr result (λ stop. stop.fault ≢ StreamFault.Memory → (stop.opened ≡ opened) × (source.new ≡ source.old)) }
    ensures stopped { IfErr result (IsStoppedAs (WhenFull.Wait turns) S.position_of S.takes I.gives opened.items programs.now source.old source.new) }
    ensures streamed { IfOk result (IsStreamedAs (WhenFull.Wait turns) S.position_of S.takes I.gives opened.items programs.now options.entry.bound source.old source.new) }
    ensures end { IfOk result (λ r. EndsSource I.is_over I.fails source.new r.end) }
    ensures no_strays { IfOk result (λ r. r.strays ≡ 0) }
    ensures nothing_left { IfOk result (λ r. All LeavesNothing r.rings.items) }
    ensures settled { IfOk result (λ r. EachSettled (workers_of opened.items) (seat_rows opened.items) → All EndsSettled r.rings.items) }
{
    let full = WhenFull::Wait(turns);
    match run_stream_as(rt, alloc, opened, programs, source, late, options, &full) {
        Ok(report) => Ok(report),
        Err(stop) => Err(stop),
    }
}
