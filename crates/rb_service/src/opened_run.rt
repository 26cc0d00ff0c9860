//! A stream over opened rings, whose workers wait for room or do not.

ghost use Rattle.std.specs.Prelude.{◌≡◌, ◌≢◌, ◌+◌, ◌-◌, ◌<◌, ◌^◌, All, IfErr, IfOk, vec_len};
ghost use Rattle.rb_workers.specs.Opened.{AreOpened};
ghost use Rattle.rb_workers.specs.Rest.{LeavesNothing};
ghost use Rattle.rb_workers.specs.SeatRows.{seat_rows};
ghost use Rattle.rb_stream.specs.Streamed.{EndsSource};
ghost use Rattle.rb_waiting.specs.Faults.{IsFirstTooSmall};
ghost use Rattle.rb_waiting.specs.NoneRefused.{HasNotAsked, RefusesNoRecord, StaysLow};
ghost use Rattle.rb_waiting.specs.Plans.{IsPlan};
ghost use Rattle.rb_service.specs.Faults.{IsRightFault, reported_fault, reported_turn_fault};
ghost use Rattle.rb_service.specs.Service.{RunsAsRequested};
ghost use Rattle.rb_service.specs.declared.service.ServiceFault.TheVariants.{Memory};

use crate::service::{Full, ServiceFault, ServiceRequest};
use rb_source::Source;
use rb_stream::{StreamFault, StreamReport, run_stream};
use rb_stream_worker::{CountOptions, LiveCounts, Turns};
use rb_verifier::Verified;
use rb_waiting::{TurnFault, plan_turns, run_waiting_stream};
use rb_workers::{Opened, Sink};
use std::alloc::Global;
use std::sync::Wait;
use std::thread::Threads;

/// Runs the stream over opened rings, with workers that wait for room if that is requested.
pub(crate) fn run_opened<T: Threads + Wait + Sync, I: Source + Send, S: Sink + Send + Drop>(
    rt: &T,
    alloc: Global,
    programs: &[Verified],
    source: &mut I,
    opened: Vec<Opened<S>>,
    request: ServiceRequest,
    live: &LiveCounts,
) -> Result<StreamReport<S>, ServiceFault>
    requires opened { AreOpened S.position_of opened.items }
    ensures fault { IfErr result (IsRightFault (vec_len opened) programs.now (I.ctx_len_of source.old) request.full (IsFirstTooSmall opened.items programs.now)) }
    ensures nothing_read { IfErr result (λ fault. fault ≢ Memory → source.new ≡ source.old) }
    ensures ran { IfOk result (RunsAsRequested S.position_of S.takes I.gives opened.items programs.now request source.old source.new) }
    ensures none_refused { IfOk result (λ r. request.full ≡ Full.Wait → All (All HasNotAsked) (seat_rows opened.items) → All StaysLow r.rings.items → All RefusesNoRecord r.rings.items) }
    ensures end { IfOk result (λ r. EndsSource I.is_over I.fails source.new r.end) }
    ensures no_strays { IfOk result (λ r. r.strays ≡ 0) }
    ensures nothing_left { IfOk result (λ r. All LeavesNothing r.rings.items) }
{
    match request.full {
        Full::Refuse => run_at_once(rt, alloc, programs, source, opened, request, live),
        Full::Wait => match plan_turns(alloc, opened.as_slice(), programs) {
            Ok(turns) => run_in_turns(rt, alloc, programs, source, opened, turns, request, live),
            Err(fault) => Err(turn_fault(fault)),
        },
    }
}

// Runs the stream with workers that do not wait.
fn run_at_once<T: Threads + Wait + Sync, I: Source + Send, S: Sink + Send + Drop>(
    rt: &T,
    alloc: Global,
    programs: &[Verified],
    source: &mut I,
    opened: Vec<Opened<S>>,
    request: ServiceRequest,
    live: &LiveCounts,
) -> Result<StreamReport<S>, ServiceFault>
    requires opened { AreOpened S.position_of opened.items }
    requires refuses { request.full ≡ Full.Refuse }
    ensures fault { IfErr result (IsRightFault (vec_len opened) programs.now (I.ctx_len_of source.old) request.full (IsFirstTooSmall opened.items programs.now)) }
    ensures nothing_read { IfErr result (λ fault. fault ≢ Memory → source.new ≡ source.old) }
    ensures ran { IfOk result (RunsAsRequested S.position_of S.takes I.gives opened.items programs.now request source.old source.new) }
    ensures none_refused { IfOk result (λ r. request.full ≡ Full.Wait → All (All HasNotAsked) (seat_rows opened.items) → All StaysLow r.rings.items → All RefusesNoRecord r.rings.items) }
    ensures end { IfOk result (λ r. EndsSource I.is_over I.fails source.new r.end) }
    ensures no_strays { IfOk result (λ r. r.strays ≡ 0) }
    ensures nothing_left { IfOk result (λ r. All LeavesNothing r.rings.items) }
{
    let late = request.late;
    let options = CountOptions {
        bound: request.results,
        live,
    };
    match run_stream(rt, alloc, opened, programs, source, late, options) {
        Ok(report) => Ok(report),
        Err(stop) => Err(stream_fault(stop.fault)),
    }
}

// Runs the stream with workers that wait for room, by this plan.
fn run_in_turns<T: Threads + Wait + Sync, I: Source + Send, S: Sink + Send + Drop>(
    rt: &T,
    alloc: Global,
    programs: &[Verified],
    source: &mut I,
    opened: Vec<Opened<S>>,
    turns: Turns,
    request: ServiceRequest,
    live: &LiveCounts,
) -> Result<StreamReport<S>, ServiceFault>
    requires opened { AreOpened S.position_of opened.items }
    requires planned { IsPlan opened.items programs.now turns }
    requires waits { request.full ≡ Full.Wait }
    ensures fault { IfErr result (IsRightFault (vec_len opened) programs.now (I.ctx_len_of source.old) request.full (IsFirstTooSmall opened.items programs.now)) }
    ensures nothing_read { IfErr result (λ fault. fault ≢ Memory → source.new ≡ source.old) }
    ensures ran { IfOk result (RunsAsRequested S.position_of S.takes I.gives opened.items programs.now request source.old source.new) }
    ensures none_refused { IfOk result (λ r. request.full ≡ Full.Wait → All (All HasNotAsked) (seat_rows opened.items) → All StaysLow r.rings.items → All RefusesNoRecord r.rings.items) }
    ensures end { IfOk result (λ r. EndsSource I.is_over I.fails source.new r.end) }
    ensures no_strays { IfOk result (λ r. r.strays ≡ 0) }
    ensures nothing_left { IfOk result (λ r. All LeavesNothing r.rings.items) }
{
    let late = request.late;
    let options = CountOptions {
        bound: request.results,
        live,
    };
    match run_waiting_stream(rt, alloc, opened, programs, source, late, options, turns) {
        Ok(report) => Ok(report),
        Err(stop) => Err(stream_fault(stop.fault)),
    }
}

// Returns the fault of a service whose stream stopped for this one.
fn stream_fault(fault: StreamFault) -> ServiceFault
    ensures value { result ≡ reported_fault fault }
{
    match fault {
        StreamFault::UnknownRing => ServiceFault::UnknownRing,
        StreamFault::ContextLength => ServiceFault::ContextLength,
        StreamFault::NoWorker => ServiceFault::NoRing,
        StreamFault::Memory => ServiceFault::Memory,
    }
}

// Returns the fault of a service whose turns could not be planned for this one.
fn turn_fault(fault: TurnFault) -> ServiceFault
    ensures value { result ≡ reported_turn_fault fault }
{
    match fault {
        TurnFault::FewerRings => ServiceFault::FewerRings,
        TurnFault::TooSmall(small) => ServiceFault::TooSmall(small),
        TurnFault::Memory => ServiceFault::Memory,
    }
}
