//! A stream over rings that are opened for it.

ghost use Rattle.std.specs.Prelude.{◌≡◌, ◌≢◌, ◌↔◌, ◌+◌, ◌-◌, ◌≤◌, ◌<◌, ◌^◌, ℕ, All, IfErr, IfOk, IsErrOf, false, true, vec_len};
ghost use Rattle.rb_history.specs.RingModel.{IsRingSize, IsStartPosition, IsWorkerCount};
ghost use Rattle.rb_workers.specs.Rest.{LeavesNothing};
ghost use Rattle.rb_stream.specs.Refusals.{has_other_length, has_unknown_ring};
ghost use Rattle.rb_stream.specs.Streamed.{EndsSource};
ghost use Rattle.rb_waiting.specs.NoneRefused.{RefusesNoRecord, StaysLow};
ghost use Rattle.rb_waiting.specs.declared.plan.SmallRing.{SmallRing as SmallRingValue};
ghost use Rattle.rb_service.specs.Faults.{IsRightFault, IsTooSmallFor};
ghost use Rattle.rb_service.specs.Rings.{IsFirstWrong};
ghost use Rattle.rb_service.specs.Service.{Serves};
ghost use Rattle.rb_service.specs.declared.service.ServiceFault.TheVariants.{ContextLength, FewerRings, Memory, NoRing, Size, TooSmall, UnknownRing, Workers};

use crate::opened_run::run_opened;
use crate::rings::{PlanFault, RingPlan, check_plans, open_rings};
use rb_source::Source;
use rb_stream::{Late, StreamReport};
use rb_stream_worker::LiveCounts;
use rb_verifier::Verified;
use rb_waiting::SmallRing;
use rb_workers::Sink;
use std::alloc::Global;
use std::sync::Wait;
use std::thread::Threads;
use thiserror::Error;

/// What happens to records that do not fit in a ring.
#[derive(Clone, Copy, Debug, PartialEq, Eq)]
pub enum Full {
    /// No such records exist: before a worker runs a batch of contexts, it waits until every ring has room for all of
    /// their records.
    Wait,
    /// The ring refuses them.
    Refuse,
}

/// How a service runs its programs.
#[derive(Clone, Copy, Debug, PartialEq, Eq)]
pub struct ServiceRequest {
    /// The number of workers: 1 to 256.
    pub workers: u32,
    /// What happens to contexts when the queues of all workers are full.
    pub late: Late,
    /// What happens to records that do not fit in a ring.
    pub full: Full,
    /// Results below this bound are counted individually.
    pub results: u32,
}

/// Why a service has no report.
#[derive(Clone, Copy, Debug, PartialEq, Eq, Error)]
pub enum ServiceFault {
    /// The ring with this number has a size that is not a power of two from 4,096 to 67,108,864. Nothing was read.
    #[error("size of ring {0}")]
    Size(usize),
    /// The number of workers is not 1 to 256. Nothing was read.
    #[error("workers")]
    Workers,
    /// A program was verified for more rings than there are. Nothing was read.
    #[error("a program knows more rings than there are")]
    UnknownRing,
    /// A program was verified for contexts of another length than the source's. Nothing was read.
    #[error("a program takes contexts of another length")]
    ContextLength,
    /// There is no ring. Nothing was read.
    #[error("there is no ring")]
    NoRing,
    /// Workers are to wait for room, and a program was verified for fewer rings than there are. Nothing was read.
    #[error("a program knows fewer rings than there are")]
    FewerRings,
    /// Workers are to wait for room, and a ring has no room for one context of every worker. Nothing was read.
    #[error("a ring is too small for one context of every worker")]
    TooSmall(SmallRing),
    /// Memory to start or to continue could not be allocated.
    #[error("memory")]
    Memory,
}

/// Opens a ring for each plan, at the position of its sink, runs every program on each context of the source, and closes
/// the rings once the source has ended or failed. Each ring's records go to its sink. Every context that the source gave was run
/// by every program or dropped. Workers publish their counts in `live` while they run.
///
/// If workers wait for room, no seat and no history of a ring has a refusal, provided that the ring's producer position
/// stays at least the ring's size below 2^62 (`Closing::producer` returns it).
///
/// # Errors
///
/// Returns `Size` for the first ring whose size is wrong, or else `Workers`, before any ring is opened. If workers wait
/// for room, returns `FewerRings`, or else `TooSmall` for the first ring that has no room for one context of every
/// worker. Returns `UnknownRing`, `ContextLength` and `NoRing`, in this order, before anything is read. Returns `Memory`
/// if memory to start or to continue can't be allocated; what was written to the sinks is lost.
pub fn serve<T: Threads + Wait + Sync, I: Source + Send, S: Sink + Send + Drop>(
    rt: &T,
    alloc: Global,
    programs: &[Verified],
    source: &mut I,
    plans: Vec<RingPlan<S>>,
    request: ServiceRequest,
    live: &LiveCounts,
) -> Result<StreamReport<S>, ServiceFault>
    requires begins { All (λ p. IsStartPosition (S.position_of p.sink)) plans.items }
    ensures size { (number : ℕ) → IsErrOf result (Size number) ↔ IsFirstWrong plans.items number }
    ensures workers { IsErrOf result Workers ↔ (All (λ p. IsRingSize p.size) plans.items × ¬ IsWorkerCount request.workers) }
    ensures unknown_ring { IsErrOf result UnknownRing → has_unknown_ring (vec_len plans) programs.now ≡ true }
    ensures context_length { IsErrOf result ContextLength → (has_unknown_ring (vec_len plans) programs.now ≡ false) × (has_other_length (I.ctx_len_of source.old) programs.now ≡ true) }
    ensures fewer_rings { IsErrOf result FewerRings → (request.full ≡ Full.Wait) × ¬ All (λ p. vec_len plans ≤ p.rings) programs.now }
    ensures too_small { (small : SmallRingValue) → IsErrOf result (TooSmall small) → (request.full ≡ Full.Wait) × IsTooSmallFor S.position_of request.workers plans.items programs.now small }
    ensures nothing_read { IfErr result (λ fault. fault ≢ Memory → source.new ≡ source.old) }
    ensures served { IfOk result (Serves S.position_of S.takes I.gives plans.items programs.now request source.old source.new) }
    ensures none_refused { IfOk result (λ r. request.full ≡ Full.Wait → All StaysLow r.rings.items → All RefusesNoRecord r.rings.items) }
    ensures end { IfOk result (λ r. EndsSource I.is_over I.fails source.new r.end) }
    ensures adds_up { IfOk result (λ r. r.contexts < 2 ^ 64 - 1 → r.contexts ≡ r.ran + r.dropped) }
    ensures no_strays { IfOk result (λ r. r.strays ≡ 0) }
    ensures nothing_left { IfOk result (λ r. All LeavesNothing r.rings.items) }
{
    match check_plans(plans.as_slice(), request.workers) {
        Ok(()) => serve_planned(rt, alloc, programs, source, plans, request, live),
        Err(PlanFault::Size(number)) => Err(ServiceFault::Size(number)),
        Err(PlanFault::Workers) => Err(ServiceFault::Workers),
    }
}

// Serves over rings whose sizes and number of workers are right.
fn serve_planned<T: Threads + Wait + Sync, I: Source + Send, S: Sink + Send + Drop>(
    rt: &T,
    alloc: Global,
    programs: &[Verified],
    source: &mut I,
    plans: Vec<RingPlan<S>>,
    request: ServiceRequest,
    live: &LiveCounts,
) -> Result<StreamReport<S>, ServiceFault>
    requires begins { All (λ p. IsStartPosition (S.position_of p.sink)) plans.items }
    requires sizes { All (λ p. IsRingSize p.size) plans.items }
    requires workers { IsWorkerCount request.workers }
    ensures fault { IfErr result (IsRightFault (vec_len plans) programs.now (I.ctx_len_of source.old) request.full (IsTooSmallFor S.position_of request.workers plans.items programs.now)) }
    ensures nothing_read { IfErr result (λ fault. fault ≢ Memory → source.new ≡ source.old) }
    ensures served { IfOk result (Serves S.position_of S.takes I.gives plans.items programs.now request source.old source.new) }
    ensures none_refused { IfOk result (λ r. request.full ≡ Full.Wait → All StaysLow r.rings.items → All RefusesNoRecord r.rings.items) }
    ensures end { IfOk result (λ r. EndsSource I.is_over I.fails source.new r.end) }
    ensures adds_up { IfOk result (λ r. r.contexts < 2 ^ 64 - 1 → r.contexts ≡ r.ran + r.dropped) }
    ensures no_strays { IfOk result (λ r. r.strays ≡ 0) }
    ensures nothing_left { IfOk result (λ r. All LeavesNothing r.rings.items) }
{
    let Ok(opened) = open_rings(rt, alloc, plans, request.workers) else {
        return Err(ServiceFault::Memory);
    };
    match run_opened(rt, alloc, programs, source, opened, request, live) {
        Ok(report) => Ok(report),
        Err(fault) => Err(fault),
    }
}
