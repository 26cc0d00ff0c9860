//! Opens the rings of a service.

ghost use Rattle.std.specs.Prelude.{◌↔◌, ℕ, All, IfOk, IsErrOf, OnOk};
ghost use Rattle.std.specs.List.{AllZip};
ghost use Rattle.rb_history.specs.RingModel.{IsRingSize, IsStartPosition, IsWorkerCount};
ghost use Rattle.rb_workers.specs.Opened.{IsOpened};
ghost use Rattle.rb_service.specs.Rings.{IsFirstWrong, IsFreshFor};
ghost use Rattle.rb_service.specs.declared.rings.PlanFault.TheVariants.{Size as WrongSize, Workers as WrongWorkers};

use rb_history::{is_size, is_worker_count};
use rb_shared_ring::OpenFault;
use rb_workers::{Opened, Sink, chapter_margin, chapter_room};
use std::alloc::{AllocError, Global};
use std::sync::Wait;

/// A ring that is opened later: its size in bytes, and the sink that takes its records.
#[derive(Drop)]
pub struct RingPlan<S> {
    /// The ring's size in bytes.
    pub size: u64,
    /// The sink that takes its records.
    pub sink: S,
}

/// Why rings can't be opened as planned.
#[derive(Clone, Copy, Debug, PartialEq, Eq)]
pub(crate) enum PlanFault {
    /// The ring with this number is the first whose size is wrong.
    Size(usize),
    /// The number of workers is not 1 to 256, and all sizes are right.
    Workers,
}

/// Returns the first fault of the plans: the number of the first ring whose size is wrong, and otherwise that the
/// number of workers is.
pub(crate) fn check_plans<S>(plans: &[RingPlan<S>], workers: u32) -> Result<(), PlanFault>
    ensures size { (number : ℕ) → IsErrOf result (WrongSize number) ↔ IsFirstWrong plans.now number }
    ensures workers { IsErrOf result WrongWorkers ↔ (All (λ p. IsRingSize p.size) plans.now × ¬ IsWorkerCount workers) }
    ensures allowed { OnOk result (All (λ p. IsRingSize p.size) plans.now × IsWorkerCount workers) }
{
    for number in 0..plans.len() {
        if !is_size(plans[number].size) {
            return Err(PlanFault::Size(number));
        }
    }
    if !is_worker_count(workers) {
        return Err(PlanFault::Workers);
    }
    Ok(())
}

// Opens the ring with this number at the position of its sink.
fn open_ring<T: Wait, S: Sink + Drop>(
    rt: &T,
    alloc: Global,
    number: u64,
    plan: RingPlan<S>,
    workers: u32,
) -> Result<Opened<S>, AllocError>
    requires begins { IsStartPosition (S.position_of plan.sink) }
    requires size { IsRingSize plan.size }
    requires workers { IsWorkerCount workers }
    ensures opened { IfOk result (IsOpened S.position_of workers) }
    ensures fresh { IfOk result (IsFreshFor S.position_of workers plan) }
{
    let RingPlan { size, sink } = plan;
    let start = sink.position();
    let (room, margin) = (chapter_room(size), chapter_margin(size));
    match Opened::open(rt, alloc, number, size, start, workers, room, margin, sink) {
        Ok(one) => Ok(one),
        Err(OpenFault::Memory) => Err(AllocError),
        Err(OpenFault::Size) => unreachable!(),
        Err(OpenFault::Start) => unreachable!(),
        Err(OpenFault::Workers) => unreachable!(),
        Err(OpenFault::Chapter) => unreachable!(),
    }
}

/// Opens a ring for each plan, at the position of its sink and with this number of workers. Fails only if memory can't be
/// allocated.
pub(crate) fn open_rings<T: Wait, S: Sink + Drop>(
    rt: &T,
    alloc: Global,
    plans: Vec<RingPlan<S>>,
    workers: u32,
) -> Result<Vec<Opened<S>>, AllocError>
    requires begins { All (λ p. IsStartPosition (S.position_of p.sink)) plans.items }
    requires sizes { All (λ p. IsRingSize p.size) plans.items }
    requires workers { IsWorkerCount workers }
    ensures opened { IfOk result (λ opened. All (IsOpened S.position_of workers) opened.items) }
    ensures fresh { IfOk result (λ opened. AllZip (IsFreshFor S.position_of workers) plans.items opened.items) }
{
    let mut opened = Vec::new(alloc);
    for plan in plans {
        let number = opened.len() as u64;
        let one = open_ring(rt, alloc, number, plan, workers)?;
        opened.reserve(1)?;
        opened.push_reserved(one);
    }
    Ok(opened)
}
