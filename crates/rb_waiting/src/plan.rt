//! The number of contexts of a turn, and the number of untaken bytes with which it may begin.

ghost use Rattle.std.specs.Prelude.{◌≡◌, ◌↔◌, ◌+◌, ◌*◌, ◌<◌, ◌≤◌, ℕ, All, IfErr, IfOk, IsErrOf, IsTrue, false, length, slice_index_or, true, vec_len};
ghost use Rattle.rb_cost.specs.RingSize.{least_ring};
ghost use Rattle.rb_run_cost.specs.CallCosts.{IsVerified};
ghost use Rattle.rb_waiting.specs.Faults.{IsFirstTooSmall};
ghost use Rattle.rb_waiting.specs.Plans.{IsLongest, IsPlan};
ghost use Rattle.rb_waiting.specs.inner.Sums.{AddsCost, AreLongest, AreSums, FitsTurns, IsFirstSmall};
ghost use Rattle.rb_waiting.specs.declared.plan.SmallRing.{SmallRing};
ghost use Rattle.rb_waiting.specs.declared.plan.TurnFault.TheVariants.{FewerRings, TooSmall};

use rb_cost::{Cost, contexts_at_once, cost_of, least_ring};
use rb_stream_worker::Turns;
use rb_verifier::Verified;
use rb_workers::Opened;
use std::alloc::{AllocError, Global};
use thiserror::Error;

/// Why there is no plan.
#[derive(Clone, Copy, Debug, PartialEq, Eq, Error)]
pub enum TurnFault {
    /// A program was verified for fewer rings than there are.
    #[error("a program knows fewer rings than there are")]
    FewerRings,
    /// A ring is too small for one context of every worker.
    #[error("a ring is too small for one context of every worker")]
    TooSmall(SmallRing),
    /// The plan could not be allocated.
    #[error("out of memory")]
    Memory,
}

/// A ring that is too small for one context of every worker.
#[derive(Clone, Copy, Debug, PartialEq, Eq)]
pub struct SmallRing {
    /// The ring's index among the rings.
    pub ring: usize,
    /// The smallest size that is enough, if there is one.
    pub least: Option<u64>,
}

// The longest turn.
const MOST_CONTEXTS: u32 = 16;

// The law about each verified program. The function does nothing; its contract is the law.
fn is_verified(program: &Verified)
    ensures { IsVerified program.now }
{
    program.facts();
    program.program().facts();
}

// Whether a program was verified for at least `rings` rings.
fn knows(program: &Verified, rings: usize) -> bool
    ensures value { IsTrue result ↔ (rings ≤ program.now.rings) }
{
    program.rings() as usize >= rings
}

// Whether each program was verified for at least `rings` rings.
fn all_know(programs: &[Verified], rings: usize) -> bool
    ensures known { result ≡ true → All (λ p. rings ≤ p.rings) programs.now }
    ensures unknown { result ≡ false → ¬ All (λ p. rings ≤ p.rings) programs.now }
    ensures verified { result ≡ true → All IsVerified programs.now }
{
    for program in programs {
        is_verified(program);
        if !knows(program, rings) {
            return false;
        }
    }
    true
}

// Adds what a program of this cost can request from each ring.
fn add_cost(sums: &mut [u64], cost: &Cost)
    requires rings { length sums.old ≤ length cost.now.rings.items }
    ensures added { AddsCost cost.now sums.old sums.new }
{
    for at in 0..sums.len() {
        sums[at] = sums[at].saturating_add(cost.rings[at].bytes);
    }
}

// Returns, for each ring, what all programs together can request from it for one context. Each sum saturates at
// `u64::MAX`.
fn sum_costs(alloc: Global, programs: &[Verified], rings: usize) -> Result<Vec<u64>, AllocError>
    requires known { All (λ p. rings ≤ p.rings) programs.now }
    ensures sums { IfOk result (λ v. AreSums programs.now rings v.items) }
{
    let mut sums = vec![in alloc; 0; rings]?;
    for program in programs {
        is_verified(program);
        let cost = cost_of(alloc, program)?;
        add_cost(sums.as_mut_slice(), &cost);
    }
    Ok(sums)
}

// Returns the size of the smallest ring that one context of every worker fits.
fn least_for(workers: u32, sum: u64) -> Option<u64>
    ensures { result ≡ least_ring (workers * sum) }
{
    least_ring(u128::from(workers) * u128::from(sum))
}

// Returns how many contexts a turn may have, so that each ring has room for a turn of every worker, or the first ring that is too small.
fn fit_turns<S>(opened: &[Opened<S>], sums: &[u64]) -> Result<u32, SmallRing>
    requires each { length sums.now ≡ length opened.now }
    ensures fits { IfOk result (λ n. FitsTurns opened.now sums.now n) }
    ensures longest { IfOk result (λ n. AreLongest opened.now sums.now (length opened.now) n) }
    ensures small { IfErr result (IsFirstSmall opened.now sums.now) }
{
    let mut contexts = MOST_CONTEXTS;
    for at in 0..opened.len() {
        let consumer = &opened[at].consumer;
        consumer.facts();
        let numbers = consumer.numbers();
        let most = match contexts_at_once(numbers.size, numbers.workers, sums[at]) {
            Some(most) => most,
            None => {
                let least = least_for(numbers.workers, sums[at]);
                return Err(SmallRing { ring: at, least });
            }
        };
        contexts = contexts.min(most);
    }
    Ok(contexts)
}

// Returns the maximal number of untaken bytes with which a ring has room for a turn of every worker.
fn limit_of(size: u64, workers: u32, contexts: u32, sum: u64) -> u64
    requires some { 1 ≤ workers }
    requires fits { workers * (contexts * sum) < size }
    ensures limit { result + workers * (contexts * sum) + 1 ≡ size }
{
    size - 1 - u64::from(workers) * (u64::from(contexts) * sum)
}

// Returns the limit of each ring.
fn limits_of<S>(
    alloc: Global,
    opened: &[Opened<S>],
    sums: &[u64],
    contexts: u32,
) -> Result<Vec<u64>, AllocError>
    requires each { length sums.now ≡ length opened.now }
    requires fits { FitsTurns opened.now sums.now contexts }
    ensures many { IfOk result (λ v. vec_len v ≡ length opened.now) }
    ensures limits { IfOk result (λ v. (k d s : ℕ) (o : _) → k < length opened.now → slice_index_or v.items k d + (slice_index_or opened.now k o).consumer.seen.setup.workers * (contexts * slice_index_or sums.now k s) + 1 ≡ (slice_index_or opened.now k o).consumer.seen.setup.size) }
{
    let mut limits = Vec::with_capacity(alloc, opened.len())?;
    for at in 0..opened.len() {
        opened[at].consumer.facts();
        let numbers = opened[at].consumer.numbers();
        limits.push_reserved(limit_of(numbers.size, numbers.workers, contexts, sums[at]));
    }
    Ok(limits)
}

/// Returns the turns for these programs and rings: how many contexts a turn has, and with how many untaken bytes in
/// each ring it may begin.
///
/// Before a turn there is room in each ring for a turn of every worker, whatever the programs do: for the cost
/// (`rb_cost`) of all programs together, over as many contexts as a turn has. A turn has 16 contexts, or fewer if a
/// ring is small.
///
/// # Errors
///
/// Returns `FewerRings` if a program was verified for fewer rings than there are, `TooSmall` for the first ring that
/// has no room for one context of every worker, with the smallest size that is enough, and `Memory` if the plan can't
/// be allocated. If no program was verified for fewer rings and no ring is too small, there is a plan unless memory is
/// lacking.
pub fn plan_turns<S>(
    alloc: Global,
    opened: &[Opened<S>],
    programs: &[Verified],
) -> Result<Turns, TurnFault>
    ensures planned { IfOk result (IsPlan opened.now programs.now) }
    ensures longest { IfOk result (λ turns. IsLongest opened.now programs.now turns.contexts) }
    ensures fewer_rings { IsErrOf result FewerRings ↔ ¬ All (λ p. length opened.now ≤ p.rings) programs.now }
    ensures too_small { (small : SmallRing) → IsErrOf result (TooSmall small) → IsFirstTooSmall opened.now programs.now small }
{
    if !all_know(programs, opened.len()) {
        return Err(TurnFault::FewerRings);
    }
    let Ok(sums) = sum_costs(alloc, programs, opened.len()) else {
        return Err(TurnFault::Memory);
    };
    let contexts = match fit_turns(opened, &sums) {
        Ok(contexts) => contexts,
        Err(small) => return Err(TurnFault::TooSmall(small)),
    };
    match limits_of(alloc, opened, &sums, contexts) {
        Ok(limits) => Ok(Turns { contexts, limits }),
        Err(_) => Err(TurnFault::Memory),
    }
}
