//! The export that computes the maximal cost of a program.

ghost use Rattle.std.specs.Prelude.{◌≡◌, ◌≢◌, ◌≤◌, ◌↔◌, length, map};
ghost use Rattle.rb_cost.specs.Cost.{IsCost};
ghost use Rattle.heskavo_c.specs.Costs.{TellsCost, ring_row};
ghost use Rattle.heskavo_c.specs.Verdicts.{AreBounds, IsRightVerdict};

use crate::load::{are_bounds, load};
use crate::status::{ARGUMENT, DONE, MEMORY, REFUSED};
use crate::verdict::{Verdict, verdict_on};
use rb_cost::{Cost, RingCost, cost_of};
use rb_verifier::Verified;
use std::alloc::Global;

/// The maximal cost of a program.
#[repr(C)]
#[derive(Clone, Copy)]
pub struct ProgramCost {
    /// The maximal number of instructions that a path executes.
    pub steps: u64,
    /// The maximal number of helper calls that a path makes.
    pub calls: u64,
}

/// The maximal number of records and bytes that a program requests from one ring, and that it holds there.
#[repr(C)]
#[derive(Clone, Copy)]
pub struct ProgramRingCost {
    /// The maximal number of records that a path requests, by reserve and by output.
    pub records: u64,
    /// The maximal number of bytes of the ring that the records of a path occupy.
    pub bytes: u64,
    /// The maximal number of reservations that are held before an instruction.
    pub held_records: u64,
    /// The maximal number of bytes of the ring that the reservations occupy which are held before an instruction.
    pub held_bytes: u64,
}

// Returns the cost of the whole program, as it is passed to C.
fn total_of(cost: &Cost) -> ProgramCost
    ensures steps { result.steps ≡ cost.now.steps }
    ensures calls { result.calls ≡ cost.now.calls }
{
    ProgramCost {
        steps: cost.steps,
        calls: cost.calls,
    }
}

// Returns the cost at one ring, as it is passed to C.
fn row_of(cost: RingCost) -> ProgramRingCost
    ensures { result ≡ ring_row cost }
{
    ProgramRingCost {
        records: cost.records,
        bytes: cost.bytes,
        held_records: cost.held_records,
        held_bytes: cost.held_bytes,
    }
}

// Writes the cost at each ring to the caller's elements.
fn put_rows(rows: &mut [ProgramRingCost], costs: &[RingCost])
    requires { length rows.old ≡ length costs.now }
    ensures { rows.new ≡ map ring_row costs.now }
{
    for (ring, cost) in costs.iter().enumerate() {
        rows[ring] = row_of(*cost);
    }
}

#[unsafe(no_mangle)]
/// Computes the maximal cost of a program, over all paths along its jumps, for a context of `ctx_len` bytes and as many
/// rings as `rings` has elements. Nothing is run.
///
/// Returns `DONE` with the steps and calls in `cost`, and with what the program requests from each ring and holds of it
/// in `rings`. Returns `REFUSED` with the verdict. Returns `ARGUMENT` if the context is longer than 65,536 bytes or
/// there are more than 16 rings.
///
/// Takes time and memory linear in the program for each ring.
pub extern "C" fn heskavo_cost(
    alloc: Global,
    program: &[u8],
    ctx_len: u32,
    cost: &mut ProgramCost,
    rings: &mut [ProgramRingCost],
    verdict: &mut Verdict,
) -> u32
    ensures told { result ≡ DONE → TellsCost program.now ctx_len (length rings.old) cost.new rings.new }
    ensures refused { result ≡ REFUSED → IsRightVerdict program.now ctx_len (length rings.old) verdict.new }
    ensures argument { (result ≡ ARGUMENT) ↔ ¬ AreBounds ctx_len (length rings.old) }
    ensures untold { result ≢ DONE → (cost.new ≡ cost.old) × (rings.new ≡ rings.old) }
    ensures unchanged { result ≢ REFUSED → verdict.new ≡ verdict.old }
    ensures answers { result ≤ MEMORY }
{
    if rings.len() > 16 || !are_bounds(ctx_len, rings.len() as u32) {
        return ARGUMENT;
    }
    let verified = match load(alloc, program, ctx_len, rings.len() as u32) {
        Ok(verified) => verified,
        Err(Some(refused)) => {
            *verdict = verdict_on(refused);
            return REFUSED;
        }
        Err(None) => return MEMORY,
    };
    verified.facts();
    let Ok(found) = cost_of(alloc, &verified) else {
        return MEMORY;
    };
    put_rows(rings, found.rings.as_slice());
    *cost = total_of(&found);
    DONE
}
