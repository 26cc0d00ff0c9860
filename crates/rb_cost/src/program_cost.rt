//! Computing the cost of a verified program.

ghost use Rattle.std.specs.Prelude.{◌≡◌, ◌<◌, ◌≤◌, ◌^◌, ℕ, IfOk, length};
ghost use Rattle.rb_program.specs.Program.{unit_count};
ghost use Rattle.rb_program.specs.Shape.{IsWellShaped};
ghost use Rattle.rb_verifier.specs.Annotation.{state_at};
ghost use Rattle.rb_cost.specs.Requests.{asked_at};
ghost use Rattle.rb_cost.specs.Cost.{IsCost, IsCostUnder, IsRingCost};
ghost use Rattle.rb_cost.specs.Paths.{IsMost, IsPath};
ghost use Rattle.rb_cost.specs.inner.Pass.{IsSmall, total, weight_at};

use crate::cost::{Cost, RingCost};
use crate::holdings::most_held;
use crate::pass::most_on_path;
use crate::path_quantity::Quantity;
use rb_program::Program;
use rb_verifier::{AbsState, Verified};
use std::alloc::{AllocError, Global};

/// Returns the maximal number of bytes of a ring that a path requests, given the maximal number of records. If no path
/// requests a record, it is 0, which saves a pass.
fn most_bytes(
    alloc: Global,
    program: &Program,
    states: &[AbsState],
    ring: u32,
    records: u64,
) -> Result<u64, AllocError>
    requires count { length states.now ≡ unit_count program.now }
    requires well_shaped { IsWellShaped program.now }
    requires small { (unit : ℕ) → IsSmall (asked_at program.now (state_at states.now) unit) }
    requires records { IsMost (IsPath program.now) (total (weight_at (Quantity.Records ring) program.now (state_at states.now))) records }
    ensures { IfOk result (λ bytes. IsMost (IsPath program.now) (total (weight_at (Quantity.Bytes ring) program.now (state_at states.now))) bytes) }
{
    if records == 0 {
        return Ok(0);
    }
    most_on_path(alloc, program, states, Quantity::Bytes(ring))
}

/// Returns the cost of a program at one ring.
fn ring_cost(
    alloc: Global,
    program: &Program,
    states: &[AbsState],
    ring: u32,
) -> Result<RingCost, AllocError>
    requires count { length states.now ≡ unit_count program.now }
    requires well_shaped { IsWellShaped program.now }
    requires small { (unit : ℕ) → IsSmall (asked_at program.now (state_at states.now) unit) }
    ensures { IfOk result (IsRingCost program.now (state_at states.now) ring) }
{
    program.facts();
    let records = most_on_path(alloc, program, states, Quantity::Records(ring))?;
    let bytes = most_bytes(alloc, program, states, ring, records)?;
    let held = most_held(program, states, ring);
    Ok(RingCost {
        records,
        bytes,
        held_records: held.records,
        held_bytes: held.bytes,
    })
}

/// Returns the cost by the abstract states of an annotation.
fn cost_under(
    alloc: Global,
    program: &Program,
    states: &[AbsState],
    rings: u32,
) -> Result<Cost, AllocError>
    requires count { length states.now ≡ unit_count program.now }
    requires well_shaped { IsWellShaped program.now }
    requires small { (unit : ℕ) → IsSmall (asked_at program.now (state_at states.now) unit) }
    ensures { IfOk result (IsCostUnder program.now (state_at states.now) rings) }
{
    let mut costs = Vec::with_capacity(alloc, rings as usize)?;
    for ring in 0..rings {
        costs.push(ring_cost(alloc, program, states, ring)?)?;
    }
    Ok(Cost {
        steps: most_on_path(alloc, program, states, Quantity::Steps)?,
        calls: most_on_path(alloc, program, states, Quantity::Calls)?,
        rings: costs,
    })
}

/// Returns the maximal cost of a verified program: the most instructions and calls on a path; and for each ring the
/// most records and bytes that the calls of a path request, and the most that are held before an instruction. No number
/// can exceed 2^64, because a path has at most 4,096 units and a record at most 67,108,864 bytes. Returns `Err` if an
/// allocation fails.
///
/// Makes two passes over the program, and for each ring that it uses two more, or three if it requests a record there.
/// A pass allocates eight bytes for each unit and frees them.
pub fn cost_of(alloc: Global, verified: &Verified) -> Result<Cost, AllocError>
    ensures { IfOk result (IsCost verified.now) }
{
    verified.facts();
    cost_under(
        alloc,
        verified.program(),
        verified.states(),
        verified.rings(),
    )
}
