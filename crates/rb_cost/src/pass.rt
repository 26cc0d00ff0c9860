//! A pass over a program in unit order, which computes the maximum over all paths.

ghost use Rattle.std.specs.Prelude.{◌≡◌, ◌+◌, ◌*◌, ◌<◌, ◌≤◌, ◌^◌, ℕ, Some, IfOk, length, vec_len};
ghost use Rattle.rb_insn.specs.declared.insn.Insn.{Insn};
ghost use Rattle.rb_program.specs.Program.{unit_count, slot_at};
ghost use Rattle.rb_program.specs.Shape.{IsWellShaped};
ghost use Rattle.rb_verifier.specs.Annotation.{state_at};
ghost use Rattle.rb_cost.specs.Paths.{IsPath, IsMost};
ghost use Rattle.rb_cost.specs.Requests.{asked_at};
ghost use Rattle.rb_cost.specs.inner.Pass.{IsSmall, Raises, Progress, weight_at, total};

use crate::path_quantity::Quantity;
use crate::requested_record::weight;
use rb_insn::Insn;
use rb_program::{Program, jump_target, next_unit};
use rb_verifier::AbsState;
use std::alloc::{AllocError, Global};

#[inline(always)]
/// Raises the maximum at the unit to which an edge leads to `n`, if there is such a unit and its maximum was lower.
fn raise(before: &mut Vec<u64>, target: Option<u32>, n: u64)
    requires { (to : ℕ) → target ≡ Some to → to < vec_len before.old }
    ensures { Raises target n before.old.items before.new.items }
{
    if let Some(to) = target {
        let unit = to as usize;
        if before[unit] < n {
            before[unit] = n;
        }
    }
}

/// The state of the pass.
#[derive(Drop)]
struct Pass {
    /// For each unit, the maximum over the paths that lead to it, without the unit itself.
    before: Vec<u64>,
    /// The maximum over all paths so far.
    most: u64,
}

/// Visits an instruction: computes the maximum over the paths that end with it, and propagates it along the
/// instruction's edges.
fn visit(
    program: &Program,
    states: &[AbsState],
    counted: Quantity,
    unit: u32,
    insn: &Insn,
    pass: &mut Pass,
)
    requires begins { slot_at program.now unit ≡ Some insn.now }
    requires inside { unit < length states.now }
    requires well_shaped { IsWellShaped program.now }
    requires small { IsSmall (asked_at program.now (state_at states.now) unit) }
    requires progress { Progress program.now (weight_at counted program.now (state_at states.now)) pass.old.before.items pass.old.most unit }
    ensures { Progress program.now (weight_at counted program.now (state_at states.now)) pass.new.before.items pass.new.most (unit + 1) }
{
    program.facts();
    let total = pass.before[unit as usize] + weight(counted, insn, &states[unit as usize]);
    raise(&mut pass.before, jump_target(unit, insn), total);
    raise(&mut pass.before, next_unit(unit, insn), total);
    pass.most = pass.most.max(total);
}

/// Returns the maximum of a counted quantity over the paths of the program. Makes one pass in unit order, which
/// allocates eight bytes for each unit.
pub(crate) fn most_on_path(
    alloc: Global,
    program: &Program,
    states: &[AbsState],
    counted: Quantity,
) -> Result<u64, AllocError>
    requires count { length states.now ≡ unit_count program.now }
    requires well_shaped { IsWellShaped program.now }
    requires small { (unit : ℕ) → IsSmall (asked_at program.now (state_at states.now) unit) }
    ensures { IfOk result (λ most. IsMost (IsPath program.now) (total (weight_at counted program.now (state_at states.now))) most) }
{
    program.facts();
    let units = program.units();
    let before = vec![in alloc; 0; units as usize]?;
    let mut pass = Pass { before, most: 0 };
    for unit in 0..units {
        if let Some(insn) = program.at(unit) {
            visit(program, states, counted, unit, insn, &mut pass);
        }
    }
    Ok(pass.most)
}
