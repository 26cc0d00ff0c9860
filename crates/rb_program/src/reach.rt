//! The units that are reachable from the first one.

ghost use Rattle.std.specs.Prelude.{◌≡◌, ◌+◌, ◌*◌, ◌<◌, ◌≤◌, ◌++◌, [], ◌∷◌, length, OnOk, IfOk};
ghost use Rattle.rb_program.specs.Program.{unit_count};
ghost use Rattle.rb_program.specs.inner.Reach.{Marks, MarksReached, Search, unmarked};

use crate::Program;
use crate::edges::{jump_target, next_unit};
use std::alloc::{AllocError, Global};

/// Returns a mark for each unit: whether a path leads to it from unit 0, by edges in both directions.
///
/// Visits each unit at most once, so time and memory are linear in the number of units.
pub(crate) fn reached_units(alloc: Global, program: &Program) -> Result<Vec<bool>, AllocError>
    ensures { IfOk result (λ marks. MarksReached program.now marks.items) }
{
    let mut marks = vec![in alloc; false; program.units() as usize]?;
    let mut waiting = Vec::new(alloc);
    mark(&mut marks, &mut waiting, Some(0))?;
    while let Some(unit) = waiting.pop() {
        visit(program, unit, &mut marks, &mut waiting)?;
    }
    Ok(marks)
}

/// Does one step of the search: marks the targets of the edges out of `unit`.
fn visit(
    program: &Program,
    unit: u32,
    marks: &mut Vec<bool>,
    waiting: &mut Vec<u32>,
) -> Result<(), AllocError>
    requires { Search program.now marks.old.items (waiting.old.items ++ unit ∷ []) }
    ensures search { OnOk result (Search program.now marks.new.items waiting.new.items) }
    ensures work { OnOk result
        (length waiting.new.items + 2 * unmarked marks.new.items ≤ length waiting.old.items + 2 * unmarked marks.old.items) }
{
    program.facts();
    if let Some(insn) = program.at(unit) {
        mark(marks, waiting, next_unit(unit, insn))?;
        mark(marks, waiting, jump_target(unit, insn))?;
    }
    Ok(())
}

/// Marks `unit` and queues it, if it exists and is not marked yet.
fn mark(marks: &mut Vec<bool>, waiting: &mut Vec<u32>, unit: Option<u32>) -> Result<(), AllocError>
    ensures { OnOk result (Marks unit marks.old.items waiting.old.items marks.new.items waiting.new.items) }
{
    if let Some(unit) = unit {
        let index = unit as usize;
        if index < marks.len() && !marks[index] {
            waiting.push(unit)?;
            marks[index] = true;
        }
    }
    Ok(())
}
