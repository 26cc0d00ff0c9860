//! The check of a program's shape.

ghost use Rattle.std.specs.Prelude.{◌≡◌, ◌⊎◌, ◌↔◌, Some, IsTrue, IsOk, OnOk, IfOk, IfErr, MatchOption};
ghost use Rattle.rb_program.specs.Program.{slot_at};
ghost use Rattle.rb_program.specs.Edges.{IsReached};
ghost use Rattle.rb_program.specs.ShapeFaults.{IsFirstFaultHere, IsFirstShapeFault, HasNoFault, JumpsBack, shape_no_memory};
ghost use Rattle.rb_program.specs.inner.Reach.{MarksReached};
ghost use Rattle.rb_program.specs.Shape.{IsWellShaped};

use crate::Program;
use crate::edges::{distance, jump_target, next_unit};
use crate::reach::reached_units;
use crate::shape_fault::{ShapeFault, ShapeFaultKind};
use crate::shape_type::Shape;
use rb_insn::Insn;
use std::alloc::Global;

/// Returns the shape of a program, or its first fault: the first kind at the lowest unit that has a fault.
///
/// A failed allocation may replace either result. Visits each unit at most twice, so time and memory are linear in the
/// number of units.
pub fn shape(alloc: Global, program: Program) -> Result<Shape, ShapeFault>
    // A returned shape is that of this program, which has no fault, and a program without a fault is accepted.
    ensures same_program { IfOk result (λ shape. shape ≡ program) }
    ensures well_shaped { OnOk result (IsWellShaped program) }
    ensures accepts { IsWellShaped program → IsOk result ⊎ (result ≡ Err shape_no_memory) }

    // A returned fault is the first one, and if the program has a first fault, it is returned.
    ensures fault { IfErr result (λ fault. (fault ≡ shape_no_memory) ⊎ IsFirstShapeFault program fault) }
    ensures only_fault { (fault : ShapeFault) → IsFirstShapeFault program fault → (result ≡ Err fault) ⊎ (result ≡ Err shape_no_memory) }
{
    let marks = reached_units(alloc, &program)?;
    match first_fault(&program, &marks) {
        Some(fault) => Err(fault),
        None => Ok(Shape::new(program)),
    }
}

/// Returns the first fault of a program, if it has one, given the marks of the reachable units.
fn first_fault(program: &Program, marks: &[bool]) -> Option<ShapeFault>
    requires { MarksReached program.now marks.now }
    ensures { MatchOption result (IsWellShaped program.now) (IsFirstShapeFault program.now) }
{
    for unit in 0..program.units() {
        if let Some(insn) = program.at(unit) {
            if let Some(kind) = fault_at(program, unit, insn, marks) {
                return Some(ShapeFault { unit, kind });
            }
        }
    }
    None
}

/// Returns the first fault at an instruction, if it has one.
fn fault_at(program: &Program, unit: u32, insn: &Insn, marks: &[bool]) -> Option<ShapeFaultKind>
    requires begins { slot_at program.now unit ≡ Some insn.now }
    requires marks { MarksReached program.now marks.now }
    ensures { MatchOption result (HasNoFault program.now unit × IsReached program.now unit) (IsFirstFaultHere program.now unit) }
{
    program.facts();
    if jumps_back(insn) {
        return Some(ShapeFaultKind::Backward);
    }
    if let Some(target) = jump_target(unit, insn) {
        if target >= program.units() {
            return Some(ShapeFaultKind::OutOfProgram);
        }
        if program.at(target).is_none() {
            return Some(ShapeFaultKind::IntoWide);
        }
    }
    if let Some(next) = next_unit(unit, insn) {
        if next >= program.units() {
            return Some(ShapeFaultKind::FallsOff);
        }
    }
    if !marks[unit as usize] {
        return Some(ShapeFaultKind::Unreachable);
    }
    None
}

/// Returns whether the instruction jumps by a negative distance.
fn jumps_back(insn: &Insn) -> bool
    ensures { IsTrue result ↔ JumpsBack insn.now }
{
    match distance(insn) {
        Some(distance) => distance < 0,
        None => false,
    }
}
