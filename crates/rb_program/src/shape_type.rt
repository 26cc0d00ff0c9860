//! The type of well-shaped programs.

use crate::Program;
use std::marker::Model;

/// A well-shaped program. Contracts see the program itself.
#[derive(Debug, Drop)]
pub struct Shape {
    program: Program,
}

impl Model for Shape {
    ghost use Rattle.std.specs.Prelude.{List};
    ghost use Rattle.rb_insn.specs.declared.insn.Insn.{Insn};
    ghost use Rattle.rb_program.specs.Shape.{IsWellShaped};

    ghost Value = { List Insn };

    ghost view = { λ s. s.program };

    ghost invariant = { λ s. IsWellShaped s.program };
}

impl Shape {
    ghost use Rattle.std.specs.Prelude.{◌≡◌};
    ghost use Rattle.rb_program.specs.Program.{IsProgram, IsLaidOut};
    ghost use Rattle.rb_program.specs.Shape.{AllIsReached, IsInstructionStart, EachIsEntered, EdgesLeadForward, IsWellShaped, JumpsLand, NothingFallsOff};

    /// Creates the shape of a program without a fault.
    pub(crate) fn new(program: Program) -> Self
        requires { IsWellShaped program }
        ensures { result ≡ program }
    {
        Shape { program }
    }

    /// Returns the program.
    pub fn program(&self) -> &Program
        ensures { result.now ≡ self.now }
    {
        &self.program
    }

    /// States the invariant of every well-shaped program: it has no fault; its edges lead forward, to instructions;
    /// each instruction is reachable; none falls off the end; each jump has a target; and each instruction but the
    /// first, at unit 0, is entered from an earlier one.
    ///
    /// For the proofs of callers; it does nothing at run time.
    pub fn facts(&self)
        ensures well_shaped { IsWellShaped self.now }
        ensures forward { EdgesLeadForward self.now }
        ensures reached { AllIsReached self.now }
        ensures no_fall { NothingFallsOff self.now }
        ensures landing { JumpsLand self.now }
        ensures first { IsInstructionStart self.now 0 }
        ensures entered { EachIsEntered self.now }
    {
        self.program.facts();
    }
}
