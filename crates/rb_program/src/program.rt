//! The type of programs.

ghost use Rattle.std.specs.Prelude.{◌≡◌};
ghost use Rattle.rb_program.specs.inner.WideUnits.{follows_wide as is_behind_wide_of};

use rb_insn::Insn;
use std::marker::Model;

/// The largest number of units in a program.
pub const MAX_UNITS: u32 = 4096;

/// A program: a list of instructions of 1 to 4096 units of 8 bytes in total.
///
/// Contracts see a program as the list of its instructions, in order.
#[derive(Debug, Drop)]
pub struct Program {
    /// The instruction that begins at each unit. The second unit of a wide instruction holds an EXIT that is never
    /// read, so each unit takes 16 bytes.
    units: Vec<Insn>,
}

impl Model for Program {
    ghost use Rattle.std.specs.Prelude.{List};
    ghost use Rattle.rb_insn.specs.declared.insn.Insn.{Insn};
    ghost use Rattle.rb_program.specs.DecodedUnits.{insns_kept, AreUnits};

    ghost Value = { List Insn };

    ghost view = { λ p. insns_kept p.units.items };

    ghost invariant = { λ p. AreUnits p.units.items };
}

/// Returns whether the instruction before `unit` is wide, so that `unit` is its second unit.
fn follows_wide(units: &[Insn], unit: usize) -> bool
    ensures { result ≡ is_behind_wide_of units.now unit }
{
    unit > 0 && unit <= units.len() && units[unit - 1].units() == 2
}

impl Program {
    ghost use Rattle.std.specs.Prelude.{◌≡◌, ◌≢◌, ◌≤◌, None, Some};
    ghost use Rattle.std.specs.Option.{option_copied};
    ghost use Rattle.std.specs.List.{AllByRecursion};
    ghost use Rattle.rb_insn.specs.Spelling.{FieldsFit};
    ghost use Rattle.rb_program.specs.Program.{unit_count, slot_at, IsProgram, IsLaidOut};
    ghost use Rattle.rb_program.specs.DecodedUnits.{insns_kept, AreUnits};

    /// Creates a program from its units.
    pub(crate) fn from_units(units: Vec<Insn>) -> Self
        requires { AreUnits units.items }
        ensures { result ≡ insns_kept units.items }
    {
        Program { units }
    }

    /// Returns how many units the program has, 1 to 4096. Takes constant time.
    pub fn units(&self) -> u32
        ensures { result ≡ unit_count self.now }
    {
        self.units.len() as u32
    }

    /// Returns the instruction that begins at `unit`, or `None` at the second unit of a wide instruction and past the
    /// end. Takes constant time.
    pub fn at(&self, unit: u32) -> Option<&Insn>
        ensures { option_copied result ≡ slot_at self.now unit }
    {
        let unit = unit as usize;
        if follows_wide(&self.units, unit) {
            return None;
        }
        self.units.get(unit)
    }

    #[inline(always)]
    /// Returns the instruction that begins at `unit`. The caller must know that one does. Takes constant time.
    pub fn fetch(&self, unit: u32) -> &Insn
        requires { slot_at self.now unit ≢ None }
        ensures { slot_at self.now unit ≡ Some result.now }
    {
        self.code().fetch(unit)
    }

    #[inline(always)]
    /// Returns a view of the program's instructions, for a loop that fetches one after the other.
    pub fn code(&self) -> Code<'_>
        ensures { result ≡ self.now }
    {
        Code { units: &self.units }
    }

    /// States the invariant of every program: it has 1 to 4096 units, an instruction begins at each unit except the
    /// second units of wide instructions, and the numbers in each instruction fit their fields.
    ///
    /// For the proofs of callers; it does nothing at run time.
    pub fn facts(&self)
        ensures bounds { IsProgram self.now }
        ensures laid_out { IsLaidOut self.now }
        ensures fit { AllByRecursion FieldsFit self.now }
    {
        let _ = &self.units;
    }
}

/// A view of a program's instructions, for a loop that fetches one after the other.
///
/// Contracts see it as the list of the program's instructions, in order.
#[derive(Debug, Drop)]
pub struct Code<'p> {
    units: &'p [Insn],
}

impl<'p> Model for Code<'p> {
    ghost use Rattle.std.specs.Prelude.{List};
    ghost use Rattle.rb_insn.specs.declared.insn.Insn.{Insn};
    ghost use Rattle.rb_program.specs.DecodedUnits.{insns_kept, AreUnits};

    ghost Value = { List Insn };

    ghost view = { λ c. insns_kept c.units.now };

    ghost invariant = { λ c. AreUnits c.units.now };
}

impl<'p> Code<'p> {
    ghost use Rattle.std.specs.Prelude.{◌≡◌, ◌≢◌, None, Some};
    ghost use Rattle.rb_program.specs.Program.{slot_at};

    #[inline(always)]
    /// Returns the instruction that begins at `unit`. The caller must know that one does. Takes constant time.
    pub fn fetch(&self, unit: u32) -> &'p Insn
        requires { slot_at self.now unit ≢ None }
        ensures { slot_at self.now unit ≡ Some result.now }
    {
        &self.units[unit as usize]
    }
}
