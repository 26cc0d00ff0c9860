//! The edges of an instruction in the control-flow graph.

ghost use Rattle.std.specs.Prelude.{◌≡◌, ◌^◌, ◌<◌, IfSome, FitsSigned};
ghost use Rattle.std.specs.Int.{w32};
ghost use Rattle.rb_program.specs.Edges.{Next, Target, distance_of, edge_target};

use rb_insn::Insn;

#[inline(always)]
#[tactic(auto, unfolding(crate::specs::Edges::edge_target))]
/// Returns the unit after the instruction at `unit`, or `None` if execution can't continue there: for EXIT and for an
/// unconditional jump (RFC 9669, section 4.3).
///
/// A wide instruction takes two units. The returned unit may be past the end of the program.
pub fn next_unit(unit: u32, insn: &Insn) -> Option<u32>
    requires { unit < 2 ^ 31 }
    ensures { result ≡ edge_target unit insn.now Next }
{
    match *insn {
        Insn::Jump { .. } | Insn::JumpFar { .. } | Insn::Exit => None,
        _ => Some(unit + insn.units() as u32),
    }
}

#[inline(always)]
#[tactic(auto, unfolding(crate::specs::Edges::edge_target))]
/// Returns the unit that the instruction at `unit` jumps to: `unit` plus 1 plus the distance (RFC 9669, section 4.3).
///
/// Returns `None` if the instruction is not a jump, or if that number is negative. The returned unit may be past the
/// end of the program.
pub fn jump_target(unit: u32, insn: &Insn) -> Option<u32>
    requires { unit < 2 ^ 31 }
    ensures { result ≡ edge_target unit insn.now Target }
{
    let distance = distance(insn)?;
    u32::try_from(i64::from(unit) + 1 + distance).ok()
}

/// Returns how far the instruction jumps, in units from the one after it, or `None` if it is not a jump.
pub(crate) fn distance(insn: &Insn) -> Option<i64>
    ensures value { result ≡ distance_of insn.now }
    ensures bounds { IfSome result (FitsSigned w32) }
{
    match *insn {
        Insn::Jump { distance } => Some(i64::from(distance)),
        Insn::JumpFar { distance } => Some(i64::from(distance)),
        Insn::Branch { distance, .. } => Some(i64::from(distance)),
        _ => None,
    }
}
