//! An instruction as assembly.

ghost use Rattle.std.specs.Prelude.{Some};
ghost use Rattle.rb_explain.specs.Assembly.{assembly_of};

use crate::forms::{write_jump, write_load, write_move, write_operation, write_store};
use rb_insn::Insn;
use std::fmt;

/// An instruction that displays as its assembly.
///
/// Examples are `r1 += 8`, `*(u64 *)(r0 + 0) = r1`, `if w2 == 0 goto +4` and `r1 = map_by_idx(0)`.
///
/// Numbers are decimal. The numbers of a helper and of a wide load are signed, and a load or a store names the whole
/// register, as LLVM prints them by default, without 32-bit registers.
#[derive(Clone, Copy)]
pub struct Assembly(pub Insn);

impl fmt::Display for Assembly {
    ghost output = { λ a. Some (assembly_of a.0) };

    fn fmt<W: fmt::Write>(&self, f: &mut fmt::Formatter<W>) -> fmt::Result {
        match self.0 {
            Insn::Binary { .. } | Insn::Division { .. } | Insn::Negate { .. } => {
                write_operation(self.0, f)
            }
            Insn::Move { .. }
            | Insn::MoveExtended32 { .. }
            | Insn::MoveExtended64 { .. }
            | Insn::Reorder { .. } => write_move(self.0, f),
            Insn::Jump { .. } | Insn::JumpFar { .. } | Insn::Branch { .. } => write_jump(self.0, f),
            Insn::Call { helper } => write!(f, "call {}", helper.cast_signed()),
            Insn::Exit => f.write_str("exit"),
            Insn::LoadNumber { .. }
            | Insn::LoadRing { .. }
            | Insn::Load { .. }
            | Insn::LoadSigned { .. } => write_load(self.0, f),
            Insn::StoreImmediate { .. } | Insn::StoreRegister { .. } => write_store(self.0, f),
        }
    }
}
