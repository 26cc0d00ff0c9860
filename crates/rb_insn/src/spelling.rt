//! The encoding of an instruction as bytes (RFC 9669, section 3): the fields of its units, each a column of the tables,
//! and how they are written.

ghost use Rattle.std.specs.Prelude.{◌≡◌, ◌+◌, ◌*◌, ◌<◌, ◌≤◌, ◌%◌, ◌/◌, ◌^◌, ◌++◌, ◌∷◌, [], length, take, drop, slice_index, MatchOption};
ghost use Rattle.byteorder.specs.Endian.{little_bytes};
ghost use Rattle.rb_insn.specs.inner.Operands.{source_of, src_of, imm_of};
ghost use Rattle.rb_insn.specs.Spelling.{spelling, second_unit, Spells, OffsetFits, OperandFits, ImmFits, SpellingsFillUnits, NoSpellingBeginsAnother, OneListSpells};
ghost use Rattle.rb_insn.specs.Units.{units_taken};

use crate::insn::{Insn, Operand, Size};
use crate::opcodes::{
    ALU, ALU64, CALL, EXIT, IMM, JA, JMP, JMP32, K, LD, LDX, MAP_BY_INDEX, MEM, MEMSX, MOV, NEG,
    ST, STX, X, access_opcode, operation_opcode,
};
use byteorder::{ByteOrder, LittleEndian};

impl Operand {
    /// Returns the source bit: K or X.
    fn source(self) -> u8
        ensures { result ≡ source_of self }
    {
        match self {
            Operand::Immediate(_) => K,
            Operand::Register(_) => X,
        }
    }

    /// Returns the source register field.
    fn src(self) -> u8
        ensures { result ≡ src_of self }
    {
        match self {
            Operand::Immediate(_) => 0,
            Operand::Register(src) => src.number,
        }
    }

    /// Returns the immediate field.
    fn imm(self) -> u32
        ensures value { result ≡ imm_of self }
        ensures fits { OperandFits self }
    {
        match self {
            Operand::Immediate(value) => value.cast_unsigned(),
            Operand::Register(_) => 0,
        }
    }
}

impl Insn {
    /// Returns the opcode.
    fn opcode(&self) -> u8
        ensures { result ≡ slice_index (spelling self.now) 0 }
    {
        match *self {
            Insn::Binary {
                width,
                op,
                operand,
                ..
            } => operation_opcode(op.code(), operand.source(), width.alu_class()),
            Insn::Division {
                width,
                op,
                operand,
                ..
            } => operation_opcode(op.code(), operand.source(), width.alu_class()),
            Insn::Negate { width, .. } => operation_opcode(NEG, K, width.alu_class()),
            Insn::Move { width, operand, .. } => operation_opcode(
                MOV,
                operand.source(),
                width.alu_class(),
            ),
            Insn::MoveExtended32 { .. } => operation_opcode(MOV, X, ALU),
            Insn::MoveExtended64 { .. } => operation_opcode(MOV, X, ALU64),
            Insn::Reorder { order, .. } => order.opcode(),
            Insn::Jump { .. } => operation_opcode(JA, K, JMP),
            Insn::JumpFar { .. } => operation_opcode(JA, K, JMP32),
            Insn::Branch {
                width,
                condition,
                operand,
                ..
            } => operation_opcode(condition.code(), operand.source(), width.jump_class()),
            Insn::Call { .. } => operation_opcode(CALL, K, JMP),
            Insn::Exit => operation_opcode(EXIT, K, JMP),
            Insn::LoadNumber { .. } | Insn::LoadRing { .. } => access_opcode(
                IMM,
                Size::Double.code(),
                LD,
            ),
            Insn::Load { size, .. } => access_opcode(MEM, size.code(), LDX),
            Insn::LoadSigned { size, .. } => access_opcode(MEMSX, size.code(), LDX),
            Insn::StoreImmediate { size, .. } => access_opcode(MEM, size.code(), ST),
            Insn::StoreRegister { size, .. } => access_opcode(MEM, size.code(), STX),
        }
    }

    /// Returns the destination register field.
    fn dst(&self) -> u8
        ensures value { result ≡ slice_index (spelling self.now) 1 % 16 }
        ensures bound { result ≤ 10 }
    {
        match *self {
            Insn::Binary { dst, .. }
            | Insn::Division { dst, .. }
            | Insn::Negate { dst, .. }
            | Insn::Move { dst, .. }
            | Insn::MoveExtended32 { dst, .. }
            | Insn::MoveExtended64 { dst, .. }
            | Insn::Reorder { dst, .. }
            | Insn::Branch { dst, .. }
            | Insn::LoadNumber { dst, .. }
            | Insn::LoadRing { dst, .. }
            | Insn::Load { dst, .. }
            | Insn::LoadSigned { dst, .. } => dst.number,
            Insn::StoreImmediate { base, .. } | Insn::StoreRegister { base, .. } => base.number,
            Insn::Jump { .. } | Insn::JumpFar { .. } | Insn::Call { .. } | Insn::Exit => 0,
        }
    }

    /// Returns the source register field.
    fn src(&self) -> u8
        ensures value { result ≡ slice_index (spelling self.now) 1 / 16 }
        ensures bound { result ≤ 10 }
    {
        match *self {
            Insn::Binary { operand, .. }
            | Insn::Division { operand, .. }
            | Insn::Move { operand, .. }
            | Insn::Branch { operand, .. } => operand.src(),
            Insn::MoveExtended32 { src, .. }
            | Insn::MoveExtended64 { src, .. }
            | Insn::StoreRegister { src, .. } => src.number,
            Insn::Load { base, .. } | Insn::LoadSigned { base, .. } => base.number,
            Insn::LoadRing { .. } => MAP_BY_INDEX,
            Insn::Negate { .. }
            | Insn::Reorder { .. }
            | Insn::Jump { .. }
            | Insn::JumpFar { .. }
            | Insn::Call { .. }
            | Insn::Exit
            | Insn::LoadNumber { .. }
            | Insn::StoreImmediate { .. } => 0,
        }
    }

    /// Returns the offset field.
    fn offset(&self) -> u16
        ensures value { take 2 (drop 2 (spelling self.now)) ≡ little_bytes 2 result }
        ensures fits { OffsetFits self.now }
    {
        match *self {
            Insn::Division { sign, .. } => sign.offset(),
            Insn::MoveExtended32 { from, .. } => from.bits(),
            Insn::MoveExtended64 { from, .. } => from.bits(),
            Insn::Jump { distance } => distance.cast_unsigned(),
            Insn::Branch { distance, .. } => distance.cast_unsigned(),
            Insn::Load { offset, .. } => offset.cast_unsigned(),
            Insn::LoadSigned { offset, .. } => offset.cast_unsigned(),
            Insn::StoreImmediate { offset, .. } => offset.cast_unsigned(),
            Insn::StoreRegister { offset, .. } => offset.cast_unsigned(),
            Insn::Binary { .. }
            | Insn::Negate { .. }
            | Insn::Move { .. }
            | Insn::Reorder { .. }
            | Insn::JumpFar { .. }
            | Insn::Call { .. }
            | Insn::Exit
            | Insn::LoadNumber { .. }
            | Insn::LoadRing { .. } => 0,
        }
    }

    /// Returns the immediate field.
    fn imm(&self) -> u32
        ensures value { take 4 (drop 4 (spelling self.now)) ≡ little_bytes 4 result }
        ensures fits { ImmFits self.now }
    {
        match *self {
            Insn::Binary { operand, .. }
            | Insn::Division { operand, .. }
            | Insn::Move { operand, .. }
            | Insn::Branch { operand, .. } => operand.imm(),
            Insn::Reorder { width, .. } => width.bits(),
            Insn::JumpFar { distance } => distance.cast_unsigned(),
            Insn::Call { helper } => helper,
            Insn::LoadNumber { value, .. } => (value % (1 << 32)) as u32,
            Insn::LoadRing { ring, .. } => ring,
            Insn::StoreImmediate { value, .. } => value.cast_unsigned(),
            Insn::Negate { .. }
            | Insn::MoveExtended32 { .. }
            | Insn::MoveExtended64 { .. }
            | Insn::Jump { .. }
            | Insn::Exit
            | Insn::Load { .. }
            | Insn::LoadSigned { .. }
            | Insn::StoreRegister { .. } => 0,
        }
    }

    /// Returns the immediate of the second unit, if there is one.
    fn next_imm(&self) -> Option<u32>
        ensures { MatchOption result (drop 8 (spelling self.now) ≡ []) (λ next. drop 8 (spelling self.now) ≡ second_unit next) }
    {
        match *self {
            Insn::LoadNumber { value, .. } => Some((value >> 32) as u32),
            Insn::LoadRing { .. } => Some(0),
            _ => None,
        }
    }

    /// Writes the instruction's encoding to the front of `out` and returns its length: 16 bytes if it is wide,
    /// otherwise 8.
    ///
    /// The rest of `out` is unchanged.
    pub fn spell(&self, out: &mut [u8; 16]) -> usize
        ensures spelled { Spells self.now (take result out.new) }
        ensures rest { drop result out.new ≡ drop result out.old }
        ensures count { result ≡ 8 * units_taken self.now }
    {
        let registers = self.dst() + 16 * self.src();
        write_unit(
            &mut out[..8],
            self.opcode(),
            registers,
            self.offset(),
            self.imm(),
        );
        match self.next_imm() {
            Some(next) => {
                write_unit(&mut out[8..], 0, 0, 0, next);
                16
            }
            None => 8,
        }
    }
}

/// Writes one unit of 8 bytes.
fn write_unit(out: &mut [u8], opcode: u8, registers: u8, offset: u16, imm: u32)
    requires { length out.old ≡ 8 }
    ensures { out.new ≡ opcode ∷ registers ∷ (little_bytes 2 offset ++ little_bytes 4 imm) }
{
    out[0] = opcode;
    out[1] = registers;
    LittleEndian::write_u16(&mut out[2..4], offset);
    LittleEndian::write_u32(&mut out[4..8], imm);
}

/// States the laws of the encoding: an instruction's encoding fills its units, no encoding is a proper prefix of
/// another, and bytes encode at most one list of instructions.
///
/// For the proofs of callers; it does nothing at run time.
pub fn spelling_laws()
    ensures fills_units { SpellingsFillUnits }
    ensures prefix_free { NoSpellingBeginsAnother }
    ensures unique { OneListSpells }
{}
