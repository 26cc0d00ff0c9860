//! The decoder's checks on the fields of an operation, and the instruction that it builds from them.

ghost use Rattle.std.specs.Prelude.{◌≡◌, ◌≤◌, ◌==◌, ◌||◌, ℕ, true, is_some};
ghost use Rattle.rb_program.specs.inner.FieldChecks.{
  is_named_by,
  row_for,
  is_register,
  fits_unused,
  registers_fit,
  numbers_fit,
  reg_at,
  operand_from,
  sign_from,
  move32_from,
  move64_from,
  swap_width_from,
  wide_from,
  insn_from,
  IsAluOperation,
  IsJumpOperation,
  IsAccessOperation,
};

use crate::fields::Fields;
use crate::opcode_meaning::{OpcodeMeaning, SourceOperand};
use rb_insn::{Extend32, Extend64, Insn, Operand, Reg, Signedness, SwapWidth, Width};

impl OpcodeMeaning {
    /// Returns whether the source field and the immediate select an instruction, if the opcode alone does not.
    pub(crate) fn is_named_by(self, fields: &Fields) -> bool
        ensures { result ≡ is_named_by self fields.now }
    {
        match self {
            OpcodeMeaning::Reorder(_) => fields.imm == 16 || fields.imm == 32 || fields.imm == 64,
            OpcodeMeaning::Call => fields.src == 0,
            OpcodeMeaning::Wide => fields.src == 0 || fields.src == 5,
            _ => true,
        }
    }

    /// Returns whether the destination field holds a register.
    fn has_dst(self) -> bool
        ensures { (src : ℕ) → result ≡ is_register (row_for self src).dst }
    {
        match self {
            OpcodeMeaning::Jump
            | OpcodeMeaning::JumpFar
            | OpcodeMeaning::Call
            | OpcodeMeaning::Exit => false,
            _ => true,
        }
    }

    /// Returns whether the source field holds a register.
    fn has_src(self) -> bool
        ensures { (src : ℕ) → result ≡ is_register (row_for self src).src }
    {
        match self {
            OpcodeMeaning::Binary(_, _, source)
            | OpcodeMeaning::Division(_, _, source)
            | OpcodeMeaning::Move(_, source)
            | OpcodeMeaning::Branch(_, _, source) => match source {
                SourceOperand::Immediate => false,
                SourceOperand::Register => true,
            },
            OpcodeMeaning::Load(_)
            | OpcodeMeaning::LoadSigned(_)
            | OpcodeMeaning::StoreRegister(_) => true,
            _ => false,
        }
    }

    /// Returns whether the fields that hold registers are 0 to 10.
    pub(crate) fn has_registers(self, fields: &Fields) -> bool
        ensures { result ≡ registers_fit (row_for self fields.now.src) fields.now }
    {
        (!self.has_dst() || fields.dst <= 10) && (!self.has_src() || fields.src <= 10)
    }

    /// Returns whether the operation allows this offset.
    fn allows_offset(self, offset: u16) -> bool
        ensures { (src : ℕ) → result ≡ fits_unused (row_for self src).offset offset }
    {
        match self {
            OpcodeMeaning::Division(_, _, _) => offset == 0 || offset == 1,
            OpcodeMeaning::Move(Width::W32, SourceOperand::Register) => offset == 0
                || offset == 8
                || offset == 16,
            OpcodeMeaning::Move(Width::W64, SourceOperand::Register) => {
                offset == 0 || offset == 8 || offset == 16 || offset == 32
            }
            OpcodeMeaning::Branch(_, _, _)
            | OpcodeMeaning::Jump
            | OpcodeMeaning::Load(_)
            | OpcodeMeaning::LoadSigned(_)
            | OpcodeMeaning::StoreImmediate(_)
            | OpcodeMeaning::StoreRegister(_) => true,
            _ => offset == 0,
        }
    }

    /// Returns whether the operation uses the immediate.
    fn has_imm(self) -> bool
        ensures { (src : ℕ) (imm : ℕ) → fits_unused (row_for self src).imm imm ≡ (result || (imm == 0)) }
    {
        match self {
            OpcodeMeaning::Binary(_, _, source)
            | OpcodeMeaning::Division(_, _, source)
            | OpcodeMeaning::Move(_, source)
            | OpcodeMeaning::Branch(_, _, source) => match source {
                SourceOperand::Immediate => true,
                SourceOperand::Register => false,
            },
            OpcodeMeaning::Reorder(_)
            | OpcodeMeaning::JumpFar
            | OpcodeMeaning::Call
            | OpcodeMeaning::Wide
            | OpcodeMeaning::StoreImmediate(_) => true,
            _ => false,
        }
    }

    /// Returns whether the other fields have values that the operation allows: zero if it does not use them.
    ///
    /// The source field of a wide instruction is already checked by `is_named_by`.
    pub(crate) fn has_numbers(self, fields: &Fields) -> bool
        requires { is_named_by self fields.now ≡ true }
        ensures { result ≡ numbers_fit (row_for self fields.now.src) fields.now }
    {
        let dst = self.has_dst() || fields.dst == 0;
        let src = self.has_src() || fields.src == 0 || self.is_wide();
        dst && src && self.allows_offset(fields.offset) && (self.has_imm() || fields.imm == 0)
    }

    /// Returns whether the instruction takes two units.
    pub(crate) fn is_wide(self) -> bool
        ensures { (src : ℕ) → result ≡ is_some (row_for self src).next }
    {
        match self {
            OpcodeMeaning::Wide => true,
            _ => false,
        }
    }

    /// Returns the instruction of an operation with these fields; `next_imm` is the second immediate of a wide one.
    pub(crate) fn insn(self, fields: &Fields, next_imm: u32) -> Insn
        requires { registers_fit (row_for self fields.now.src) fields.now ≡ true }
        ensures { result ≡ insn_from self fields.now next_imm }
    {
        match self {
            OpcodeMeaning::Binary(_, _, _)
            | OpcodeMeaning::Division(_, _, _)
            | OpcodeMeaning::Negate(_)
            | OpcodeMeaning::Move(_, _)
            | OpcodeMeaning::Reorder(_) => self.arithmetic_insn(fields),
            OpcodeMeaning::Branch(_, _, _)
            | OpcodeMeaning::Jump
            | OpcodeMeaning::JumpFar
            | OpcodeMeaning::Call
            | OpcodeMeaning::Exit => self.jump_insn(fields),
            OpcodeMeaning::Wide => wide(fields, next_imm),
            OpcodeMeaning::Load(_)
            | OpcodeMeaning::LoadSigned(_)
            | OpcodeMeaning::StoreImmediate(_)
            | OpcodeMeaning::StoreRegister(_) => self.access_insn(fields),
        }
    }

    /// Returns the instruction of an operation in class ALU or ALU64.
    fn arithmetic_insn(self, fields: &Fields) -> Insn
        requires class { IsAluOperation self }
        requires registers { registers_fit (row_for self fields.now.src) fields.now ≡ true }
        ensures { (next : ℕ) → result ≡ insn_from self fields.now next }
    {
        match self {
            OpcodeMeaning::Binary(width, op, source) => Insn::Binary {
                width,
                op,
                dst: register(fields.dst),
                operand: operand(source, fields),
            },
            OpcodeMeaning::Division(width, op, source) => Insn::Division {
                width,
                op,
                sign: sign(fields.offset),
                dst: register(fields.dst),
                operand: operand(source, fields),
            },
            OpcodeMeaning::Negate(width) => Insn::Negate {
                width,
                dst: register(fields.dst),
            },
            OpcodeMeaning::Move(width, SourceOperand::Immediate) => Insn::Move {
                width,
                dst: register(fields.dst),
                operand: operand(SourceOperand::Immediate, fields),
            },
            OpcodeMeaning::Move(Width::W32, SourceOperand::Register) => move32(fields),
            OpcodeMeaning::Move(Width::W64, SourceOperand::Register) => move64(fields),
            OpcodeMeaning::Reorder(order) => Insn::Reorder {
                order,
                width: swap_width(fields.imm),
                dst: register(fields.dst),
            },
            _ => unreachable!(),
        }
    }

    /// Returns the instruction of an operation in class JMP or JMP32.
    fn jump_insn(self, fields: &Fields) -> Insn
        requires class { IsJumpOperation self }
        requires registers { registers_fit (row_for self fields.now.src) fields.now ≡ true }
        ensures { (next : ℕ) → result ≡ insn_from self fields.now next }
    {
        match self {
            OpcodeMeaning::Branch(width, condition, source) => Insn::Branch {
                width,
                condition,
                dst: register(fields.dst),
                operand: operand(source, fields),
                distance: fields.offset.cast_signed(),
            },
            OpcodeMeaning::Jump => Insn::Jump {
                distance: fields.offset.cast_signed(),
            },
            OpcodeMeaning::JumpFar => Insn::JumpFar {
                distance: fields.imm.cast_signed(),
            },
            OpcodeMeaning::Call => Insn::Call { helper: fields.imm },
            OpcodeMeaning::Exit => Insn::Exit,
            _ => unreachable!(),
        }
    }

    /// Returns the instruction of a load or a store.
    fn access_insn(self, fields: &Fields) -> Insn
        requires class { IsAccessOperation self }
        requires registers { registers_fit (row_for self fields.now.src) fields.now ≡ true }
        ensures { (next : ℕ) → result ≡ insn_from self fields.now next }
    {
        match self {
            OpcodeMeaning::Load(size) => Insn::Load {
                size,
                dst: register(fields.dst),
                base: register(fields.src),
                offset: fields.offset.cast_signed(),
            },
            OpcodeMeaning::LoadSigned(size) => Insn::LoadSigned {
                size,
                dst: register(fields.dst),
                base: register(fields.src),
                offset: fields.offset.cast_signed(),
            },
            OpcodeMeaning::StoreImmediate(size) => Insn::StoreImmediate {
                size,
                base: register(fields.dst),
                offset: fields.offset.cast_signed(),
                value: fields.imm.cast_signed(),
            },
            OpcodeMeaning::StoreRegister(size) => Insn::StoreRegister {
                size,
                base: register(fields.dst),
                offset: fields.offset.cast_signed(),
                src: register(fields.src),
            },
            _ => unreachable!(),
        }
    }
}

/// Returns the register with this number.
fn register(number: u8) -> Reg
    requires { number ≤ 10 }
    ensures { result ≡ reg_at number }
{
    Reg { number }
}

/// Returns the second operand, given where it is.
fn operand(source: SourceOperand, fields: &Fields) -> Operand
    requires { source ≡ SourceOperand.Register → fields.now.src ≤ 10 }
    ensures { result ≡ operand_from source fields.now }
{
    match source {
        SourceOperand::Immediate => Operand::Immediate(fields.imm.cast_signed()),
        SourceOperand::Register => Operand::Register(register(fields.src)),
    }
}

/// Returns whether a division with this offset is signed.
fn sign(offset: u16) -> Signedness
    ensures { result ≡ sign_from offset }
{
    if offset == 0 {
        Signedness::Unsigned
    } else {
        Signedness::Signed
    }
}

/// Returns the move between registers in class ALU.
fn move32(fields: &Fields) -> Insn
    requires dst { fields.now.dst ≤ 10 }
    requires src { fields.now.src ≤ 10 }
    ensures { result ≡ move32_from fields.now }
{
    let dst = register(fields.dst);
    let src = register(fields.src);
    match fields.offset {
        8 => Insn::MoveExtended32 {
            from: Extend32::From8,
            dst,
            src,
        },
        16 => Insn::MoveExtended32 {
            from: Extend32::From16,
            dst,
            src,
        },
        _ => Insn::Move {
            width: Width::W32,
            dst,
            operand: Operand::Register(src),
        },
    }
}

/// Returns the move between registers in class ALU64.
fn move64(fields: &Fields) -> Insn
    requires dst { fields.now.dst ≤ 10 }
    requires src { fields.now.src ≤ 10 }
    ensures { result ≡ move64_from fields.now }
{
    let dst = register(fields.dst);
    let src = register(fields.src);
    match fields.offset {
        8 => Insn::MoveExtended64 {
            from: Extend64::From8,
            dst,
            src,
        },
        16 => Insn::MoveExtended64 {
            from: Extend64::From16,
            dst,
            src,
        },
        32 => Insn::MoveExtended64 {
            from: Extend64::From32,
            dst,
            src,
        },
        _ => Insn::Move {
            width: Width::W64,
            dst,
            operand: Operand::Register(src),
        },
    }
}

/// Returns how many bits a byte swap with this immediate works on.
fn swap_width(imm: u32) -> SwapWidth
    ensures { result ≡ swap_width_from imm }
{
    match imm {
        16 => SwapWidth::B16,
        32 => SwapWidth::B32,
        _ => SwapWidth::B64,
    }
}

/// Returns a wide instruction.
fn wide(fields: &Fields, next_imm: u32) -> Insn
    requires { fields.now.dst ≤ 10 }
    ensures { result ≡ wide_from fields.now next_imm }
{
    let dst = register(fields.dst);
    if fields.src == 0 {
        Insn::LoadNumber {
            dst,
            value: (u64::from(next_imm) << 32) + u64::from(fields.imm),
        }
    } else {
        Insn::LoadRing {
            dst,
            ring: fields.imm,
        }
    }
}
