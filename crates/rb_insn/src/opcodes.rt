//! Opcodes, from the tables of RFC 9669, sections 3 to 5.
//!
//! In arithmetic and jumps, the high four bits are the code, bit 3 is the source, and the low three bits are the class.
//! In loads and stores, the high three bits are the mode, the next two are the size, and the low three bits are the
//! class.

ghost use Rattle.std.specs.Prelude.{◌≡◌, ◌<◌, ◌≤◌};
ghost use Rattle.rb_insn.specs.Opcodes.{
  operation_opcode as operation_of,
  access_opcode as access_of,
  alu_class,
  jump_class,
  binary_code,
  division_code,
  condition_code,
  size_code,
  signed_size_code,
  division_offset,
  extend32_offset,
  extend64_offset,
  swap_bits,
  reorder_opcode,
};

use crate::insn::{
    BinaryOp, ByteOrder, Condition, DivisionOp, Extend32, Extend64, SignedSize, Signedness, Size,
    SwapWidth, Width,
};

/// Class (the low three bits): loads of a 64-bit immediate.
pub const LD: u8 = 0;
/// Class: loads into a register.
pub const LDX: u8 = 1;
/// Class: stores of an immediate.
pub const ST: u8 = 2;
/// Class: stores of a register.
pub const STX: u8 = 3;
/// Class: 32-bit arithmetic.
pub const ALU: u8 = 4;
/// Class: jumps that compare 64 bits.
pub const JMP: u8 = 5;
/// Class: jumps that compare 32 bits.
pub const JMP32: u8 = 6;
/// Class: 64-bit arithmetic.
pub const ALU64: u8 = 7;

/// Source (bit 3): the second operand is the immediate.
pub const K: u8 = 0;
/// Source: the second operand is the source register.
pub const X: u8 = 8;

/// Arithmetic code (the high four bits): dst + operand.
pub const ADD: u8 = 0;
/// Arithmetic code: dst - operand.
pub const SUB: u8 = 1;
/// Arithmetic code: dst * operand.
pub const MUL: u8 = 2;
/// Arithmetic code: dst / operand.
pub const DIV: u8 = 3;
/// Arithmetic code: bitwise or.
pub const OR: u8 = 4;
/// Arithmetic code: bitwise and.
pub const AND: u8 = 5;
/// Arithmetic code: shift left.
pub const LSH: u8 = 6;
/// Arithmetic code: shift right, filled with zeros.
pub const RSH: u8 = 7;
/// Arithmetic code: 0 - dst.
pub const NEG: u8 = 8;
/// Arithmetic code: dst % operand.
pub const MOD: u8 = 9;
/// Arithmetic code: bitwise exclusive or.
pub const XOR: u8 = 10;
/// Arithmetic code: the operand itself.
pub const MOV: u8 = 11;
/// Arithmetic code: shift right, filled with the sign.
pub const ARSH: u8 = 12;
/// Arithmetic code: byte swap.
pub const END: u8 = 13;

/// Jump code (the high four bits): always.
pub const JA: u8 = 0;
/// Jump code: dst equals the operand.
pub const JEQ: u8 = 1;
/// Jump code: dst is greater than the operand, both unsigned.
pub const JGT: u8 = 2;
/// Jump code: dst is at least the operand, both unsigned.
pub const JGE: u8 = 3;
/// Jump code: dst and the operand have a set bit in common.
pub const JSET: u8 = 4;
/// Jump code: dst does not equal the operand.
pub const JNE: u8 = 5;
/// Jump code: dst is greater than the operand, both signed.
pub const JSGT: u8 = 6;
/// Jump code: dst is at least the operand, both signed.
pub const JSGE: u8 = 7;
/// Jump code: a helper call.
pub const CALL: u8 = 8;
/// Jump code: the end of the program.
pub const EXIT: u8 = 9;
/// Jump code: dst is less than the operand, both unsigned.
pub const JLT: u8 = 10;
/// Jump code: dst is at most the operand, both unsigned.
pub const JLE: u8 = 11;
/// Jump code: dst is less than the operand, both signed.
pub const JSLT: u8 = 12;
/// Jump code: dst is at most the operand, both signed.
pub const JSLE: u8 = 13;

/// Mode (the high three bits) of a load or store: a 64-bit immediate.
pub const IMM: u8 = 0;
/// Mode: memory.
pub const MEM: u8 = 3;
/// Mode: memory, sign-extended.
pub const MEMSX: u8 = 4;

/// Size (bits 3 and 4) of a load or store: four bytes.
pub const W: u8 = 0;
/// Size: two bytes.
pub const H: u8 = 1;
/// Size: one byte.
pub const B: u8 = 2;
/// Size: eight bytes.
pub const DW: u8 = 3;

/// The source field of a wide instruction that loads a map by its index.
pub const MAP_BY_INDEX: u8 = 5;

/// Returns the opcode of an arithmetic instruction or a jump.
pub(crate) fn operation_opcode(code: u8, source: u8, class: u8) -> u8
    requires code { code < 16 }
    requires source { source ≤ 8 }
    requires class { class < 8 }
    ensures { result ≡ operation_of code source class }
{
    16 * code + source + class
}

/// Returns the opcode of a load or a store.
pub(crate) fn access_opcode(mode: u8, size: u8, class: u8) -> u8
    requires mode { mode < 8 }
    requires size { size < 4 }
    requires class { class < 8 }
    ensures { result ≡ access_of mode size class }
{
    32 * mode + 8 * size + class
}

impl Width {
    /// Returns the class of an arithmetic instruction.
    pub(crate) fn alu_class(self) -> u8
        ensures value { result ≡ alu_class self }
        ensures bound { result < 8 }
    {
        match self {
            Width::W32 => ALU,
            Width::W64 => ALU64,
        }
    }

    /// Returns the class of a conditional jump.
    pub(crate) fn jump_class(self) -> u8
        ensures value { result ≡ jump_class self }
        ensures bound { result < 8 }
    {
        match self {
            Width::W32 => JMP32,
            Width::W64 => JMP,
        }
    }
}

impl BinaryOp {
    /// Returns the operation's code.
    pub(crate) fn code(self) -> u8
        ensures value { result ≡ binary_code self }
        ensures bound { result < 16 }
    {
        match self {
            BinaryOp::Add => ADD,
            BinaryOp::Sub => SUB,
            BinaryOp::Mul => MUL,
            BinaryOp::Or => OR,
            BinaryOp::And => AND,
            BinaryOp::Lsh => LSH,
            BinaryOp::Rsh => RSH,
            BinaryOp::Xor => XOR,
            BinaryOp::Arsh => ARSH,
        }
    }
}

impl DivisionOp {
    /// Returns the operation's code.
    pub(crate) fn code(self) -> u8
        ensures value { result ≡ division_code self }
        ensures bound { result < 16 }
    {
        match self {
            DivisionOp::Div => DIV,
            DivisionOp::Mod => MOD,
        }
    }
}

impl Signedness {
    /// Returns the offset of a division, which selects the sign.
    pub(crate) fn offset(self) -> u16
        ensures { result ≡ division_offset self }
    {
        match self {
            Signedness::Unsigned => 0,
            Signedness::Signed => 1,
        }
    }
}

impl Extend32 {
    /// Returns the offset of the move, which is how many bits it reads.
    pub(crate) fn bits(self) -> u16
        ensures { result ≡ extend32_offset self }
    {
        match self {
            Extend32::From8 => 8,
            Extend32::From16 => 16,
        }
    }
}

impl Extend64 {
    /// Returns the offset of the move, which is how many bits it reads.
    pub(crate) fn bits(self) -> u16
        ensures { result ≡ extend64_offset self }
    {
        match self {
            Extend64::From8 => 8,
            Extend64::From16 => 16,
            Extend64::From32 => 32,
        }
    }
}

impl SwapWidth {
    /// Returns the immediate of the byte swap, which is how many bits it works on.
    pub(crate) fn bits(self) -> u32
        ensures { result ≡ swap_bits self }
    {
        match self {
            SwapWidth::B16 => 16,
            SwapWidth::B32 => 32,
            SwapWidth::B64 => 64,
        }
    }
}

impl ByteOrder {
    /// Returns the opcode of the byte swap.
    pub(crate) fn opcode(self) -> u8
        ensures { result ≡ reorder_opcode self }
    {
        match self {
            ByteOrder::Little => operation_opcode(END, K, ALU),
            ByteOrder::Big => operation_opcode(END, X, ALU),
            ByteOrder::Swap => operation_opcode(END, K, ALU64),
        }
    }
}

impl Condition {
    /// Returns the condition's code.
    pub(crate) fn code(self) -> u8
        ensures value { result ≡ condition_code self }
        ensures bound { result < 16 }
    {
        match self {
            Condition::Equal => JEQ,
            Condition::Above => JGT,
            Condition::AtLeast => JGE,
            Condition::AnyBit => JSET,
            Condition::NotEqual => JNE,
            Condition::SignedAbove => JSGT,
            Condition::SignedAtLeast => JSGE,
            Condition::Below => JLT,
            Condition::AtMost => JLE,
            Condition::SignedBelow => JSLT,
            Condition::SignedAtMost => JSLE,
        }
    }
}

impl Size {
    /// Returns the size's code.
    pub(crate) fn code(self) -> u8
        ensures value { result ≡ size_code self }
        ensures bound { result < 4 }
    {
        match self {
            Size::Word => W,
            Size::Half => H,
            Size::Byte => B,
            Size::Double => DW,
        }
    }
}

impl SignedSize {
    /// Returns the size's code.
    pub(crate) fn code(self) -> u8
        ensures value { result ≡ signed_size_code self }
        ensures bound { result < 4 }
    {
        match self {
            SignedSize::Word => W,
            SignedSize::Half => H,
            SignedSize::Byte => B,
        }
    }
}
