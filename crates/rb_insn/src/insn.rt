//! The instructions of the profile.

use crate::reg::Reg;

/// The width of an arithmetic or conditional instruction (RFC 9669, section 4: ALU and JMP32, ALU64 and JMP).
#[derive(Clone, Copy, Debug, PartialEq, Eq)]
pub enum Width {
    /// The low 32 bits of the operands.
    W32,
    /// All 64 bits.
    W64,
}

/// The second operand (RFC 9669, section 4.1: K or X).
#[derive(Clone, Copy, Debug, PartialEq, Eq)]
pub enum Operand {
    /// The instruction's immediate.
    Immediate(i32),
    /// A register's value.
    Register(Reg),
}

/// An arithmetic operation on two operands that is encoded without a sign or a size of its own (RFC 9669, section 4.1).
#[derive(Clone, Copy, Debug, PartialEq, Eq)]
pub enum BinaryOp {
    /// dst + operand
    Add,
    /// dst - operand
    Sub,
    /// dst * operand
    Mul,
    /// bitwise or
    Or,
    /// bitwise and
    And,
    /// shift left
    Lsh,
    /// shift right, filled with zeros
    Rsh,
    /// bitwise exclusive or
    Xor,
    /// shift right, filled with the sign
    Arsh,
}

/// A division or a remainder (RFC 9669, section 4.1).
#[derive(Clone, Copy, Debug, PartialEq, Eq)]
pub enum DivisionOp {
    /// dst / operand
    Div,
    /// dst % operand
    Mod,
}

/// Whether a division reads its operands as signed (RFC 9669, section 4.1: offset 0 or 1).
#[derive(Clone, Copy, Debug, PartialEq, Eq)]
pub enum Signedness {
    /// Offset 0.
    Unsigned,
    /// Offset 1.
    Signed,
}

/// How many low bits a 32-bit sign-extending move reads (RFC 9669, section 4.1).
#[derive(Clone, Copy, Debug, PartialEq, Eq)]
pub enum Extend32 {
    /// 8 bits
    From8,
    /// 16 bits
    From16,
}

/// How many low bits a 64-bit sign-extending move reads (RFC 9669, section 4.1).
#[derive(Clone, Copy, Debug, PartialEq, Eq)]
pub enum Extend64 {
    /// 8 bits
    From8,
    /// 16 bits
    From16,
    /// 32 bits
    From32,
}

/// The byte order that a byte swap instruction converts to (RFC 9669, section 4.2).
#[derive(Clone, Copy, Debug, PartialEq, Eq)]
pub enum ByteOrder {
    /// To little-endian. On a little-endian host, this keeps the low bits.
    Little,
    /// To big-endian. On a little-endian host, this swaps the bytes.
    Big,
    /// Swaps the bytes on every host.
    Swap,
}

/// How many low bits a byte swap instruction works on (RFC 9669, section 4.2).
#[derive(Clone, Copy, Debug, PartialEq, Eq)]
pub enum SwapWidth {
    /// 16 bits
    B16,
    /// 32 bits
    B32,
    /// 64 bits
    B64,
}

/// The condition of a jump (RFC 9669, section 4.3).
#[derive(Clone, Copy, Debug, PartialEq, Eq)]
pub enum Condition {
    /// dst equals the operand
    Equal,
    /// dst does not equal the operand
    NotEqual,
    /// dst and the operand have a set bit in common
    AnyBit,
    /// dst is greater than the operand, both unsigned
    Above,
    /// dst is at least the operand, both unsigned
    AtLeast,
    /// dst is less than the operand, both unsigned
    Below,
    /// dst is at most the operand, both unsigned
    AtMost,
    /// dst is greater than the operand, both signed
    SignedAbove,
    /// dst is at least the operand, both signed
    SignedAtLeast,
    /// dst is less than the operand, both signed
    SignedBelow,
    /// dst is at most the operand, both signed
    SignedAtMost,
}

/// How many bytes a load or store moves (RFC 9669, section 5.1).
#[derive(Clone, Copy, Debug, PartialEq, Eq)]
pub enum Size {
    /// one byte (B)
    Byte,
    /// two bytes (H)
    Half,
    /// four bytes (W)
    Word,
    /// eight bytes (DW)
    Double,
}

/// How many bytes a sign-extending load moves (RFC 9669, section 5.2).
#[derive(Clone, Copy, Debug, PartialEq, Eq)]
pub enum SignedSize {
    /// one byte (B)
    Byte,
    /// two bytes (H)
    Half,
    /// four bytes (W)
    Word,
}

impl Size {
    ghost use Rattle.std.specs.Prelude.{◌≡◌, ◌≤◌};
    ghost use Rattle.rb_insn.specs.Sizes.{byte_count};

    #[inline(always)]
    /// Returns how many bytes a load or a store moves.
    pub fn bytes(self) -> usize
        ensures value { result ≡ byte_count self }
        ensures bound { result ≤ 8 }
    {
        match self {
            Size::Byte => 1,
            Size::Half => 2,
            Size::Word => 4,
            Size::Double => 8,
        }
    }
}

impl SignedSize {
    ghost use Rattle.std.specs.Prelude.{◌≡◌, ◌≤◌};
    ghost use Rattle.rb_insn.specs.Sizes.{signed_byte_count};

    #[inline(always)]
    /// Returns how many bytes a sign-extending load moves.
    pub fn bytes(self) -> usize
        ensures value { result ≡ signed_byte_count self }
        ensures bound { result ≤ 4 }
    {
        match self {
            SignedSize::Byte => 1,
            SignedSize::Half => 2,
            SignedSize::Word => 4,
        }
    }
}

/// An instruction of the profile. Each value has exactly one encoding, of 8 or 16 bytes.
#[derive(Clone, Copy, Debug)]
pub enum Insn {
    /// dst = dst op operand
    Binary {
        width: Width,
        op: BinaryOp,
        dst: Reg,
        operand: Operand,
    },
    /// dst = dst / operand or dst % operand
    Division {
        width: Width,
        op: DivisionOp,
        sign: Signedness,
        dst: Reg,
        operand: Operand,
    },
    /// dst = 0 - dst
    Negate {
        width: Width,
        dst: Reg,
    },
    /// dst = operand
    Move {
        width: Width,
        dst: Reg,
        operand: Operand,
    },
    /// dst = the low bits of src, sign-extended to 32 bits
    MoveExtended32 {
        from: Extend32,
        dst: Reg,
        src: Reg,
    },
    /// dst = the low bits of src, sign-extended to 64 bits
    MoveExtended64 {
        from: Extend64,
        dst: Reg,
        src: Reg,
    },
    /// dst = its low bits in the given byte order
    Reorder {
        order: ByteOrder,
        width: SwapWidth,
        dst: Reg,
    },
    /// Jumps by the offset (JA of class JMP).
    Jump {
        distance: i16,
    },
    /// Jumps by the immediate (JA of class JMP32).
    JumpFar {
        distance: i32,
    },
    /// Jumps if the condition holds.
    Branch {
        width: Width,
        condition: Condition,
        dst: Reg,
        operand: Operand,
        distance: i16,
    },
    /// Calls the helper with this number.
    Call {
        helper: u32,
    },
    /// Ends the program; r0 is its result.
    Exit,
    /// dst = a 64-bit number (wide)
    LoadNumber {
        dst: Reg,
        value: u64,
    },
    /// dst = the ring with this number (wide)
    LoadRing {
        dst: Reg,
        ring: u32,
    },
    /// dst = the bytes at base + offset, zero-extended
    Load {
        size: Size,
        dst: Reg,
        base: Reg,
        offset: i16,
    },
    /// dst = the bytes at base + offset, sign-extended
    LoadSigned {
        size: SignedSize,
        dst: Reg,
        base: Reg,
        offset: i16,
    },
    /// the bytes at base + offset = the immediate, sign-extended
    StoreImmediate {
        size: Size,
        base: Reg,
        offset: i16,
        value: i32,
    },
    /// the bytes at base + offset = the low bytes of src
    StoreRegister {
        size: Size,
        base: Reg,
        offset: i16,
        src: Reg,
    },
}

impl Insn {
    ghost use Rattle.std.specs.Prelude.{◌≡◌};
    ghost use Rattle.rb_insn.specs.Units.{units_taken};

    #[inline(always)]
    /// Returns how many 8-byte units the instruction takes: 2 if it is wide, otherwise 1.
    pub fn units(&self) -> usize
        ensures { result ≡ units_taken self.now }
    {
        match self {
            Insn::LoadNumber { .. } | Insn::LoadRing { .. } => 2,
            _ => 1,
        }
    }
}
