//! What an opcode does, before the registers and the numbers are known (RFC 9669, sections 3.3, 4 and 5).

ghost use Rattle.std.specs.Prelude.{◌≡◌, ◌<◌};
ghost use Rattle.rb_program.specs.inner.Operations.{
  binary_at,
  division_at,
  condition_at,
  size_at,
  signed_size_at,
  arithmetic_at,
  jump_at,
  load_at,
  store_immediate_at,
  store_register_at,
  operation_at,
};

use rb_insn::opcodes::{
    ADD, ALU, AND, ARSH, B, CALL, DIV, END, EXIT, H, JA, JEQ, JGE, JGT, JLE, JLT, JMP, JMP32, JNE,
    JSET, JSGE, JSGT, JSLE, JSLT, LD, LDX, LSH, MEM, MEMSX, MOD, MOV, MUL, NEG, OR, RSH, ST, STX,
    SUB, W, XOR,
};
use rb_insn::{BinaryOp, ByteOrder, Condition, DivisionOp, SignedSize, Size, Width};

/// Where the second operand is.
#[derive(Clone, Copy)]
pub(crate) enum SourceOperand {
    /// In the immediate (K).
    Immediate,
    /// In the source register (X).
    Register,
}

/// The operation that an opcode selects.
#[derive(Clone, Copy)]
pub(crate) enum OpcodeMeaning {
    Binary(Width, BinaryOp, SourceOperand),
    Division(Width, DivisionOp, SourceOperand),
    Negate(Width),
    Move(Width, SourceOperand),
    Reorder(ByteOrder),
    Branch(Width, Condition, SourceOperand),
    Jump,
    JumpFar,
    Call,
    Exit,
    /// Loads a number or a map; the source field selects which.
    Wide,
    Load(Size),
    LoadSigned(SignedSize),
    StoreImmediate(Size),
    StoreRegister(Size),
}

/// The opcode of a wide instruction: mode IMM, eight bytes, class LD.
const WIDE: u8 = 0x18;

impl OpcodeMeaning {
    /// Returns the operation of an opcode, or `None` if no instruction has it.
    pub(crate) fn of(opcode: u8) -> Option<OpcodeMeaning>
        ensures { result ≡ operation_at opcode }
    {
        let code = opcode / 16;
        let source = if opcode / 8 % 2 == 0 {
            SourceOperand::Immediate
        } else {
            SourceOperand::Register
        };
        match opcode % 8 {
            LD => (opcode == WIDE).then_some(OpcodeMeaning::Wide),
            LDX => load(opcode / 32, opcode / 8 % 4),
            ST => store_immediate(opcode / 32, opcode / 8 % 4),
            STX => store_register(opcode / 32, opcode / 8 % 4),
            ALU => arithmetic(code, source, Width::W32),
            JMP => jump(code, source, Width::W64),
            JMP32 => jump(code, source, Width::W32),
            _ => arithmetic(code, source, Width::W64),
        }
    }
}

/// Returns the operation of a code in class ALU or ALU64.
fn arithmetic(code: u8, source: SourceOperand, width: Width) -> Option<OpcodeMeaning>
    ensures { result ≡ arithmetic_at code source width }
{
    if let Some(op) = binary_op(code) {
        return Some(OpcodeMeaning::Binary(width, op, source));
    }
    if let Some(op) = division_op(code) {
        return Some(OpcodeMeaning::Division(width, op, source));
    }
    match (code, source, width) {
        (NEG, SourceOperand::Immediate, _) => Some(OpcodeMeaning::Negate(width)),
        (MOV, _, _) => Some(OpcodeMeaning::Move(width, source)),
        (END, SourceOperand::Immediate, Width::W32) => Some(OpcodeMeaning::Reorder(
            ByteOrder::Little,
        )),
        (END, SourceOperand::Register, Width::W32) => Some(OpcodeMeaning::Reorder(ByteOrder::Big)),
        (END, SourceOperand::Immediate, Width::W64) => Some(OpcodeMeaning::Reorder(
            ByteOrder::Swap,
        )),
        _ => None,
    }
}

/// Returns the operation of a code in class JMP or JMP32.
fn jump(code: u8, source: SourceOperand, width: Width) -> Option<OpcodeMeaning>
    ensures { result ≡ jump_at code source width }
{
    if let Some(condition) = condition(code) {
        return Some(OpcodeMeaning::Branch(width, condition, source));
    }
    match (code, source, width) {
        (JA, SourceOperand::Immediate, Width::W64) => Some(OpcodeMeaning::Jump),
        (JA, SourceOperand::Immediate, Width::W32) => Some(OpcodeMeaning::JumpFar),
        (CALL, SourceOperand::Immediate, Width::W64) => Some(OpcodeMeaning::Call),
        (EXIT, SourceOperand::Immediate, Width::W64) => Some(OpcodeMeaning::Exit),
        _ => None,
    }
}

/// Returns the operation of a mode and a size in class LDX.
fn load(mode: u8, size: u8) -> Option<OpcodeMeaning>
    ensures { result ≡ load_at mode size }
{
    match mode {
        MEM => Some(OpcodeMeaning::Load(size_of(size))),
        MEMSX => Some(OpcodeMeaning::LoadSigned(signed_size_of(size)?)),
        _ => None,
    }
}

/// Returns the operation of a mode and a size in class ST.
fn store_immediate(mode: u8, size: u8) -> Option<OpcodeMeaning>
    ensures { result ≡ store_immediate_at mode size }
{
    (mode == MEM).then_some(OpcodeMeaning::StoreImmediate(size_of(size)))
}

/// Returns the operation of a mode and a size in class STX.
fn store_register(mode: u8, size: u8) -> Option<OpcodeMeaning>
    ensures { result ≡ store_register_at mode size }
{
    (mode == MEM).then_some(OpcodeMeaning::StoreRegister(size_of(size)))
}

fn binary_op(code: u8) -> Option<BinaryOp>
    ensures { result ≡ binary_at code }
{
    match code {
        ADD => Some(BinaryOp::Add),
        SUB => Some(BinaryOp::Sub),
        MUL => Some(BinaryOp::Mul),
        OR => Some(BinaryOp::Or),
        AND => Some(BinaryOp::And),
        LSH => Some(BinaryOp::Lsh),
        RSH => Some(BinaryOp::Rsh),
        XOR => Some(BinaryOp::Xor),
        ARSH => Some(BinaryOp::Arsh),
        _ => None,
    }
}

fn division_op(code: u8) -> Option<DivisionOp>
    ensures { result ≡ division_at code }
{
    match code {
        DIV => Some(DivisionOp::Div),
        MOD => Some(DivisionOp::Mod),
        _ => None,
    }
}

fn condition(code: u8) -> Option<Condition>
    ensures { result ≡ condition_at code }
{
    match code {
        JEQ => Some(Condition::Equal),
        JGT => Some(Condition::Above),
        JGE => Some(Condition::AtLeast),
        JSET => Some(Condition::AnyBit),
        JNE => Some(Condition::NotEqual),
        JSGT => Some(Condition::SignedAbove),
        JSGE => Some(Condition::SignedAtLeast),
        JLT => Some(Condition::Below),
        JLE => Some(Condition::AtMost),
        JSLT => Some(Condition::SignedBelow),
        JSLE => Some(Condition::SignedAtMost),
        _ => None,
    }
}

fn size_of(size: u8) -> Size
    ensures { result ≡ size_at size }
{
    match size {
        W => Size::Word,
        H => Size::Half,
        B => Size::Byte,
        _ => Size::Double,
    }
}

fn signed_size_of(size: u8) -> Option<SignedSize>
    ensures { result ≡ signed_size_at size }
{
    match size {
        W => Some(SignedSize::Word),
        H => Some(SignedSize::Half),
        B => Some(SignedSize::Byte),
        _ => None,
    }
}
