//! The measured programs, as bytes.

use rb_insn::{BinaryOp, Insn, Operand, Reg, Size, Width};
use std::alloc::{AllocError, Global};

/// Reserves a record of eight bytes on ring 0, and returns 1 if it is null; otherwise stores 42 there, submits it, and
/// returns 0.
pub(crate) const RESERVING: [u8; 112] = [
    0x18, 0x51, 0, 0, 0, 0, 0, 0, 0, 0, 0, 0, 0, 0, 0, 0, // r1 = map_by_idx(0)
    0xb7, 0x02, 0, 0, 8, 0, 0, 0, // r2 = 8
    0xb7, 0x03, 0, 0, 0, 0, 0, 0, // r3 = 0
    0x85, 0, 0, 0, 131, 0, 0, 0, // call bpf_ringbuf_reserve
    0x55, 0, 2, 0, 0, 0, 0, 0, // if r0 != 0 goto +2
    0xb7, 0, 0, 0, 1, 0, 0, 0, // r0 = 1
    0x95, 0, 0, 0, 0, 0, 0, 0, // exit
    0x7a, 0, 0, 0, 42, 0, 0, 0, // *(u64 *)(r0 + 0) = 42
    0xbf, 0x01, 0, 0, 0, 0, 0, 0, // r1 = r0
    0xb7, 0x02, 0, 0, 0, 0, 0, 0, // r2 = 0
    0x85, 0, 0, 0, 132, 0, 0, 0, // call bpf_ringbuf_submit
    0xb7, 0, 0, 0, 0, 0, 0, 0, // r0 = 0
    0x95, 0, 0, 0, 0, 0, 0, 0, // exit
];

// Sets r6 to the context, r7 to a record of eight bytes of ring 0, and r0 to 7. If there is no record, the program
// returns 1.
const RECORD_RESERVED: [u8; 88] = [
    0xbf, 0x16, 0, 0, 0, 0, 0, 0, // r6 = r1
    0x18, 0x51, 0, 0, 0, 0, 0, 0, 0, 0, 0, 0, 0, 0, 0, 0, // r1 = map_by_idx(0)
    0xb7, 0x02, 0, 0, 8, 0, 0, 0, // r2 = 8
    0xb7, 0x03, 0, 0, 0, 0, 0, 0, // r3 = 0
    0x85, 0, 0, 0, 131, 0, 0, 0, // call bpf_ringbuf_reserve
    0x55, 0, 2, 0, 0, 0, 0, 0, // if r0 != 0 goto +2
    0xb7, 0, 0, 0, 1, 0, 0, 0, // r0 = 1
    0x95, 0, 0, 0, 0, 0, 0, 0, // exit
    0xbf, 0x07, 0, 0, 0, 0, 0, 0, // r7 = r0
    0xb7, 0, 0, 0, 7, 0, 0, 0, // r0 = 7
];

// Discards the record in r7, and returns r0.
const RECORD_DISCARDED: [u8; 48] = [
    0xbf, 0x08, 0, 0, 0, 0, 0, 0, // r8 = r0
    0xbf, 0x71, 0, 0, 0, 0, 0, 0, // r1 = r7
    0xb7, 0x02, 0, 0, 0, 0, 0, 0, // r2 = 0
    0x85, 0, 0, 0, 133, 0, 0, 0, // call bpf_ringbuf_discard
    0xbf, 0x80, 0, 0, 0, 0, 0, 0, // r0 = r8
    0x95, 0, 0, 0, 0, 0, 0, 0, // exit
];

/// What a program does between its first unit and its exit.
#[derive(Clone, Copy)]
pub(crate) enum Body {
    /// It adds, xors, multiplies, shifts and adds in turn.
    Arithmetic,
    /// It stores and loads eight bytes on the stack in turn.
    Stack,
    /// It stores and loads eight bytes on the stack, loads eight bytes of the context, and stores and loads eight bytes
    /// in a record, in turn.
    Memory,
    /// It stores a pointer at each of the stack's 64 places in turn, repeatedly.
    Spilling,
}

/// Returns a program of this kind that executes `units` instructions and an exit.
pub(crate) fn program_of(alloc: Global, body: Body, units: u32) -> Result<Vec<u8>, AllocError> {
    let mut bytes = Vec::new(alloc);
    let beside = push_start(&mut bytes, body)?;
    for unit in beside..units {
        push(&mut bytes, &unit_of(body, unit))?;
    }
    push_end(&mut bytes, body)?;
    Ok(bytes)
}

// Appends the instructions before the units, and returns how many instructions are executed besides the units and the
// exit.
fn push_start(bytes: &mut Vec<u8>, body: Body) -> Result<u32, AllocError> {
    match body {
        Body::Arithmetic => {
            push(bytes, &set(Reg::R0, 7))?;
            push(bytes, &set(Reg::R2, 12_345))?;
            Ok(2)
        }
        Body::Stack | Body::Spilling => {
            push(bytes, &set(Reg::R0, 7))?;
            Ok(1)
        }
        Body::Memory => {
            bytes.extend_from_slice(RECORD_RESERVED.as_slice())?;
            Ok(13)
        }
    }
}

fn push_end(bytes: &mut Vec<u8>, body: Body) -> Result<(), AllocError> {
    match body {
        Body::Memory => bytes.extend_from_slice(RECORD_DISCARDED.as_slice()),
        _ => push(bytes, &Insn::Exit),
    }
}

fn unit_of(body: Body, unit: u32) -> Insn {
    match body {
        Body::Arithmetic => arithmetic_unit(unit),
        Body::Stack => stack_unit(unit),
        Body::Memory => memory_unit(unit),
        Body::Spilling => spill_unit(unit),
    }
}

fn arithmetic_unit(unit: u32) -> Insn {
    let (op, operand) = match unit % 5 {
        0 => (BinaryOp::Add, Operand::Register(Reg::R2)),
        1 => (BinaryOp::Xor, Operand::Immediate(0x123_4567)),
        2 => (BinaryOp::Mul, Operand::Immediate(0x123_4567)),
        3 => (BinaryOp::Lsh, Operand::Immediate(3)),
        _ => (BinaryOp::Add, Operand::Immediate(0x123_4567)),
    };
    Insn::Binary {
        width: Width::W64,
        op,
        dst: Reg::R0,
        operand,
    }
}

fn stack_unit(unit: u32) -> Insn {
    if unit % 2 == 1 {
        store(Reg::R10, -8, Reg::R0)
    } else {
        load(Reg::R0, Reg::R10, -8)
    }
}

fn memory_unit(unit: u32) -> Insn {
    match unit % 5 {
        0 => store(Reg::R10, -8, Reg::R0),
        1 => load(Reg::R0, Reg::R10, -8),
        2 => load(Reg::R1, Reg::R6, 0),
        3 => store(Reg::R7, 0, Reg::R0),
        _ => load(Reg::R0, Reg::R7, 0),
    }
}

fn spill_unit(unit: u32) -> Insn {
    store(Reg::R10, -8 - (unit % 64) as i16 * 8, Reg::R10)
}

fn load(dst: Reg, base: Reg, offset: i16) -> Insn {
    Insn::Load {
        size: Size::Double,
        dst,
        base,
        offset,
    }
}

fn store(base: Reg, offset: i16, src: Reg) -> Insn {
    Insn::StoreRegister {
        size: Size::Double,
        base,
        offset,
        src,
    }
}

fn set(dst: Reg, value: i32) -> Insn {
    Insn::Move {
        width: Width::W64,
        dst,
        operand: Operand::Immediate(value),
    }
}

// Appends the encoding of an instruction.
fn push(bytes: &mut Vec<u8>, insn: &Insn) -> Result<(), AllocError> {
    let mut unit = [0; 16];
    let count = insn.spell(&mut unit);
    bytes.extend_from_slice(&unit[..count])
}
