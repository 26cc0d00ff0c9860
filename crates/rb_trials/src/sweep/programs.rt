//! From bytes to a verified program.

use super::memory::{TRIES, tell_memory};
use crate::fault::TrialFault;
use rb_program::{DecodeKind, Program, Shape, ShapeFaultKind, decode, shape};
use rb_verifier::{Refusal, Verified, verify};
use std::alloc::Global;
use std::io::Print;

/// Reserves a record of 24 bytes, and returns 0 if it is null. Otherwise writes 42 into it, submits it, and returns 1.
pub(crate) const RESERVE: [u8; 96] = [
    0x18, 0x51, 0, 0, 0, 0, 0, 0, 0, 0, 0, 0, 0, 0, 0, 0, // r1 = map_by_idx(0)
    0xb7, 0x02, 0, 0, 24, 0, 0, 0, // r2 = 24
    0xb7, 0x03, 0, 0, 0, 0, 0, 0, // r3 = 0
    0x85, 0, 0, 0, 131, 0, 0, 0, // call bpf_ringbuf_reserve
    0x15, 0, 5, 0, 0, 0, 0, 0, // if r0 == 0 goto +5
    0x7a, 0, 0, 0, 42, 0, 0, 0, // *(u64 *)(r0 + 0) = 42
    0xbf, 0x01, 0, 0, 0, 0, 0, 0, // r1 = r0
    0xb7, 0x02, 0, 0, 0, 0, 0, 0, // r2 = 0
    0x85, 0, 0, 0, 132, 0, 0, 0, // call bpf_ringbuf_submit
    0xb7, 0, 0, 0, 1, 0, 0, 0, // r0 = 1
    0x95, 0, 0, 0, 0, 0, 0, 0, // exit
];

/// Outputs 24 bytes of its stack, and returns the helper's answer.
pub(crate) const OUTPUT: [u8; 88] = [
    0x7a, 0x0a, 0xe8, 0xff, 1, 0, 0, 0, // *(u64 *)(r10 - 24) = 1
    0x7a, 0x0a, 0xf0, 0xff, 2, 0, 0, 0, // *(u64 *)(r10 - 16) = 2
    0x7a, 0x0a, 0xf8, 0xff, 3, 0, 0, 0, // *(u64 *)(r10 - 8) = 3
    0xbf, 0xa2, 0, 0, 0, 0, 0, 0, // r2 = r10
    0x07, 0x02, 0, 0, 0xe8, 0xff, 0xff, 0xff, // r2 += -24
    0x18, 0x51, 0, 0, 0, 0, 0, 0, 0, 0, 0, 0, 0, 0, 0, 0, // r1 = map_by_idx(0)
    0xb7, 0x03, 0, 0, 24, 0, 0, 0, // r3 = 24
    0xb7, 0x04, 0, 0, 0, 0, 0, 0, // r4 = 0
    0x85, 0, 0, 0, 130, 0, 0, 0, // call bpf_ringbuf_output
    0x95, 0, 0, 0, 0, 0, 0, 0, // exit
];

/// Returns a program, verified for no context and one ring.
pub(crate) fn verified<R: Print>(
    rt: &R,
    alloc: Global,
    bytes: &[u8],
) -> Result<Verified, TrialFault> {
    for _ in 0..TRIES {
        let shape = shaped(rt, alloc, bytes)?;
        match verify(alloc, shape, 0, 1) {
            Ok(verified) => return Ok(verified),
            Err(Refusal::Memory) => tell_memory(rt, "verify"),
            Err(_) => return Err(TrialFault::Otherwise("verify")),
        }
    }
    Err(TrialFault::Twice("verify"))
}

fn shaped<R: Print>(rt: &R, alloc: Global, bytes: &[u8]) -> Result<Shape, TrialFault> {
    for _ in 0..TRIES {
        let program = decoded(rt, alloc, bytes)?;
        match shape(alloc, program) {
            Ok(shape) => return Ok(shape),
            Err(fault) if fault.kind == ShapeFaultKind::Memory => tell_memory(rt, "shape"),
            Err(_) => return Err(TrialFault::Otherwise("shape")),
        }
    }
    Err(TrialFault::Twice("shape"))
}

fn decoded<R: Print>(rt: &R, alloc: Global, bytes: &[u8]) -> Result<Program, TrialFault> {
    for _ in 0..TRIES {
        match decode(alloc, bytes) {
            Ok(program) => return Ok(program),
            Err(fault) if fault.kind == DecodeKind::Memory => tell_memory(rt, "decode"),
            Err(_) => return Err(TrialFault::Otherwise("decode")),
        }
    }
    Err(TrialFault::Twice("decode"))
}
