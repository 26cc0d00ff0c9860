//! Loads and runs of programs.

ghost use Rattle.std.specs.Prelude.{◌≤◌};

use super::programs::{Body, program_of};
use crate::fault::TrialFault;
use crate::verified_programs;
use rb_interp::{Listed, run};
use rb_program::decode;
use rb_verifier::Verified;
use std::alloc::Global;

/// The length of the context that the programs are verified for, in bytes.
const CONTEXT: u32 = 16;

/// Decodes, shapes and verifies a program, for `rings` rings.
pub(crate) fn load(alloc: Global, bytes: &[u8], rings: u32) -> Result<Verified, TrialFault>
    requires { rings ≤ 16 }
{
    match decode(alloc, bytes) {
        Ok(program) => verified_programs::verified(alloc, program, CONTEXT, rings),
        Err(_) => Err(TrialFault::Refused),
    }
}

/// Returns the program of `units` units of this kind, verified for one ring.
pub(crate) fn loaded(alloc: Global, body: Body, units: u32) -> Result<Verified, TrialFault> {
    let bytes = program_of(alloc, body, units)?;
    load(alloc, bytes.as_slice(), 1)
}

/// Loads a program for no ring `times` times, and returns how many units it had in all.
pub(crate) fn load_often(alloc: Global, bytes: &[u8], times: u32) -> Result<u64, TrialFault> {
    let mut units: u64 = 0;
    for _ in 0..times {
        let verified = load(alloc, bytes, 0)?;
        units = units.wrapping_add(u64::from(verified.program().units()));
    }
    Ok(units)
}

/// Runs a program `rounds` times over a context of 16 zero bytes, with helpers that grant every call, and returns the
/// sum of the results.
pub(crate) fn run_rounds(
    alloc: Global,
    program: &Verified,
    rounds: u32,
) -> Result<u64, TrialFault> {
    let context = [0; CONTEXT as usize];
    let calls = program.calls();
    let mut sum: u64 = 0;
    for _ in 0..rounds {
        let answers = vec![in alloc; true; calls]?;
        let mut helpers = Listed::new(alloc, answers)?;
        match run(program, context.as_slice(), &mut helpers) {
            Ok(value) => sum = sum.wrapping_add(value),
            Err(_) => return Err(TrialFault::Refused),
        }
    }
    Ok(sum)
}
