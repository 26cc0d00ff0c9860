//! Decodes bytes to programs, and encodes programs as bytes.

ghost use Rattle.std.specs.Prelude.{◌≡◌, ◌⊎◌, ◌++◌, ◌∷◌, [], List, Ok, Err, IfOk, IfErr, OnOk};
ghost use Rattle.rb_insn.specs.declared.insn.Insn.{Insn};
ghost use Rattle.rb_insn.specs.Spelling.{SpellsAll};
ghost use Rattle.rb_program.specs.declared.fault.DecodeFault.{DecodeFault};
ghost use Rattle.rb_program.specs.FirstDecodeFault.{IsFirstDecodeFault, decode_no_memory, ProgramsHaveNoFault, FaultsAreUnique};
ghost use Rattle.rb_program.specs.Program.{IsProgram};
ghost use Rattle.rb_program.specs.DecodedUnits.{kept_units, insns_kept, AreUnits};
ghost use Rattle.rb_program.specs.inner.Decoded.{IsDecoded};

use crate::fault::{DecodeFault, DecodeKind};
use crate::insn_at::insn_at;
use crate::program::{MAX_UNITS, Program};
use rb_insn::Insn;
use std::alloc::{AllocError, Global};

/// Appends an instruction to the units.
fn push_insn(units: &mut Vec<Insn>, insn: Insn) -> Result<(), AllocError>
    ensures { OnOk result (units.new.items ≡ units.old.items ++ kept_units (insn ∷ [])) }
{
    units.push(insn)?;
    if insn.units() == 2 {
        units.push(Insn::Exit)?;
    }
    Ok(())
}

/// Returns the units of the program that the bytes encode, in the form that `Program` stores. An error is the first
/// fault of the bytes, or a failed allocation.
fn decode_units(alloc: Global, bytes: &[u8]) -> Result<Vec<Insn>, DecodeFault>
    ensures kept { IfOk result (λ units. AreUnits units.items) }
    ensures spelled { IfOk result (λ units. SpellsAll (insns_kept units.items) bytes.now) }
    ensures fault { IfErr result (λ fault. (fault ≡ decode_no_memory) ⊎ IsFirstDecodeFault bytes.now fault) }
{
    if bytes.is_empty() || bytes.len() % 8 != 0 {
        return Err(DecodeFault {
            unit: 0,
            kind: DecodeKind::Length,
        });
    }
    let count = bytes.len() / 8;
    if count > MAX_UNITS as usize {
        return Err(DecodeFault {
            unit: MAX_UNITS,
            kind: DecodeKind::TooLong,
        });
    }
    let mut units = Vec::with_capacity(alloc, count)?;
    while units.len() < count {
        let unit = units.len();
        match insn_at(&bytes[8 * unit..]) {
            Ok(insn) => push_insn(&mut units, insn)?,
            Err(kind) => {
                return Err(DecodeFault {
                    unit: unit as u32,
                    kind,
                });
            }
        }
    }
    Ok(units)
}

/// Returns the program that the bytes encode, or their first fault if they encode none.
///
/// A failed allocation may replace either result. Makes one pass over the bytes and visits each unit once.
pub fn decode(alloc: Global, bytes: &[u8]) -> Result<Program, DecodeFault>
    // The bytes encode the returned program, and a program that they encode is returned.
    ensures spelled { IfOk result (λ program. SpellsAll program bytes.now) }
    ensures only_program { (program : List Insn) → IsProgram program → SpellsAll program bytes.now
        → (result ≡ Ok program) ⊎ (result ≡ Err decode_no_memory) }

    // A returned fault is the first one, and if the bytes have a first fault, it is returned.
    ensures fault { IfErr result (λ fault. (fault ≡ decode_no_memory) ⊎ IsFirstDecodeFault bytes.now fault) }
    ensures only_fault { (fault : DecodeFault) → IsFirstDecodeFault bytes.now fault
        → (result ≡ Err fault) ⊎ (result ≡ Err decode_no_memory) }
{
    let units = decode_units(alloc, bytes)?;
    Ok(Program::from_units(units))
}

/// Returns the encoding of a program, 8 bytes for each of its units. Makes one pass over the program.
pub fn encode(alloc: Global, program: &Program) -> Result<Vec<u8>, AllocError>
    ensures { IfOk result (λ bytes. SpellsAll program.now bytes.items) }
{
    let mut bytes = Vec::with_capacity(alloc, 8 * program.units() as usize)?;
    for unit in 0..program.units() {
        if let Some(insn) = program.at(unit) {
            let mut spelling = [0; 16];
            let count = insn.spell(&mut spelling);
            bytes.extend_from_slice(&spelling[..count])?;
        }
    }
    Ok(bytes)
}

/// States the laws of decoding: bytes that encode a program have no fault, and bytes have at most one first fault.
///
/// For the proofs of callers; it does nothing at run time.
pub fn decoding_laws()
    ensures no_fault { ProgramsHaveNoFault }
    ensures unique { FaultsAreUnique }
{}
