//! Decodes the instruction that begins at a unit.

ghost use Rattle.std.specs.Prelude.{◌≡◌, ◌≢◌, ◌≤◌, ◌<◌, ◌*◌, length, take, slice_index, IfOk, IfErr};
ghost use Rattle.rb_insn.specs.Spelling.{Spells};
ghost use Rattle.rb_insn.specs.Units.{units_taken};
ghost use Rattle.rb_program.specs.DecodeFaults.{IsFirstKind, is_left_out as is_left_out_of};
ghost use Rattle.rb_program.specs.inner.SecondUnit.{has_zeros as has_zeros_at, IsSecondUnit, IsSecondFault};

use crate::fault::DecodeKind;
use crate::fields::{Fields, read_fields, read_next_imm};
use crate::opcode_meaning::OpcodeMeaning;
use rb_insn::Insn;

/// Returns whether the unit is an instruction that this project does not support.
fn is_left_out(fields: &Fields) -> bool
    ensures { result ≡ is_left_out_of fields.now }
{
    match fields.opcode {
        0x20 | 0x28 | 0x30 | 0x40 | 0x48 | 0x50 | 0xc3 | 0xdb | 0x8d => true,
        0x18 => matches!(fields.src, 1 | 2 | 3 | 4 | 6),
        0x85 => matches!(fields.src, 1 | 2),
        _ => false,
    }
}

/// Returns whether the bytes before the second immediate of the wide instruction at the front are zero.
fn has_zeros(bytes: &[u8]) -> bool
    requires { 16 ≤ length bytes.now }
    ensures { result ≡ has_zeros_at bytes.now }
{
    bytes[8] == 0 && bytes[9] == 0 && bytes[10] == 0 && bytes[11] == 0
}

/// Returns the second immediate of the wide instruction at the front.
fn second_unit(bytes: &[u8], src: u8) -> Result<u32, DecodeKind>
    ensures ok { IfOk result (IsSecondUnit bytes.now src) }
    ensures err { IfErr result (IsSecondFault bytes.now src) }
{
    if bytes.len() < 16 {
        return Err(DecodeKind::HalfWide);
    }
    let next_imm = read_next_imm(bytes);
    if has_zeros(bytes) && (src == 0 || next_imm == 0) {
        Ok(next_imm)
    } else {
        Err(DecodeKind::UnusedField)
    }
}

/// Returns the instruction at the front of the bytes, or the first fault there.
pub(crate) fn insn_at(bytes: &[u8]) -> Result<Insn, DecodeKind>
    requires { 8 ≤ length bytes.now }
    ensures within { IfOk result (λ insn. 8 * units_taken insn ≤ length bytes.now) }
    ensures ok { IfOk result (λ insn. Spells insn (take (8 * units_taken insn) bytes.now)) }
    ensures err { IfErr result (λ kind. IsFirstKind kind bytes.now) }
{
    let fields = read_fields(bytes);
    if is_left_out(&fields) {
        return Err(DecodeKind::LeftOut);
    }
    let Some(operation) = OpcodeMeaning::of(fields.opcode) else {
        return Err(DecodeKind::BadOpcode);
    };
    if !operation.is_named_by(&fields) {
        return Err(DecodeKind::BadOpcode);
    }
    if !operation.has_registers(&fields) {
        return Err(DecodeKind::BadRegister);
    }
    if !operation.has_numbers(&fields) {
        return Err(DecodeKind::UnusedField);
    }
    if operation.is_wide() {
        let next_imm = second_unit(bytes, fields.src)?;
        Ok(operation.insn(&fields, next_imm))
    } else {
        Ok(operation.insn(&fields, 0))
    }
}
