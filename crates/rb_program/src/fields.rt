//! The fields of a unit (RFC 9669, section 3.1).

ghost use Rattle.std.specs.Prelude.{◌≡◌, ◌≤◌, length};
ghost use Rattle.rb_program.specs.UnitFields.{fields_at, next_imm_at};

use byteorder::{ByteOrder, LittleEndian};

/// The fields of a unit. The offset and the immediate are read as unsigned numbers.
#[derive(Clone, Copy)]
pub(crate) struct Fields {
    pub opcode: u8,
    pub dst: u8,
    pub src: u8,
    pub offset: u16,
    pub imm: u32,
}

/// Reads the fields of the first unit of `bytes`.
pub(crate) fn read_fields(bytes: &[u8]) -> Fields
    requires { 8 ≤ length bytes.now }
    ensures { result ≡ fields_at bytes.now }
{
    let registers = bytes[1];
    Fields {
        opcode: bytes[0],
        dst: registers % 16,
        src: registers / 16,
        offset: LittleEndian::read_u16(&bytes[2..]),
        imm: LittleEndian::read_u32(&bytes[4..]),
    }
}

/// Reads the immediate of the second unit of `bytes`.
pub(crate) fn read_next_imm(bytes: &[u8]) -> u32
    requires { 16 ≤ length bytes.now }
    ensures { result ≡ next_imm_at bytes.now }
{
    LittleEndian::read_u32(&bytes[12..])
}
