//! Numbers in memory, the lowest byte first.

ghost use Rattle.std.specs.Prelude.{◌≡◌, length};
ghost use Rattle.byteorder.specs.Endian.{little_number, little_bytes};
ghost use Rattle.rb_insn.specs.Sizes.{byte_count, signed_byte_count};
ghost use Rattle.rb_semantics.specs.Instructions.{signed_number};

use byteorder::{ByteOrder, LittleEndian};
use rb_insn::{Extend64, SignedSize, Size, sign_extended};

#[inline(always)]
/// Returns the number in the given bytes.
pub(crate) fn number_in(size: Size, bytes: &[u8]) -> u64
    requires { length bytes.now ≡ byte_count size }
    ensures { result ≡ little_number (byte_count size) bytes.now }
{
    match size {
        Size::Byte => u64::from(bytes[0]),
        Size::Half => u64::from(LittleEndian::read_u16(bytes)),
        Size::Word => u64::from(LittleEndian::read_u32(bytes)),
        Size::Double => LittleEndian::read_u64(bytes),
    }
}

/// Returns the number in the given bytes, sign-extended to 64 bits.
pub(crate) fn signed_number_in(size: SignedSize, bytes: &[u8]) -> u64
    requires { length bytes.now ≡ signed_byte_count size }
    ensures { result ≡ signed_number (signed_byte_count size) bytes.now }
{
    match size {
        SignedSize::Byte => sign_extended(Extend64::From8, u64::from(bytes[0])),
        SignedSize::Half => {
            sign_extended(Extend64::From16, u64::from(LittleEndian::read_u16(bytes)))
        }
        SignedSize::Word => {
            sign_extended(Extend64::From32, u64::from(LittleEndian::read_u32(bytes)))
        }
    }
}

#[inline(always)]
/// Writes the low bytes of a number, the lowest first.
pub(crate) fn put_number(size: Size, bytes: &mut [u8], number: u64)
    requires { length bytes.old ≡ byte_count size }
    ensures { bytes.new ≡ little_bytes (byte_count size) number }
{
    match size {
        Size::Byte => bytes[0] = (number % (1 << 8)) as u8,
        Size::Half => LittleEndian::write_u16(bytes, (number % (1 << 16)) as u16),
        Size::Word => LittleEndian::write_u32(bytes, (number % (1 << 32)) as u32),
        Size::Double => LittleEndian::write_u64(bytes, number),
    }
}
