//! A record's header, as eight bytes.

ghost use Rattle.std.specs.Prelude.{◌≡◌, ◌<◌, ◌^◌, ◌&&◌, ◌↔◌, false, IsErr, IfOk};

use byteorder::{ByteOrder, LittleEndian};
use thiserror::Error;

/// The bit of a header's length word that marks a busy record: bit 31, above the 30 bits of the length and the discard
/// bit (Linux include/uapi/linux/bpf.h, BPF_RINGBUF_BUSY_BIT).
pub const BUSY_BIT: u32 = 1 << 31;

/// The bit of a header's length word that marks a discarded record: bit 30, just above the length (Linux
/// include/uapi/linux/bpf.h, BPF_RINGBUF_DISCARD_BIT).
pub const DISCARD_BIT: u32 = 1 << 30;

/// The maximal length in bytes of a record that a header can describe: 2^30 - 1, since the length has the 30 bits below
/// the discard bit.
///
/// A ring of `size` bytes has room only for records of at most `size - 16` bytes (`specs/RoomRule.antt`), and a program
/// may reserve at most 2^26 (`MAX_RECORD` in `rb_verifier`).
pub const MAX_RECORD_LEN: u32 = DISCARD_BIT - 1;

/// The header of a record: its length, its state and its page. It is written as eight bytes in front of the record.
/// (Linux Documentation/bpf/ringbuf.rst.)
#[derive(Clone, Copy, Debug, PartialEq, Eq)]
pub struct Header {
    /// The length of the record in bytes, less than 2^30.
    pub len: u32,
    /// Whether the record was neither submitted nor discarded yet.
    pub busy: bool,
    /// Whether the record was discarded, so that the consumer skips it.
    pub discard: bool,
    /// The page of 4,096 bytes in which the record begins, counted from the start of the ring's bytes.
    pub page: u32,
}

/// Why eight bytes are not the header of a record.
#[derive(Clone, Copy, Debug, PartialEq, Eq, Error)]
pub enum HeaderFault {
    /// The busy bit and the discard bit are both set.
    #[error("the header is both busy and discarded")]
    LengthWithBusyAndDiscard,
}

impl Header {
    ghost use Rattle.rb_history.specs.Header.{header_bytes, IsHeader, HasBothBits};

    /// Returns the header as eight bytes: the length word, and then the page, both in little-endian order. Bits 0 to 29
    /// of the length word are the length, bit 30 is the discard bit, and bit 31 the busy bit.
    ///
    /// Takes constant time.
    pub fn to_bytes(&self) -> [u8; 8]
        requires len { self.now.len < 2 ^ 30 }
        requires one_bit { (self.now.busy && self.now.discard) ≡ false }
        ensures { result ≡ header_bytes self.now }
    {
        let mut word = self.len;
        if self.discard {
            word |= DISCARD_BIT;
        }
        if self.busy {
            word |= BUSY_BIT;
        }
        let mut bytes = [0; 8];
        LittleEndian::write_u32(&mut bytes, word);
        LittleEndian::write_u32(&mut bytes[4..], self.page);
        bytes
    }

    /// Parses eight bytes as a header. Returns the only header that `to_bytes` writes as these bytes, or
    /// `LengthWithBusyAndDiscard` if and only if both bits are set.
    ///
    /// Takes constant time.
    pub fn from_bytes(bytes: &[u8; 8]) -> Result<Header, HeaderFault>
        ensures found { IfOk result (λ h. IsHeader h × (header_bytes h ≡ bytes.now)) }
        ensures only { (h : Header) → IsHeader h → header_bytes h ≡ bytes.now → result ≡ Ok h }
        ensures fault { IsErr result ↔ HasBothBits bytes.now }
    {
        let word = LittleEndian::read_u32(bytes);
        let page = LittleEndian::read_u32(&bytes[4..]);
        let busy = word & BUSY_BIT != 0;
        let discard = word & DISCARD_BIT != 0;
        if busy && discard {
            return Err(HeaderFault::LengthWithBusyAndDiscard);
        }
        Ok(Header {
            len: word & (DISCARD_BIT - 1),
            busy,
            discard,
            page,
        })
    }
}
