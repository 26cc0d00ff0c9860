//! The header of a record in a Linux ring.

ghost use Rattle.std.specs.Prelude.{◌≡◌, ◌^◌, ◌≤◌, ◌↔◌, IsTrue, IfErr, IfOk};
ghost use Rattle.rb_tape.specs.TapeFront.{FitsAt};
ghost use Rattle.rb_linux_ring.specs.LinuxHeaders.{HasLinuxPage, IsLinuxFault, IsLinuxPlace, IsLinuxRingSize, ShowsLinuxFront};

use rb_history::{Header, is_start, page_of, span};
use thiserror::Error;

/// The maximal number of data bytes of a Linux ring: 64 GiB (kernel/bpf/ringbuf.c, RINGBUF_MAX_DATA_SZ).
const MAX_SIZE: u64 = 1 << 36;

/// What a header describes.
#[derive(Clone, Copy, Debug, PartialEq, Eq)]
pub enum LinuxFront {
    /// A committed record.
    Record {
        /// The length of the payload in bytes.
        len: u32,
        /// Whether the record was discarded, so that the consumer skips it.
        discarded: bool,
        /// The position of the next record, in bytes.
        next: u64,
    },
    /// A reserved record that is neither submitted nor discarded yet.
    Busy,
}

/// What is wrong with a header: the first of these that applies.
#[derive(Clone, Copy, Debug, Error, PartialEq, Eq)]
pub enum LinuxFault {
    /// The busy bit and the discard bit are both set.
    #[error("the header is both busy and discarded")]
    BothBits,
    /// The header names another page than that of its position.
    #[error("the header names another page")]
    OtherPage,
    /// The record does not fit in the ring.
    #[error("the record does not fit in the ring")]
    NoRoom,
}

// Returns whether a Linux ring may have this size in bytes.
fn is_linux_size(size: u64) -> bool
    ensures test { IsTrue result ↔ IsLinuxRingSize size }
{
    if size < 4096 || size > MAX_SIZE {
        return false;
    }
    size.next_power_of_two() == size
}

/// Returns whether a header may be read at this position of a ring with `size` bytes of data: the size is a power of
/// two from 4,096 to 2^36, and the position is a multiple of 8 up to 2^61. Takes constant time.
pub fn is_linux_place(size: u64, position: u64) -> bool
    ensures test { IsTrue result ↔ IsLinuxPlace size position }
{
    is_linux_size(size) && is_start(position)
}

// Returns whether the header names the page of its position.
fn has_page(header: &Header, size: u64, position: u64, pages: u32) -> bool
    requires size { IsLinuxRingSize size }
    ensures test { IsTrue result ↔ HasLinuxPage size position pages header.now }
{
    u64::from(header.page) == u64::from(pages) + page_of(size, position)
}

// Returns whether the record fits in the ring.
fn has_room(len: u32, size: u64, position: u64) -> bool
    requires size { IsLinuxRingSize size }
    requires position { position ≤ 2 ^ 61 }
    ensures test { IsTrue result ↔ FitsAt size position len }
{
    span(len) < size
}

/// Decodes a record's header at this position of a ring with `size` bytes of data. Returns what it describes, or the
/// first `LinuxFault` that applies.
///
/// `header` is the header's eight bytes as one number: the length word, which the kernel writes last, in the lower
/// half, and the page in the upper half. `pages_before_data` is the number of pages that the ring's memory has before
/// its data: 3 in Linux 5.8 and later.
///
/// Takes constant time and does not allocate.
pub fn read_header(
    header: u64,
    size: u64,
    position: u64,
    pages_before_data: u32,
) -> Result<LinuxFront, LinuxFault>
    requires place { IsLinuxPlace size position }
    ensures front { IfOk result (ShowsLinuxFront size position pages_before_data header) }
    ensures fault { IfErr result (IsLinuxFault size position pages_before_data header) }
{
    let Ok(shown) = Header::from_bytes(&header.to_le_bytes()) else {
        return Err(LinuxFault::BothBits);
    };
    if !has_page(&shown, size, position, pages_before_data) {
        return Err(LinuxFault::OtherPage);
    }
    if !has_room(shown.len, size, position) {
        return Err(LinuxFault::NoRoom);
    }
    if shown.busy {
        return Ok(LinuxFront::Busy);
    }
    Ok(LinuxFront::Record {
        len: shown.len,
        discarded: shown.discard,
        next: position + span(shown.len),
    })
}
