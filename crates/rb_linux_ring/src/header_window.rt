//! The headers of submitted records on one page of a Linux ring.

ghost use Rattle.std.specs.Prelude.{◌≡◌, ◌+◌, ◌-◌, ◌*◌, ◌%◌, ◌^◌, ◌<◌, ◌≤◌, min};
ghost use Rattle.rb_history.specs.TapeBytes as tapes;
ghost use Rattle.rb_linux_ring.specs.LinuxHeaders.{IsLinuxPlace, IsLinuxRingSize};
ghost use Rattle.rb_linux_ring.specs.LinuxWindows.{IsLinuxWindow};

use rb_history::{MAX_RECORD_LEN, page_of};

/// The size of a page in bytes (Linux Documentation/bpf/ringbuf.rst).
const PAGE: u64 = 4096;

/// The maximal length of a record in bytes that a header can describe.
const MAX_LEN: u64 = MAX_RECORD_LEN as u64;

/// The headers of submitted records from a position up to the end of its page. They all name the same page, so a reader
/// recognizes them with one subtraction and one comparison.
#[derive(Clone, Copy, Debug, PartialEq, Eq)]
pub struct LinuxWindow {
    /// The header of an empty record. That of a record of `n` bytes is greater by `n`.
    pub first: u64,
    /// The maximal length of such a record in bytes.
    pub max_len: u32,
    /// The position at which the page ends.
    pub end: u64,
}

// Returns the page of a position, as headers give it.
fn page_in_header(size: u64, position: u64, pages: u32) -> u64
    requires size { IsLinuxRingSize size }
    ensures { result ≡ pages + tapes.page_of size position }
{
    u64::from(pages) + page_of(size, position)
}

// Returns the header of an empty submitted record on this page.
fn empty_header(page: u64) -> u64
    requires page { page < 2 ^ 32 }
    ensures { result ≡ page * 2 ^ 32 }
{
    page << 32
}

// Returns the maximal length of a record in a ring of this size.
fn max_len(size: u64) -> u32
    requires size { 4096 ≤ size }
    ensures { result ≡ min (size - 16) 1073741823 }
{
    (size - 16).min(MAX_LEN) as u32
}

// Returns the position at which the page of this position ends.
fn page_end(position: u64) -> u64
    requires position { position ≤ 2 ^ 61 }
    ensures { result ≡ position - position % 4096 + 4096 }
{
    position - position % PAGE + PAGE
}

/// Returns the headers of submitted records from this position up to the end of its page, in a ring with `size` bytes
/// of data.
///
/// Takes constant time and does not allocate.
pub fn linux_window(size: u64, position: u64, pages_before_data: u32) -> LinuxWindow
    requires place { IsLinuxPlace size position }
    requires pages { pages_before_data < 2 ^ 31 }
    ensures window { IsLinuxWindow size position pages_before_data result }
{
    let page = page_in_header(size, position, pages_before_data);
    LinuxWindow {
        first: empty_header(page),
        max_len: max_len(size),
        end: page_end(position),
    }
}
