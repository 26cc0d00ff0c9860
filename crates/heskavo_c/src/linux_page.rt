//! The export that reports the headers of submitted records on a page of a ring of Linux.

ghost use Rattle.std.specs.Prelude.{◌≡◌, ◌≢◌, ◌<◌, ◌^◌, ◌↔◌, ◌⊎◌};
ghost use Rattle.rb_linux_ring.specs.LinuxHeaders.{IsLinuxPlace};
ghost use Rattle.rb_linux_ring.specs.LinuxWindows.{IsLinuxWindow};
ghost use Rattle.heskavo_c.specs.LinuxRecords.{window_of_page};

use crate::status::{ARGUMENT, DONE};
use rb_linux_ring::{is_linux_place, linux_window};

/// One more than the maximal number of pages that a ring may have before its data.
const PAGES_END: u32 = 1 << 31;

/// The headers of submitted records from a position to the end of its page.
#[repr(C)]
#[derive(Clone, Copy)]
pub struct LinuxPage {
    /// The header of a record of no bytes; that of a record of `n` bytes is higher by `n`.
    pub first: u64,
    /// The position at which the page ends.
    pub end: u64,
    /// The maximal number of bytes of a record there.
    pub max_len: u32,
}

#[unsafe(no_mangle)]
/// Reports the headers of submitted records from `position` to the end of its page, in a ring of Linux with `size`
/// bytes of data.
///
/// Returns `DONE`. Returns `ARGUMENT` if the size is not a power of two from 4,096 to 2^36, if the position is not a
/// multiple of 8 or is above 2^61, or if `pages_before_data` is above 2^31 - 1.
///
/// Takes constant time.
pub extern "C" fn heskavo_linux_page(
    size: u64,
    position: u64,
    pages_before_data: u32,
    page: &mut LinuxPage,
) -> u32
    ensures page { result ≡ DONE → IsLinuxWindow size position pages_before_data (window_of_page page.new) }
    ensures argument { (result ≡ ARGUMENT) ↔ ¬ (IsLinuxPlace size position × (pages_before_data < 2 ^ 31)) }
    ensures unwritten { result ≢ DONE → page.new ≡ page.old }
    ensures answers { (result ≡ DONE) ⊎ (result ≡ ARGUMENT) }
{
    if pages_before_data >= PAGES_END || !is_linux_place(size, position) {
        return ARGUMENT;
    }
    let window = linux_window(size, position, pages_before_data);
    *page = LinuxPage {
        first: window.first,
        end: window.end,
        max_len: window.max_len,
    };
    DONE
}
