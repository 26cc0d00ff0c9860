//! Sheets, as a caller creates them.

ghost use Rattle.std.specs.Prelude.{◌≡◌, IfSome, length};

use rb_lend::{Lent, Sheet};
use std::alloc::Global;

// The byte that fills a sheet before it is passed to a ring.
const FILL: u8 = 255;

/// Returns a sheet with a copy of these bytes.
pub(crate) fn copied(alloc: Global, bytes: &[u8]) -> Option<Sheet> {
    let Ok(n) = u32::try_from(bytes.len()) else {
        return None;
    };
    let Ok(mut sheet) = Sheet::new(alloc, n) else {
        return None;
    };
    sheet.bytes_mut().copy_from_slice(bytes);
    Some(sheet)
}

/// Returns a sheet of `n` bytes of 255.
pub(crate) fn filled(alloc: Global, n: u32) -> Option<Sheet>
    ensures { IfSome result (λ sheet. length sheet ≡ n) }
{
    let Ok(mut sheet) = Sheet::new(alloc, n) else {
        return None;
    };
    sheet.bytes_mut().fill(FILL);
    Some(sheet)
}

/// Returns two sheets of `n` bytes of 255.
pub(crate) fn filled_twice(alloc: Global, n: u32) -> Option<(Sheet, Sheet)>
    ensures first { IfSome result (λ sheets. length sheets.0 ≡ n) }
    ensures second { IfSome result (λ sheets. length sheets.1 ≡ n) }
{
    Some((filled(alloc, n)?, filled(alloc, n)?))
}

/// Returns two sheets with a copy of these bytes.
pub(crate) fn copied_twice(alloc: Global, bytes: &[u8]) -> Option<(Sheet, Sheet)> {
    Some((copied(alloc, bytes)?, copied(alloc, bytes)?))
}

/// Writes bytes from byte `at` on, unless they do not fit. Returns whether they fit.
pub(crate) fn write_at<T: Lent>(target: &mut T, at: u64, bytes: &[u8]) -> bool {
    let length = target.bytes().len();
    let Ok(at) = usize::try_from(at) else {
        return false;
    };
    if at > length || bytes.len() > length - at {
        return false;
    }
    target.range_mut(at, bytes.len()).copy_from_slice(bytes);
    true
}
