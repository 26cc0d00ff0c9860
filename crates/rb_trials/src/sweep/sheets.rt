//! Sheets (byte buffers), as a caller makes them.

ghost use Rattle.std.specs.Prelude.{◌≡◌, IfSome, length};

use super::memory::TRIES;
use crate::fault::TrialFault;
use crate::fields::{end_line, print_field};
use rb_lend::{Lent, Sheet};
use std::alloc::Global;
use std::io::Print;

/// The length of a long sheet. Up to 16 bytes would be stored in the sheet itself, without an allocation.
pub(crate) const LONG: u32 = 24;

// The length of a long sheet after it was renewed.
const LONGER: u32 = 32;

// The byte that fills each sheet.
const FILL: u8 = 42;

/// Returns a sheet of `n` bytes that are all 42, unless the allocation fails.
pub(crate) fn filled(alloc: Global, n: u32) -> Option<Sheet>
    ensures { IfSome result (λ sheet. length sheet ≡ n) }
{
    let Ok(mut sheet) = Sheet::new(alloc, n) else {
        return None;
    };
    sheet.bytes_mut().fill(FILL);
    Some(sheet)
}

/// Returns whether the sheet is one that `filled` makes with `n` bytes.
pub(crate) fn is_filled(sheet: &Sheet, n: u32) -> bool {
    sheet.len() == n && sheet.bytes().iter().all(|byte| *byte == FILL)
}

/// Renews the sheet as a longer one.
pub(crate) fn renew<R: Print>(rt: &R, sheet: Sheet) -> Result<(), TrialFault> {
    let mut sheet = sheet;
    tell_sheet(rt, "sheet", &sheet);
    for _ in 0..TRIES {
        match sheet.renew(LONGER) {
            Ok(longer) => {
                tell_sheet(rt, "renew", &longer);
                return Ok(());
            }
            Err((_, back)) => sheet = back,
        }
        tell_sheet(rt, "renew memory", &sheet);
    }
    Err(TrialFault::Twice("renew"))
}

// Prints the sheet's length, and the sum of its bytes.
fn tell_sheet<R: Print>(rt: &R, call: &str, sheet: &Sheet) {
    let mut sum: u64 = 0;
    for byte in sheet.bytes() {
        sum = sum.wrapping_add(u64::from(*byte));
    }
    print_field(rt, call, &": ");
    print_field(rt, "", &sheet.len());
    print_field(rt, " bytes, sum ", &sum);
    end_line(rt);
}
