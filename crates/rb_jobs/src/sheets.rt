//! The sheets (byte buffers) of a call, which are made before the ring's lock is taken.

ghost use Rattle.std.specs.Prelude.{◌≡◌, ◌≤◌, IfSome, IsSome, length, replicate};

use crate::stock::{SHORT, Stock};
use rb_lend::{Lent, Sheet};
use std::alloc::Global;

// Gives a used sheet to the stock, which may drop it.
pub(crate) fn stock_sheet<S: Stock>(stock: &S, sheet: Sheet) {
    let _refused = stock.put(sheet);
}

#[inline(always)]
// Returns a sheet of `n` zero bytes. If they need an allocation, reuses a sheet of the stock if it has one. Returns
// `None` only if an allocation fails.
pub(crate) fn zero_sheet<S: Stock>(alloc: Global, stock: &S, n: u32) -> Option<Sheet>
    ensures zeros { IfSome result (λ s. s ≡ replicate n 0) }
    ensures short { n ≤ 16 → IsSome result }
{
    if n <= SHORT {
        return Sheet::new(alloc, n).ok();
    }
    long_sheet(alloc, stock, n)
}

#[inline(never)]
// Does the same for bytes that need an allocation.
fn long_sheet<S: Stock>(alloc: Global, stock: &S, n: u32) -> Option<Sheet>
    ensures { IfSome result (λ s. s ≡ replicate n 0) }
{
    match stock.used() {
        Some(sheet) => match sheet.renew(n) {
            Ok(sheet) => Some(sheet),
            Err(refused) => {
                stock_sheet(stock, refused.1);
                None
            }
        },
        None => Sheet::new(alloc, n).ok(),
    }
}

// Returns a sheet with a copy of the bytes, or `None` if an allocation fails or there are more bytes than a sheet can
// have.
pub(crate) fn copied_sheet<S: Stock>(alloc: Global, stock: &S, bytes: &[u8]) -> Option<Sheet>
    ensures copy { IfSome result (λ s. s ≡ bytes.now) }
    ensures short { length bytes.now ≤ 16 → IsSome result }
{
    if bytes.len() > u32::MAX as usize {
        return None;
    }
    let Some(mut sheet) = zero_sheet(alloc, stock, bytes.len() as u32) else {
        return None;
    };
    sheet.bytes_mut().copy_from_slice(bytes);
    Some(sheet)
}
