//! Stocks of used sheets.

ghost use Rattle.std.specs.Prelude.{◌≡◌, IfSome, IsSome, None};

use rb_lend::Sheet;

/// The greatest length in bytes of a sheet that needs no allocation. Such a sheet is made new and not taken from a
/// stock.
pub const SHORT: u32 = 16;

/// A stock of used sheets (byte buffers) for reuse. Nothing is assumed about which sheets a stock keeps.
pub trait Stock {
    /// Returns a used sheet, if there is one.
    fn used(&self) -> Option<Sheet>;

    /// Keeps the sheet, or returns it.
    fn put(&self, sheet: Sheet) -> Option<Sheet>
        ensures handed_back { IfSome result (λ back. back ≡ sheet) };
}

/// A stock that keeps nothing.
#[derive(Clone, Copy, Debug)]
pub struct NoStock;

impl Stock for NoStock {
    fn used(&self) -> Option<Sheet>
        ensures nothing { result ≡ None }
    {
        None
    }

    fn put(&self, sheet: Sheet) -> Option<Sheet>
        ensures handed_back { IfSome result (λ back. back ≡ sheet) }
        ensures not_kept { IsSome result }
    {
        Some(sheet)
    }
}
