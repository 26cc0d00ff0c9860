//! Constructors and comparisons of the tests, each in one call that ends the test on failure.

ghost use Rattle.std.specs.Prelude.{◌≡◌, length};

use rb_lend::Sheet;
use std::alloc::Global;
use std::fmt::Debug;
use std::process::Abort;

/// Returns a sheet of `n` bytes.
pub(crate) fn sheet(rt: &impl Abort, alloc: Global, n: u32) -> Sheet
    ensures { length result ≡ n }
{
    match Sheet::new(alloc, n) {
        Ok(sheet) => sheet,
        Err(_) => rt.panic("no memory for a sheet"),
    }
}

/// Ends the test if the two differ, and prints both.
pub(crate) fn same<T: PartialEq + Debug>(rt: &impl Abort, found: &T, wanted: &T) {
    assert_eq!(rt; *found, *wanted);
}

/// Ends the test if the two differ, and prints both and their row of the table.
pub(crate) fn same_of<T: PartialEq + Debug>(
    rt: &impl Abort,
    found: &T,
    wanted: &T,
    row: &impl Debug,
) {
    assert_eq!(rt; *found, *wanted, "of {row:?}");
}

/// Ends the test if the bytes differ.
pub(crate) fn same_bytes(rt: &impl Abort, found: &[u8], wanted: &[u8]) {
    same(rt, &found, &wanted);
}
