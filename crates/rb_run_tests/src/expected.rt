//! Comparisons of the tests, each in one call that ends the test on failure.

use std::fmt::Debug;
use std::process::Abort;

/// Ends the test if the two differ, and prints both.
pub(crate) fn same<T: PartialEq + Debug>(rt: &impl Abort, found: &T, wanted: &T) {
    assert_eq!(rt; *found, *wanted);
}

/// Ends the test if the two differ, and prints both and their row of the table.
pub(crate) fn same_of<T: PartialEq + Debug>(
    rt: &impl Abort,
    found: &T,
    wanted: &T,
    row: &impl Debug,
) {
    assert_eq!(rt; *found, *wanted, "of {row:?}");
}
