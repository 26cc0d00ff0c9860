//! Comparisons that end the test if they fail.

use std::fmt::Debug;
use std::process::Abort;

/// Ends the test if the two differ, and prints both.
pub(crate) fn same<T: PartialEq + Debug>(rt: &impl Abort, found: &T, wanted: &T) {
    assert_eq!(rt; *found, *wanted);
}

/// Ends the test if the two differ, and prints both and the row of the table that they belong to.
pub(crate) fn same_of<T: PartialEq + Debug>(
    rt: &impl Abort,
    found: &T,
    wanted: &T,
    row: &impl Debug,
) {
    assert_eq!(rt; *found, *wanted, "of {row:?}");
}
