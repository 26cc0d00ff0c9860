//! A call whose allocation failed, and which is repeated.

use crate::fields::print_field;
use std::io::Print;

/// The maximal number of tries of each call, since at most one allocation fails.
pub(crate) const TRIES: u32 = 2;

/// Prints the line of a call whose allocation failed and that was to make something new.
pub(crate) fn tell_memory<R: Print>(rt: &R, call: &str) {
    print_field(rt, call, &" memory\n");
}
