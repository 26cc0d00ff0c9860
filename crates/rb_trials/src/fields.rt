//! The lines that trials print, one field a call.

use std::fmt::Display;
use std::io::Print;

/// Prints a word and a value.
pub(crate) fn print_field<R: Print, T: Display>(rt: &R, word: &str, value: &T) {
    let _ = print!(rt; "{word}{value}");
}

/// Ends the line.
pub(crate) fn end_line<R: Print>(rt: &R) {
    let _ = println!(rt; "");
}
