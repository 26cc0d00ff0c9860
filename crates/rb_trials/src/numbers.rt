//! Numbers in arguments of the command line.

/// Returns a number of 64 bits, or 0 if the argument is not one.
pub(crate) fn number(word: &str) -> u64 {
    word.parse::<u64>().unwrap_or(0)
}

/// Returns a number of 32 bits, or 0 if the argument is not one.
pub(crate) fn small(word: &str) -> u32 {
    word.parse::<u32>().unwrap_or(0)
}
