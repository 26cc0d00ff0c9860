//! The names of a ring's files in its directory.

use std::alloc::{AllocError, Global};

// The number of digits of a position in a name: those of the largest 64-bit number.
const DIGITS: usize = 20;

/// Returns the path of the segment of this position: `FOLDER/RING.POSITION.tape`, the position in 20 digits.
pub fn segment_path(
    alloc: Global,
    folder: &str,
    ring: &str,
    position: u64,
) -> Result<String, AllocError> {
    format!(in alloc; "{folder}/{ring}.{position:020}.tape")
}

/// Returns the path of the ring's file with this ending: `FOLDER/RING.ENDING`.
pub(crate) fn ring_path(
    alloc: Global,
    folder: &str,
    ring: &str,
    ending: &str,
) -> Result<String, AllocError> {
    format!(in alloc; "{folder}/{ring}.{ending}")
}

/// Returns the position in a file's name, or `None` if the file is not a segment of this ring.
pub(crate) fn segment_position(ring: &str, name: &str) -> Option<u64> {
    let digits = name
        .strip_prefix(ring)?
        .strip_prefix('.')?
        .strip_suffix(".tape")?;
    if digits.len() != DIGITS || !digits.bytes().all(|byte| byte.is_ascii_digit()) {
        return None;
    }
    digits.parse().ok()
}
