//! The bounds of the values of options, as refusals word them.

/// The sizes that a ring may have.
pub(crate) const SIZES: &str = "a power of two from 4096 to 67108864";

/// The first positions that a ring may have.
pub(crate) const STARTS: &str = "a multiple of 8 up to 2305843009213693952";

/// The numbers of workers that a ring may have.
pub(crate) const WORKERS: &str = "1 to 256";
