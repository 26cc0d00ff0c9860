//! The limits that a program is verified against.

/// What a program may access besides its own stack: a context of `ctx_len` bytes, and `rings` rings.
#[derive(Clone, Copy, Debug, PartialEq, Eq)]
pub struct Limits {
    /// The context's length in bytes.
    pub ctx_len: u32,
    /// The number of rings; a ring's number is less than this.
    pub rings: u32,
}
