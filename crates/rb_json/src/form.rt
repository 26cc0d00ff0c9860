//! The format of a line of output.

/// The format of lines of output.
#[derive(Clone, Copy, Debug, PartialEq, Eq)]
pub enum LineForm {
    /// Words, for people to read.
    Words,
    /// One JSON object a line (JSON Lines).
    Json,
}
