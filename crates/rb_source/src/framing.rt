//! How contexts are framed in a stream of bytes.

/// How contexts are framed in a stream of bytes.
#[derive(Clone, Copy, Debug, PartialEq, Eq)]
pub enum Framing {
    /// Frames: the length as a little-endian `u32`, followed by this many bytes. The length 0xffffffff ends the stream,
    /// and 0xfffffffe requests a flush: the contexts before it are given at once.
    Frames,
    /// Contexts of the requested length, one after the other.
    Fixed,
    /// Lines: the bytes up to a line feed, which is not part of the context. The last line may lack it.
    Lines,
}
