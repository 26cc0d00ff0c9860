//! Parsing the front of the bytes of a stream.

ghost use Rattle.std.specs.Prelude.{◌≡◌, ◌≤◌, ◌<◌, length, take};
ghost use Rattle.std.specs.Int.{w32, to_le_bytes};
ghost use Rattle.rb_source.specs.declared.framing.Framing.TheVariants.{Frames, Fixed, Lines};
ghost use Rattle.rb_source.specs.inner.Look.{FindsFront, FindsLineFeed};

use crate::framing::Framing;
use memchr::memchr;

/// The length that ends a stream of frames.
pub(crate) const END: u32 = 0xffff_ffff;

/// The length that requests a flush.
pub(crate) const FLUSH: u32 = 0xffff_fffe;

/// The place of the first context in the bytes: its first byte, its length, and the length of the whole portion.
#[derive(Clone, Copy)]
pub(crate) struct ContextPlace {
    pub start: usize,
    pub len: usize,
    pub span: usize,
}

/// What the bytes begin with.
#[derive(Clone, Copy)]
pub(crate) enum Opening {
    /// No whole context yet.
    Partial,
    /// A request to give the contexts before it at once.
    Flush,
    /// The end of the stream.
    End,
    /// A context.
    Whole(ContextPlace),
}

/// Returns the length at the front of a frame.
pub(crate) fn frame_length(bytes: &[u8]) -> u32
    requires { 4 ≤ length bytes.now }
    ensures value { take 4 bytes.now ≡ to_le_bytes w32 result }
{
    u32::from_le_bytes([bytes[0], bytes[1], bytes[2], bytes[3]])
}

fn parse_frame(bytes: &[u8]) -> Opening
    ensures finds { FindsFront Frames 0 bytes.now result }
{
    if bytes.len() < 4 {
        return Opening::Partial;
    }
    let len = frame_length(bytes);
    if len == END {
        return Opening::End;
    }
    if len == FLUSH {
        return Opening::Flush;
    }
    let len = len as usize;
    if bytes.len() - 4 < len {
        return Opening::Partial;
    }
    Opening::Whole(ContextPlace {
        start: 4,
        len,
        span: 4 + len,
    })
}

fn parse_fixed(len: u32, bytes: &[u8]) -> Opening
    requires { 0 < len }
    ensures finds { FindsFront Fixed len bytes.now result }
{
    let len = len as usize;
    if bytes.len() < len {
        return Opening::Partial;
    }
    Opening::Whole(ContextPlace {
        start: 0,
        len,
        span: len,
    })
}

/// Returns the index of the first line feed.
pub(crate) fn find_line_feed(bytes: &[u8]) -> Option<usize>
    ensures finds { FindsLineFeed bytes.now result }
{
    memchr(b'\n', bytes)
}

fn parse_line(bytes: &[u8]) -> Opening
    ensures finds { FindsFront Lines 0 bytes.now result }
{
    match find_line_feed(bytes) {
        Some(len) => Opening::Whole(ContextPlace {
            start: 0,
            len,
            span: len + 1,
        }),
        None => Opening::Partial,
    }
}

/// Returns what the bytes begin with.
pub(crate) fn parse_portion(framing: Framing, len: u32, bytes: &[u8]) -> Opening
    requires { framing ≡ Fixed → 0 < len }
    ensures finds { FindsFront framing len bytes.now result }
{
    match framing {
        Framing::Frames => parse_frame(bytes),
        Framing::Fixed => parse_fixed(len, bytes),
        Framing::Lines => parse_line(bytes),
    }
}
