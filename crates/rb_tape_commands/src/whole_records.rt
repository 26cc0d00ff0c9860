//! Where whole records end among bytes of a segment.

ghost use Rattle.std.specs.Prelude.{◌≤◌, length, IfSome};

use rb_history::{Header, span};

/// Returns the span of the record at the front of these bytes, or `None` if they do not begin with a valid header.
pub(crate) fn front_span(bytes: &[u8]) -> Option<u64>
    ensures { IfSome result (λ span. 8 ≤ span) }
{
    if bytes.len() < 8 {
        return None;
    }
    let mut front = [0; 8];
    front.copy_from_slice(&bytes[..8]);
    match Header::from_bytes(&front) {
        Ok(header) => Some(span(header.len)),
        Err(_) => None,
    }
}

/// Returns the number of bytes at the front that are whole records.
pub(crate) fn whole_length(bytes: &[u8]) -> usize
    ensures { result ≤ length bytes.now }
{
    let mut rest = bytes;
    'records: while let Some(span) = front_span(rest) {
        if span > rest.len() as u64 {
            break;
        }
        rest = &rest[span as usize..];
    }
    bytes.len() - rest.len()
}
