//! Examines the first record of a tape's bytes.

ghost use Rattle.std.specs.Prelude.{◌≡◌, ◌↔◌, ◌≤◌, ◌^◌, IsTrue, length, drop};
ghost use Rattle.rb_history.specs.Span as spans;
ghost use Rattle.rb_history.specs.TapeBytes.{zeros};
ghost use Rattle.rb_history.specs.RingModel.{IsRingSize};
ghost use Rattle.rb_tape.specs.TapeReading.{item_read, HasItsLength};
ghost use Rattle.rb_tape.specs.inner.FrontLook.{FindsAtFront, item_after};

use crate::fault::TapeKind;
use crate::record::Record;
use rb_history::{Header, POSITION_LIMIT, page_of, span};

fn is_zero(bytes: &[u8]) -> bool
    ensures { IsTrue result ↔ (bytes.now ≡ zeros (length bytes.now)) }
{
    bytes.iter().all(|byte| *byte == 0)
}

// Returns the header of the whole record with which the bytes begin, `None` if the bytes are undecided yet, or the
// first fault that they show. Takes time linear in the record.
pub(crate) fn parse_front(
    bytes: &[u8],
    size: u64,
    position: u64,
) -> Result<Option<Header>, TapeKind>
    requires size { IsRingSize size }
    requires position { position ≤ 2 ^ 62 }
    ensures finds { FindsAtFront size position bytes.now result }
{
    if bytes.len() < 8 {
        return Ok(None);
    }
    let mut front = [0; 8];
    front.copy_from_slice(&bytes[..8]);
    // A header with both bits has the busy bit.
    let header = match Header::from_bytes(&front) {
        Ok(header) => header,
        Err(_) => return Err(TapeKind::Busy),
    };
    if header.busy {
        return Err(TapeKind::Busy);
    }
    if u64::from(header.page) != page_of(size, position) {
        return Err(TapeKind::Page);
    }
    let span = span(header.len);
    if span >= size || position + span > POSITION_LIMIT {
        return Err(TapeKind::TooLong);
    }
    if (bytes.len() as u64) < span {
        return Ok(None);
    }
    let behind = &bytes[8..span as usize];
    let (payload, padding) = behind.split_at(header.len as usize);
    if header.discard && !is_zero(payload) {
        return Err(TapeKind::DiscardedBytes);
    }
    if !is_zero(padding) {
        return Err(TapeKind::Padding);
    }
    Ok(Some(header))
}

// Returns the record of this header, with which the bytes begin.
pub(crate) fn record_at_front(bytes: &[u8], pos: u64, header: Header) -> Record<'_>
    requires { spans.span header.len ≤ length bytes.now }
    ensures item { item_read result ≡ item_after pos header (drop 8 bytes.now) }
    ensures length { HasItsLength result }
{
    let len = if header.discard {
        0
    } else {
        header.len as usize
    };
    Record {
        pos,
        len: header.len,
        discarded: header.discard,
        bytes: &bytes[8..8 + len],
    }
}
