//! Writes the bytes of a record, part by part.

ghost use Rattle.std.specs.Prelude.{◌≡◌, ◌+◌, ◌/◌, ◌%◌, ◌<◌, ◌≤◌, length, take, drop};
ghost use Rattle.std.specs.Io.KnownBytes.{Appends};
ghost use Rattle.rb_history.specs.Header.{header_bytes};
ghost use Rattle.rb_history.specs.TapeBytes.{item_bytes, item_span, item_position, header_of, IsItemAt};
ghost use Rattle.rb_history.specs.RingModel.{IsRingSize};
ghost use Rattle.rb_tape.specs.Items.{item_of};
ghost use Rattle.rb_tape.specs.inner.RecordParts.{bytes_before_zeros};

use crate::item::Item;
use rb_history::{Header, page_of, span};
use rb_io::write_out;
use std::io::Write;

// Returns the header of a taken record in a ring of this size.
fn header_of_item(size: u64, item: &Item<'_>) -> [u8; 8]
    requires size { IsRingSize size }
    requires stands { IsItemAt size (item_position (item_of item.now)) (item_of item.now) }
    ensures { result ≡ header_bytes (header_of size (item_of item.now)) }
{
    Header {
        len: item.len(),
        busy: false,
        discard: matches!(item, Item::Skip(_, _)),
        page: page_of(size, item.pos()) as u32,
    }
    .to_bytes()
}

#[inline(always)]
// Writes the record's header from the record's byte `at`, and returns the number of bytes written.
fn write_header<W: Write>(writer: &mut W, size: u64, item: &Item<'_>, at: u64) -> usize
    requires size { IsRingSize size }
    requires stands { IsItemAt size (item_position (item_of item.now)) (item_of item.now) }
    requires within { at < 8 }
    ensures bound { at + result ≤ 8 }
    ensures bytes { Appends (W.contents writer.old) (W.contents writer.new) (take result (drop at (item_bytes size (item_of item.now)))) }
{
    let header = header_of_item(size, item);
    write_out(writer, &header[at as usize..])
}

#[inline(always)]
// Writes the payload, which lies between the header and the padding zeros, from the record's byte `at`, and returns the
// number of bytes written.
fn write_payload<W: Write>(writer: &mut W, size: u64, item: &Item<'_>, at: u64) -> usize
    requires stands { IsItemAt size (item_position (item_of item.now)) (item_of item.now) }
    requires behind { 8 ≤ at }
    requires within { at < 8 + length (bytes_before_zeros (item_of item.now)) }
    ensures bound { at + result ≤ 8 + length (bytes_before_zeros (item_of item.now)) }
    ensures bytes { Appends (W.contents writer.old) (W.contents writer.new) (take result (drop at (item_bytes size (item_of item.now)))) }
{
    let behind = at - 8;
    let payload = item.payload();
    write_out(writer, &payload[behind as usize..])
}

// Writes zeros from the record's byte `at`, until a write fails or accepts nothing, and returns how many of the
// record's bytes are written by then.
fn write_zeros<W: Write>(writer: &mut W, size: u64, item: &Item<'_>, at: u64) -> u64
    requires stands { IsItemAt size (item_position (item_of item.now)) (item_of item.now) }
    requires behind { 8 + length (bytes_before_zeros (item_of item.now)) ≤ at }
    requires within { at ≤ item_span (item_of item.now) }
    ensures more { at ≤ result }
    ensures bound { result ≤ item_span (item_of item.now) }
    ensures bytes { Appends (W.contents writer.old) (W.contents writer.new) (drop at (take result (item_bytes size (item_of item.now)))) }
{
    let zeros = [0; 64];
    let span = span(item.len());
    let mut sent = at;
    while sent < span {
        let most = (span - sent).min(64) as usize;
        match writer.write(&zeros[..most]) {
            Ok(0) | Err(_) => break,
            Ok(n) => sent += n as u64,
        }
    }
    sent
}

#[inline(always)]
// Writes the bytes after the record's header from the record's byte `from`, as `write_from` does.
fn write_after_header<W: Write>(writer: &mut W, size: u64, item: &Item<'_>, from: u64) -> u64
    requires stands { IsItemAt size (item_position (item_of item.now)) (item_of item.now) }
    requires behind { 8 ≤ from }
    requires from { from ≤ item_span (item_of item.now) }
    ensures more { from ≤ result }
    ensures bound { result ≤ item_span (item_of item.now) }
    ensures bytes { Appends (W.contents writer.old) (W.contents writer.new) (drop from (take result (item_bytes size (item_of item.now)))) }
{
    let end = 8 + item.payload().len() as u64;
    if from >= end {
        return write_zeros(writer, size, item, from);
    }
    let sent = from + write_payload(writer, size, item, from) as u64;
    if sent < end || sent == span(item.len()) {
        return sent;
    }
    write_zeros(writer, size, item, sent)
}

#[inline(always)]
/// Writes a record from its byte `from`, until a write fails or accepts nothing, and returns how many of its bytes are
/// written by then.
pub(crate) fn write_from<W: Write>(writer: &mut W, size: u64, item: &Item<'_>, from: u64) -> u64
    requires size { IsRingSize size }
    requires stands { IsItemAt size (item_position (item_of item.now)) (item_of item.now) }
    requires from { from ≤ item_span (item_of item.now) }
    ensures more { from ≤ result }
    ensures bound { result ≤ item_span (item_of item.now) }
    ensures bytes { Appends (W.contents writer.old) (W.contents writer.new) (drop from (take result (item_bytes size (item_of item.now)))) }
{
    if from >= 8 {
        return write_after_header(writer, size, item, from);
    }
    let sent = from + write_header(writer, size, item, from) as u64;
    if sent < 8 {
        return sent;
    }
    write_after_header(writer, size, item, sent)
}
