//! Rows on tapes.

ghost use Rattle.std.specs.Prelude.{◌≡◌, ◌+◌, ◌<◌, ◌≤◌, ◌^◌, IsTrue};
ghost use Rattle.rb_history.specs.Span.{span};
ghost use Rattle.rb_history.specs.TapeBytes.{IsItemAt};
ghost use Rattle.rb_tape.specs.Items.{item_of as item_in};

use crate::answers::setup_word;
use crate::text::Text;
use rb_history::{POSITION_LIMIT, Taken, is_size, is_start, span};
use rb_lend::Lent;
use rb_tape::{Event, Feed, Item, Record, Tape, TapeFault, TapeKind, TapeWriter, count_records};
use std::alloc::Global;

// The lengths of the pieces in which a tape is fed.
const PIECES: [usize; 5] = [1, 3, 7, 64, 4096];

/// Appends the contents of a tape that is read as a whole: its records, what is wrong after them, and the number of
/// records. Also appends the contents read in pieces of some length, if they differ.
pub(crate) fn tell_tape(alloc: Global, bytes: &[u8], size: u64, start: u64, out: &mut Text) {
    match Tape::new(bytes, size, start) {
        Ok(tape) => tell_whole(tape, out),
        Err(fault) => out.word(setup_word(fault)),
    }
    if let Ok((records, _)) = count_records(bytes, size, start) {
        out.field("records", records as u64);
    }
    for length in PIECES {
        let told = told_in_pieces(alloc, bytes, length, size, start);
        if told.as_str() != out.as_str() {
            out.field("differs in pieces of", length as u64);
            return out.push(told.as_str());
        }
    }
}

// Returns the contents of a tape that is read in pieces of this length.
fn told_in_pieces(alloc: Global, bytes: &[u8], length: usize, size: u64, start: u64) -> Text
    requires { 0 < length }
{
    let mut told = Text::new(alloc);
    match Feed::new(alloc, size, start) {
        Ok(feed) => tell_pieces(feed, bytes, length, &mut told),
        Err(fault) => told.word(setup_word(fault)),
    }
    told
}

fn tell_whole(tape: Tape<'_>, out: &mut Text) {
    let mut tape = tape;
    while let Some(answer) = tape.next() {
        match answer {
            Ok(record) => tell_record(record, out),
            Err(fault) => tell_fault(fault, out),
        }
    }
}

// Appends the contents of a tape that is fed in pieces.
fn tell_pieces(feed: Feed, bytes: &[u8], length: usize, out: &mut Text)
    requires { 0 < length }
{
    let mut feed = feed;
    let mut records = 0;
    for piece in bytes.chunks(length) {
        if feed.feed(piece).is_ok() {
            let read = tell_read(&mut feed, bytes.len(), out);
            records = u64::wrapping_add(records, read);
        }
    }
    if let Err(fault) = feed.end() {
        tell_fault(fault, out);
    }
    out.field("records", records);
}

// Appends up to `most` records that are available, and returns how many there were.
fn tell_read(feed: &mut Feed, most: usize, out: &mut Text) -> u64 {
    for count in 0..most {
        match feed.next() {
            Some(Ok(record)) => tell_record(record, out),
            Some(Err(_)) | None => return count as u64,
        }
    }
    most as u64
}

fn tell_record(record: Record<'_>, out: &mut Text) {
    out.word(if record.discarded {
        "discarded"
    } else {
        "event"
    });
    out.field("pos", record.pos);
    out.field("len", u64::from(record.len));
    if !record.discarded {
        out.contents(record.bytes);
    }
    out.push(";");
}

fn tell_fault(fault: TapeFault, out: &mut Text) {
    out.word(match fault.kind {
        TapeKind::Busy => "busy",
        TapeKind::Page => "page",
        TapeKind::Padding => "padding",
        TapeKind::TooLong => "too long",
        TapeKind::DiscardedBytes => "discarded bytes",
        TapeKind::Truncated => "truncated",
        TapeKind::Memory => "memory",
    });
    out.field("at", fault.offset);
}

/// Appends the tape of records that were taken from a ring of `size` bytes whose positions start at `start`.
pub(crate) fn tell_written(alloc: Global, size: u64, start: u64, taken: &[Taken], out: &mut Text) {
    if !is_size(size) || !is_start(start) {
        return out.word("fault: no ring");
    }
    let mut tape = TapeWriter::new(Vec::new(alloc), size, start);
    for one in taken {
        let Some(item) = item_of(one) else {
            continue;
        };
        if !stands(&item, size, tape.position()) {
            return out.word("fault: out of place");
        }
        if tape.put(&item).is_err() {
            return out.word("fault: no memory");
        }
    }
    out.bytes(tape.into_writer().as_slice());
}

// Returns the record that was taken.
fn item_of(taken: &Taken) -> Option<Item<'_>> {
    match taken {
        Taken::Event(pos, worker, serial, sheet) => Some(Item::Event(Event {
            pos: *pos,
            worker: *worker,
            serial: *serial,
            bytes: sheet.bytes(),
        })),
        Taken::Skipped(pos, len) => Some(Item::Skip(*pos, *len)),
        Taken::BusyFront | Taken::Empty => None,
    }
}

// Whether a ring of this size may have had the record at this position.
fn stands(item: &Item<'_>, size: u64, position: u64) -> bool
    ensures { IsTrue result → IsItemAt size position (item_in item.now) }
{
    match item {
        Item::Event(event) => fits(event.pos, event.bytes.len() as u64, size, position),
        Item::Skip(pos, len) => fits(*pos, u64::from(*len), size, position),
    }
}

// Whether a record with this position and length fits.
fn fits(pos: u64, len: u64, size: u64, position: u64) -> bool
    ensures here { IsTrue result → pos ≡ position }
    ensures has_header { IsTrue result → len < 2 ^ 30 }
    ensures has_fitted { IsTrue result → span len < size }
    ensures bounded { IsTrue result → position + span len ≤ 2 ^ 62 }
{
    if pos != position || len >= 1 << 30 || position > POSITION_LIMIT {
        return false;
    }
    let span = span(len as u32);
    span < size && span <= POSITION_LIMIT - position
}
