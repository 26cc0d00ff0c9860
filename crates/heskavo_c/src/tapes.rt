//! The exports that read and write the records of tapes.

ghost use Rattle.std.specs.Prelude.{◌≡◌, ◌≢◌, ◌/◌, ◌%◌, ◌^◌, ◌<◌, ◌≤◌, ◌↔◌, ◌⊎◌, IsTrue, false, length, if◌then◌else◌};
ghost use Rattle.rb_history.specs.Header.{header_bytes};
ghost use Rattle.rb_history.specs.RingModel.{IsRingSize};
ghost use Rattle.rb_history.specs.Span as spans;
ghost use Rattle.rb_history.specs.TapeBytes.{header_of, item_bytes, item_len, item_position, IsItemAt};
ghost use Rattle.rb_history.specs.TapeBytes.Item.{Event, Skip};
ghost use Rattle.rb_tape.specs.TapeFront.{IsUndecided};
ghost use Rattle.rb_tape.specs.TapeReading.{item_read, HasItsLength};
ghost use Rattle.heskavo_c.specs.Tapes.{FindsFault, FindsRecord, HasRoomAt, IsTapePosition, PutsItem, fault_number};
ghost use Rattle.heskavo_c.specs.Writing.{WritesFront};

use crate::outgoing::put_parts;
use crate::status::{ARGUMENT, DONE, FAULT, MORE, ROOM};
use rb_history::{Header, MAX_RECORD_LEN, is_size, is_start, page_of, span};
use rb_tape::{Record, Tape, TapeKind};

/// The record at the front of a tape's bytes, or its fault.
#[repr(C)]
#[derive(Clone, Copy)]
pub struct TapeRecord {
    /// The start of the payload, in bytes from the front of the record.
    pub offset: u64,
    /// The number of bytes of the record: the next one follows, at a position that is higher by this number.
    pub span: u64,
    /// The length of the payload in bytes; for a discarded record, the length that it had.
    pub len: u32,
    /// 1 if the record was discarded, else 0. The bytes of a discarded record are zeros.
    pub discarded: u32,
    /// The fault of the record, counted from 1 in the order of `rb_tape`'s kinds; 0 if there is none.
    pub fault: u32,
}

// Returns a record as it is passed to C.
fn told_of(found: Record<'_>) -> TapeRecord
    ensures { result ≡ record { offset = 8; span = spans.span found.entry.len; len = found.entry.len; discarded = (if found.entry.discarded then 1 else 0); fault = 0 } }
{
    TapeRecord {
        offset: 8,
        span: span(found.len),
        len: found.len,
        discarded: u32::from(found.discarded),
        fault: 0,
    }
}

// Returns the number of a record's fault; 0 if the kind is not a fault of a record.
fn number_of_fault(kind: TapeKind) -> u32
    ensures { result ≡ fault_number kind }
{
    match kind {
        TapeKind::Busy => 1,
        TapeKind::Page => 2,
        TapeKind::Padding => 3,
        TapeKind::TooLong => 4,
        TapeKind::DiscardedBytes => 5,
        TapeKind::Truncated | TapeKind::Memory => 0,
    }
}

#[unsafe(no_mangle)]
/// Reads the record at the front of `bytes`, from the tape of a ring of `size` bytes. The record's position is
/// `position`.
///
/// Returns `DONE` with the record, `MORE` if the bytes show neither a whole record nor a fault, or `FAULT` with the
/// fault's number. Returns `ARGUMENT` if no ring has this size, or if the position is not a multiple of 8 or is above
/// 2^61.
///
/// Keeps nothing between calls: to continue, a reader advances both the bytes and the position by `span`. Takes time
/// linear in the record.
pub extern "C" fn heskavo_tape_next(
    bytes: &[u8],
    size: u64,
    position: u64,
    told: &mut TapeRecord,
) -> u32
    ensures found { result ≡ DONE → FindsRecord size position bytes.now told.new }
    ensures more { result ≡ MORE → IsUndecided size position bytes.now }
    ensures fault { result ≡ FAULT → FindsFault size position bytes.now told.new }
    ensures argument { (result ≡ ARGUMENT) ↔ ¬ IsTapePosition size position }
    ensures unchanged { result ≢ DONE → result ≢ FAULT → told.new ≡ told.old }
    ensures answers { (result ≡ DONE) ⊎ ((result ≡ MORE) ⊎ ((result ≡ FAULT) ⊎ (result ≡ ARGUMENT))) }
{
    let Ok(mut tape) = Tape::new(bytes, size, position) else {
        return ARGUMENT;
    };
    match tape.next() {
        Some(Ok(found)) => {
            *told = told_of(found);
            DONE
        }
        Some(Err(fault)) => {
            let number = number_of_fault(fault.kind);
            if number == 0 {
                return MORE;
            }
            *told = TapeRecord {
                offset: 0,
                span: 0,
                len: 0,
                discarded: 0,
                fault: number,
            };
            FAULT
        }
        None => MORE,
    }
}

// Returns whether a record of `len` bytes has a header, and fits at this position in a ring of this size.
fn has_room_at(size: u64, position: u64, len: u64) -> bool
    ensures { IsTrue result ↔ HasRoomAt size position len }
{
    if !is_size(size) || !is_start(position) || len > u64::from(MAX_RECORD_LEN) {
        return false;
    }
    span(len as u32) < size
}

// Returns the header of a taken record.
fn header_at(size: u64, position: u64, len: u32, discard: bool) -> [u8; 8]
    requires size { IsRingSize size }
    requires len { len < 2 ^ 30 }
    ensures { result ≡ header_bytes (record { len = len; busy = false; discard = discard; page = position % size / 4096 }) }
{
    Header {
        len,
        busy: false,
        discard,
        page: page_of(size, position) as u32,
    }
    .to_bytes()
}

/// Writes a submitted record with these bytes to the front of the buffer, as on the tape of a ring of `size` bytes at
/// `position`.
pub(crate) fn put_event(payload: &[u8], size: u64, position: u64, tape: &mut [u8])
    requires size { IsRingSize size }
    requires len { length payload.now < 2 ^ 30 }
    requires fits { spans.span (length payload.now) ≤ length tape.old }
    ensures { WritesFront (item_bytes size (Event position payload.now)) tape.old tape.new }
{
    let len = payload.len() as u32;
    let header = header_at(size, position, len, false);
    let zeros = span(len) as usize - 8 - payload.len();
    put_parts(tape, &header, payload, zeros);
}

/// Writes a discarded record of `len` bytes to the front of the buffer, in the same way.
pub(crate) fn put_discarded(len: u32, size: u64, position: u64, tape: &mut [u8])
    requires size { IsRingSize size }
    requires len { len < 2 ^ 30 }
    requires fits { spans.span len ≤ length tape.old }
    ensures { WritesFront (item_bytes size (Skip position len)) tape.old tape.new }
{
    let header = header_at(size, position, len, true);
    put_parts(tape, &header, &[], span(len) as usize - 8);
}

#[unsafe(no_mangle)]
/// Writes a submitted record with this payload to the front of `tape`, as on the tape of a ring of `size` bytes at
/// `position`, and its number of bytes to `written`.
///
/// Returns `DONE`, or `ROOM` if `tape` is shorter than that, which is still written to `written`. Returns `ARGUMENT` if
/// no ring has this size, the position is not a multiple of 8 or is above 2^61, or the record does not fit in the ring.
///
/// Takes time linear in the record.
pub extern "C" fn heskavo_tape_put(
    payload: &[u8],
    size: u64,
    position: u64,
    tape: &mut [u8],
    written: &mut u64,
) -> u32
    ensures put { result ≡ DONE → PutsItem size position (Event position payload.now) tape.old tape.new written.new }
    ensures room { result ≡ ROOM → (length tape.old < written.new) × (written.new ≡ spans.span (length payload.now)) }
    ensures argument { (result ≡ ARGUMENT) ↔ ¬ HasRoomAt size position (length payload.now) }
    ensures unwritten { result ≢ DONE → tape.new ≡ tape.old }
    ensures untold { result ≢ DONE → result ≢ ROOM → written.new ≡ written.old }
    ensures answers { (result ≡ DONE) ⊎ ((result ≡ ROOM) ⊎ (result ≡ ARGUMENT)) }
{
    if !has_room_at(size, position, payload.len() as u64) {
        return ARGUMENT;
    }
    *written = span(payload.len() as u32);
    if (tape.len() as u64) < *written {
        return ROOM;
    }
    put_event(payload, size, position, tape);
    DONE
}

#[unsafe(no_mangle)]
/// Writes a discarded record of `len` bytes to the front of `tape`, with zeros for its bytes, and its number of bytes
/// to `written`. Returns the same statuses as `heskavo_tape_put`.
pub extern "C" fn heskavo_tape_put_discarded(
    len: u32,
    size: u64,
    position: u64,
    tape: &mut [u8],
    written: &mut u64,
) -> u32
    ensures put { result ≡ DONE → PutsItem size position (Skip position len) tape.old tape.new written.new }
    ensures room { result ≡ ROOM → (length tape.old < written.new) × (written.new ≡ spans.span len) }
    ensures argument { (result ≡ ARGUMENT) ↔ ¬ HasRoomAt size position len }
    ensures unwritten { result ≢ DONE → tape.new ≡ tape.old }
    ensures untold { result ≢ DONE → result ≢ ROOM → written.new ≡ written.old }
    ensures answers { (result ≡ DONE) ⊎ ((result ≡ ROOM) ⊎ (result ≡ ARGUMENT)) }
{
    if !has_room_at(size, position, u64::from(len)) {
        return ARGUMENT;
    }
    *written = span(len);
    if (tape.len() as u64) < *written {
        return ROOM;
    }
    put_discarded(len, size, position, tape);
    DONE
}
