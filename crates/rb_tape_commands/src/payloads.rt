//! Reading payloads.

ghost use Rattle.std.specs.Prelude.{◌≡◌, ◌+◌, [], Err, None, IfOk, IfSome, length};
ghost use Rattle.std.specs.Int.{w32, to_le_bytes};
ghost use Rattle.rb_tape_commands.specs.PayloadReads.{FindsNext};
ghost use Rattle.rb_tape_commands.specs.inner.LengthReads.{FindsLength};
ghost use Rattle.rb_tape_commands.specs.Retries.{CountsRetries};
ghost use Rattle.rb_tape_commands.specs.inner.SeenPayloads.{IsSeenWhole};
ghost use Rattle.rb_tape_commands.specs.inner.WaitingTape.{IsSameTape};

use crate::feed_fault::FeedFault;
use crate::retries::write_tape_out;
use rb_history::span;
use rb_io::{Incoming, Outgoing, read_full};
use rb_lend::{Lent, Sheet};
use rb_tape::TapeWriter;
use std::alloc::AllocError;

// Decodes a little-endian number.
fn number_of(field: &[u8; 4]) -> u32
    ensures { to_le_bytes w32 result ≡ field.now }
{
    u32::from_le_bytes(*field)
}

// Reads the length of the payload with this number, or finds that the input ends before it.
fn read_length<R: Incoming, W: Outgoing>(
    reader: &mut R,
    out: &W,
    number: u64,
) -> Result<Option<u32>, FeedFault>
    requires nothing_waits { W.waiting out.now ≡ [] }
    ensures { FindsLength number (R.remaining reader.old) (R.remaining reader.new) result }
{
    let mut field = [0; 4];
    let Ok(count) = read_full(reader, out, &mut field) else {
        return Err(FeedFault::Device);
    };
    match count {
        0 => Ok(None),
        4 => Ok(Some(number_of(&field))),
        _ => Err(FeedFault::Ends(number)),
    }
}

// Returns a sheet of `len` bytes with any contents: the given one if it has that length.
fn sheet_of(spare: Sheet, len: u32) -> Result<Sheet, AllocError>
    ensures sized { IfOk result (λ sheet. length sheet ≡ len) }
{
    if spare.len() == len {
        return Ok(spare);
    }
    match spare.renew(len) {
        Ok(sheet) => Ok(sheet),
        Err((refused, _)) => Err(refused),
    }
}

// Reads the payload with this number: its length and then its bytes, each until it is complete or the input ends.
fn read_payload<R: Incoming, W: Outgoing>(
    reader: &mut R,
    out: &W,
    spare: Sheet,
    size: u64,
    number: u64,
) -> Result<Option<Sheet>, FeedFault>
    requires nothing_waits { W.waiting out.now ≡ [] }
    ensures { FindsNext size number (R.remaining reader.old) (R.remaining reader.new) result }
{
    let Some(len) = read_length(reader, out, number)? else {
        return Ok(None);
    };
    if span(len) >= size {
        return Err(FeedFault::Fit(number));
    }
    let Ok(mut sheet) = sheet_of(spare, len) else {
        return Err(FeedFault::Memory);
    };
    let Ok(count) = read_full(reader, out, sheet.bytes_mut()) else {
        return Err(FeedFault::Device);
    };
    if count < len as usize {
        return Err(FeedFault::Ends(number));
    }
    Ok(Some(sheet))
}

#[inline]
// Returns the payload at the front of these bytes, after its length, if it is complete and a ring of `size` bytes has
// room for its record.
fn whole_payload(seen: &[u8], size: u64) -> Option<&[u8]>
    ensures seen { IfSome result (λ payload. IsSeenWhole size seen.now payload.now) }
{
    let (field, rest) = seen.split_first_chunk::<4>()?;
    let len = number_of(field);
    if span(len) >= size || rest.len() < len as usize {
        return None;
    }
    Some(&rest[..len as usize])
}

#[inline(always)]
// Returns the sheet with its bytes replaced by as many others.
fn filled(sheet: Sheet, bytes: &[u8]) -> Sheet
    requires sized { length sheet ≡ length bytes.now }
    ensures filled { result ≡ bytes.now }
{
    let mut sheet = sheet;
    sheet.bytes_mut().copy_from_slice(bytes);
    sheet
}

#[cold]
#[inline(never)]
// Flushes everything that was written, and then reads the payload with this number.
fn awaited_payload<R: Incoming, W: Outgoing>(
    reader: &mut R,
    tape: &mut TapeWriter<W>,
    retries: &mut u32,
    spare: Sheet,
    size: u64,
    number: u64,
) -> Result<Option<Sheet>, FeedFault>
    requires finished { tape.old.unfinished ≡ None }
    ensures found { FindsNext size number (R.remaining reader.old) (R.remaining reader.new) result }
    ensures same { IsSameTape W.contents tape.old tape.new }
    ensures counted { CountsRetries (tape.old.failures + retries.old) retries.new tape.new }
    ensures gave_up { tape.new.failures ≡ tape.old.failures + retries.old + 1 → result ≡ Err FeedFault.Device }
{
    let Ok(()) = write_tape_out(tape, retries) else {
        return Err(FeedFault::Device);
    };
    read_payload(reader, tape.writer(), spare, size, number)
}

#[inline(never)]
// Does the same as `next_payload` if the sheet's length differs from the payload's.
fn next_of_other_length<R: Incoming, W: Outgoing>(
    reader: &mut R,
    tape: &mut TapeWriter<W>,
    retries: &mut u32,
    spare: Sheet,
    size: u64,
    number: u64,
) -> Result<Option<Sheet>, FeedFault>
    requires finished { tape.old.unfinished ≡ None }
    ensures found { FindsNext size number (R.remaining reader.old) (R.remaining reader.new) result }
    ensures same { IsSameTape W.contents tape.old tape.new }
    ensures counted { CountsRetries (tape.old.failures + retries.old) retries.new tape.new }
    ensures gave_up { tape.new.failures ≡ tape.old.failures + retries.old + 1 → result ≡ Err FeedFault.Device }
{
    let Some(payload) = whole_payload(reader.at_hand(), size) else {
        return awaited_payload(reader, tape, retries, spare, size, number);
    };
    let len = payload.len();
    let Ok(sheet) = sheet_of(spare, len as u32) else {
        return Err(FeedFault::Memory);
    };
    let sheet = filled(sheet, payload);
    reader.consume(4 + len);
    Ok(Some(sheet))
}

#[inline]
/// Reads the payload with this number into the sheet, or finds that the input ends before it. A payload whose record is
/// too long for a ring of `size` bytes is refused from its length alone.
///
/// A payload that is complete in the reader's buffer is copied from there. Before reading for any other, the tape's
/// writer flushes everything that it holds back. The flush fails only when no retries are left, with `Device`.
pub(crate) fn next_payload<R: Incoming, W: Outgoing>(
    reader: &mut R,
    tape: &mut TapeWriter<W>,
    retries: &mut u32,
    spare: Sheet,
    size: u64,
    number: u64,
) -> Result<Option<Sheet>, FeedFault>
    requires finished { tape.old.unfinished ≡ None }
    ensures found { FindsNext size number (R.remaining reader.old) (R.remaining reader.new) result }
    ensures same { IsSameTape W.contents tape.old tape.new }
    ensures counted { CountsRetries (tape.old.failures + retries.old) retries.new tape.new }
    ensures gave_up { tape.new.failures ≡ tape.old.failures + retries.old + 1 → result ≡ Err FeedFault.Device }
{
    let Some(payload) = whole_payload(reader.at_hand(), size) else {
        return awaited_payload(reader, tape, retries, spare, size, number);
    };
    let len = payload.len();
    if spare.len() as usize != len {
        return next_of_other_length(reader, tape, retries, spare, size, number);
    }
    let sheet = filled(spare, payload);
    reader.consume(4 + len);
    Ok(Some(sheet))
}
