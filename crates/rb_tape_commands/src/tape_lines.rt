//! The lines of a tape's records.

ghost use Rattle.std.specs.Prelude.{◌≡◌, ◌<◌, ◌≤◌, ◌+◌, ◌*◌, ◌^◌, ◌++◌, None, IfOk, OnErr, OnOk, length};
ghost use Rattle.rb_tape.specs.TapeReading.{HasItsLength, item_read};
ghost use Rattle.rb_io.specs.Lines.{hex_text};
ghost use Rattle.rb_tape_commands.specs.TapeText.{tape_line, tape_line_as, tape_object};
ghost use Rattle.rb_tape_commands.specs.inner.LineGathering.{GathersLines, GathersNext};

use crate::lines::Lines;
use crate::tape_refusal::TapeRefusal;
use itoa::Buffer;
use rb_json::{LineForm, push_field, push_payload};
use rb_tape::{Feed, Record};
use std::alloc::{AllocError, Global};

// The maximum length of a line without its hex digits: its words, two numbers of 20 and 10 digits, and its end.
const FRAME: usize = 64;

/// Collects the lines of the records that the reader has, for one write, in place of what the list had before. On an
/// error, the list has the lines of the records before it.
pub(crate) fn gather_lines(
    alloc: Global,
    feed: &mut Feed,
    lines: &mut Lines,
    form: LineForm,
) -> Result<(), TapeRefusal>
    requires no_fault { feed.old.told ≡ None }
    ensures gathered { GathersLines form feed.old feed.new lines.new.text result }
{
    lines.clear();
    'records: while gather_next(alloc, feed, lines, form)? {}
    Ok(())
}

// Appends the line of the next record that the reader has. Returns whether there was one.
fn gather_next(
    alloc: Global,
    feed: &mut Feed,
    lines: &mut Lines,
    form: LineForm,
) -> Result<bool, TapeRefusal>
    requires no_fault { feed.old.told ≡ None }
    ensures gathered { GathersNext form feed.old feed.new lines.old.text lines.new.text result }
{
    match feed.next() {
        None => Ok(false),
        Some(Ok(record)) => match push_as(alloc, lines, &record, form) {
            Ok(()) => Ok(true),
            Err(_) => Err(TapeRefusal::Memory),
        },
        Some(Err(fault)) => Err(TapeRefusal::Record {
            kind: fault.kind,
            offset: fault.offset,
        }),
    }
}

// Appends the line of a record in this form, or nothing if it cannot be allocated.
fn push_as(
    alloc: Global,
    lines: &mut Lines,
    found: &Record<'_>,
    form: LineForm,
) -> Result<(), AllocError>
    requires length { HasItsLength found.now }
    requires short { length found.now.bytes.now < 2 ^ 32 }
    ensures line { OnOk result (lines.new.text ≡ lines.old.text ++ tape_line_as form (item_read found.now)) }
    ensures nothing { OnErr result (lines.new.text ≡ lines.old.text) }
{
    match form {
        LineForm::Words => push_line(lines, found),
        LineForm::Json => push_object(alloc, lines, found),
    }
}

// Appends the line of a record in words.
fn push_line(lines: &mut Lines, found: &Record<'_>) -> Result<(), AllocError>
    requires length { HasItsLength found.now }
    requires short { length found.now.bytes.now < 2 ^ 32 }
    ensures line { OnOk result (lines.new.text ≡ lines.old.text ++ tape_line (item_read found.now)) }
    ensures nothing { OnErr result (lines.new.text ≡ lines.old.text) }
{
    lines.reserve(FRAME + 2 * found.bytes.len())?;
    put_line(lines, found);
    Ok(())
}

// Appends the line of a record as a JSON object.
fn push_object(alloc: Global, lines: &mut Lines, found: &Record<'_>) -> Result<(), AllocError>
    requires length { HasItsLength found.now }
    ensures line { OnOk result (lines.new.text ≡ lines.old.text ++ tape_object (item_read found.now)) }
    ensures nothing { OnErr result (lines.new.text ≡ lines.old.text) }
{
    let object = record_object(alloc, found)?;
    if object.len() >= 1 << 34 {
        return Err(AllocError);
    }
    lines.reserve(object.len())?;
    lines.put(object.as_slice());
    Ok(())
}

/// Returns the line of a record as a JSON object: the line that `tape` prints for it in the form `Json`.
pub fn record_object(alloc: Global, found: &Record<'_>) -> Result<Vec<u8>, AllocError>
    requires length { HasItsLength found.now }
    ensures object { IfOk result (λ object. object.items ≡ tape_object (item_read found.now)) }
{
    let mut object = Vec::new(alloc);
    push_field(&mut object, b"{\"pos\":", found.pos)?;
    push_field(&mut object, b",\"len\":", u64::from(found.len))?;
    if found.discarded {
        object.extend_from_slice(b",\"discarded\":true}\n")?;
        return Ok(object);
    }
    object.extend_from_slice(b",\"discarded\":false,")?;
    push_payload(alloc, &mut object, found.bytes)?;
    object.extend_from_slice(b"}\n")?;
    Ok(object)
}

// Appends the line of a record, in space that was reserved.
fn put_line(lines: &mut Lines, found: &Record<'_>)
    requires length { HasItsLength found.now }
    requires short { length found.now.bytes.now < 2 ^ 32 }
    requires room { length lines.old.text + (64 + 2 * length found.now.bytes.now) ≤ lines.old.room }
    ensures line { lines.new.text ≡ lines.old.text ++ tape_line (item_read found.now) }
{
    let (mut pos, mut len) = (Buffer::new(), Buffer::new());
    lines.put(b"pos ");
    lines.put(pos.format(found.pos).as_bytes());
    lines.put(b" len ");
    lines.put(len.format(found.len).as_bytes());
    if found.discarded {
        lines.put(b" discarded\n");
        return;
    }
    lines.put(b" ");
    put_hex(lines, found.bytes);
    lines.put(b"\n");
}

// Appends the bytes in hex, or `-` if there are none.
fn put_hex(lines: &mut Lines, bytes: &[u8])
    requires short { length bytes.now < 2 ^ 32 }
    requires room { length lines.old.text + (1 + 2 * length bytes.now) ≤ lines.old.room }
    ensures hex { lines.new.text ≡ lines.old.text ++ hex_text bytes.now }
    ensures length { length lines.new.text ≤ length lines.old.text + (1 + 2 * length bytes.now) }
    ensures room { lines.new.room ≡ lines.old.room }
{
    if bytes.is_empty() {
        lines.put(b"-");
    } else {
        lines.put_digits(bytes);
    }
}
