//! The output lines of a script's turns, and of the world at the end, in the requested form.

ghost use Rattle.std.specs.Prelude.{◌≡◌, ◌<◌, ◌^◌, ◌++◌, OnOk, length};
ghost use Rattle.rb_io.specs.Lines.{hex_text};
ghost use Rattle.rb_json.specs.declared.form.LineForm.TheVariants.{Json};
ghost use Rattle.rb_script.specs.OutputLines.{at_line, bytes_field, chapter_line, chapter_number, counts_fields, discarded_field, done_line, found_field, found_fields, grant_fields, ring_line, take_line};

use crate::line_fields::{push_first_field, push_line_end, push_next_field, push_word};
use rb_history::{Counts, Taken};
use rb_json::{LineForm, push_payload};
use rb_lend::Lent;
use std::alloc::{AllocError, Global};

// Appends the line of a take.
pub(crate) fn push_take(
    alloc: Global,
    text: &mut Vec<u8>,
    form: LineForm,
    ring: u32,
    found: &Taken,
) -> Result<(), AllocError>
    ensures line { OnOk result (text.new.items ≡ text.old.items ++ take_line form ring found.now) }
{
    push_first_field(text, form, b"take", u64::from(ring))?;
    push_found(alloc, text, form, found)?;
    push_line_end(text, form)
}

// Appends what a take found.
fn push_found(
    alloc: Global,
    text: &mut Vec<u8>,
    form: LineForm,
    found: &Taken,
) -> Result<(), AllocError>
    ensures fields { OnOk result (text.new.items ≡ text.old.items ++ found_fields form found.now) }
{
    match found {
        Taken::BusyFront => push_found_word(text, form, b"busy"),
        Taken::Empty => push_found_word(text, form, b"empty"),
        Taken::Skipped(pos, len) => {
            push_next_field(text, form, b"pos", *pos)?;
            push_next_field(text, form, b"len", u64::from(*len))?;
            push_discarded(text, form)
        }
        Taken::Event(pos, worker, serial, sheet) => {
            push_grant(text, form, *pos, *worker, *serial)?;
            push_next_field(text, form, b"len", u64::from(sheet.len()))?;
            push_bytes(alloc, text, form, sheet.bytes())
        }
    }
}

#[tactic(auto, unfolding(crate::specs::OutputLines::found_field))]
// Appends why a take found no record.
fn push_found_word(text: &mut Vec<u8>, form: LineForm, why: &[u8]) -> Result<(), AllocError>
    ensures field { OnOk result (text.new.items ≡ text.old.items ++ found_field form why.now) }
{
    match form {
        LineForm::Words => {
            text.extend_from_slice(b" ")?;
            text.extend_from_slice(why)
        }
        LineForm::Json => {
            text.extend_from_slice(b",\"found\":\"")?;
            text.extend_from_slice(why)?;
            text.extend_from_slice(b"\"")
        }
    }
}

#[tactic(auto, unfolding(crate::specs::OutputLines::discarded_field))]
// Appends that a record was discarded.
fn push_discarded(text: &mut Vec<u8>, form: LineForm) -> Result<(), AllocError>
    ensures field { OnOk result (text.new.items ≡ text.old.items ++ discarded_field form) }
{
    match form {
        LineForm::Words => text.extend_from_slice(b" discarded"),
        LineForm::Json => text.extend_from_slice(b",\"discarded\":true"),
    }
}

// Appends a record's position, worker and serial.
fn push_grant(
    text: &mut Vec<u8>,
    form: LineForm,
    pos: u64,
    worker: u32,
    serial: u64,
) -> Result<(), AllocError>
    ensures fields { OnOk result (text.new.items ≡ text.old.items ++ grant_fields form pos worker serial) }
{
    push_next_field(text, form, b"pos", pos)?;
    push_next_field(text, form, b"worker", u64::from(worker))?;
    push_next_field(text, form, b"serial", serial)
}

#[tactic(auto, unfolding(crate::specs::OutputLines::bytes_field))]
// Appends the bytes of a submitted record.
fn push_bytes(
    alloc: Global,
    text: &mut Vec<u8>,
    form: LineForm,
    bytes: &[u8],
) -> Result<(), AllocError>
    requires short { length bytes.now < 2 ^ 32 }
    ensures field { OnOk result (text.new.items ≡ text.old.items ++ bytes_field form bytes.now) }
{
    match form {
        LineForm::Words => {
            text.extend_from_slice(b" ")?;
            push_hex(text, bytes)
        }
        LineForm::Json => push_bytes_fields(alloc, text, bytes),
    }
}

#[tactic(auto, unfolding(crate::specs::OutputLines::bytes_field))]
// Appends them as fields of an object.
fn push_bytes_fields(alloc: Global, text: &mut Vec<u8>, bytes: &[u8]) -> Result<(), AllocError>
    ensures fields { OnOk result (text.new.items ≡ text.old.items ++ bytes_field Json bytes.now) }
{
    text.extend_from_slice(b",\"discarded\":false,")?;
    push_payload(alloc, text, bytes)
}

// Appends bytes in hex, or `-` if there are none.
fn push_hex(text: &mut Vec<u8>, bytes: &[u8]) -> Result<(), AllocError>
    requires short { length bytes.now < 2 ^ 32 }
    ensures hex { OnOk result (text.new.items ≡ text.old.items ++ hex_text bytes.now) }
{
    if bytes.is_empty() {
        return text.extend_from_slice(b"-");
    }
    let end = text.len();
    text.resize(end + 2 * bytes.len(), 0)?;
    let Ok(()) = hex::encode_to_slice(bytes, &mut text[end..]) else {
        unreachable!()
    };
    Ok(())
}

// Appends the line of a chapter that a ring handed out.
pub(crate) fn push_chapter(
    text: &mut Vec<u8>,
    form: LineForm,
    ring: u32,
    number: u64,
) -> Result<(), AllocError>
    ensures line { OnOk result (text.new.items ≡ text.old.items ++ chapter_line form ring number) }
{
    push_first_field(text, form, b"chapter", u64::from(ring))?;
    push_chapter_number(text, form, number)?;
    push_line_end(text, form)
}

#[tactic(auto, unfolding(crate::specs::OutputLines::chapter_number))]
// Appends the number of a chapter.
fn push_chapter_number(text: &mut Vec<u8>, form: LineForm, number: u64) -> Result<(), AllocError>
    ensures number { OnOk result (text.new.items ≡ text.old.items ++ chapter_number form number) }
{
    match form {
        LineForm::Words => push_word(text, number),
        LineForm::Json => push_next_field(text, LineForm::Json, b"number", number),
    }
}

// Appends the line of a worker whose program ended with `value`.
pub(crate) fn push_done(
    text: &mut Vec<u8>,
    form: LineForm,
    worker: u32,
    value: u64,
) -> Result<(), AllocError>
    ensures line { OnOk result (text.new.items ≡ text.old.items ++ done_line form worker value) }
{
    push_first_field(text, form, b"worker", u64::from(worker))?;
    push_next_field(text, form, b"done", value)?;
    push_line_end(text, form)
}

// Appends the line of a running worker, with its next unit.
pub(crate) fn push_at(
    text: &mut Vec<u8>,
    form: LineForm,
    worker: u32,
    unit: u32,
) -> Result<(), AllocError>
    ensures line { OnOk result (text.new.items ≡ text.old.items ++ at_line form worker unit) }
{
    push_first_field(text, form, b"worker", u64::from(worker))?;
    push_next_field(text, form, b"at", u64::from(unit))?;
    push_line_end(text, form)
}

// Appends the line of a ring: its positions and its counts.
pub(crate) fn push_ring(
    text: &mut Vec<u8>,
    form: LineForm,
    ring: u32,
    producer: u64,
    consumer: u64,
    counts: Counts,
) -> Result<(), AllocError>
    ensures line { OnOk result (text.new.items ≡ text.old.items ++ ring_line form ring producer consumer counts) }
{
    push_first_field(text, form, b"ring", u64::from(ring))?;
    push_next_field(text, form, b"producer", producer)?;
    push_next_field(text, form, b"consumer", consumer)?;
    push_counts(text, form, counts)?;
    push_line_end(text, form)
}

// Appends the counts of a ring.
fn push_counts(text: &mut Vec<u8>, form: LineForm, counts: Counts) -> Result<(), AllocError>
    ensures fields { OnOk result (text.new.items ≡ text.old.items ++ counts_fields form counts) }
{
    push_next_field(text, form, b"consumed", counts.consumed)?;
    push_next_field(text, form, b"discarded", counts.discarded)?;
    push_next_field(text, form, b"waiting", counts.waiting)?;
    push_next_field(text, form, b"busy", counts.busy)
}
