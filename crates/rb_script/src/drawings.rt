//! Draws a ring as one line, in the requested form.

ghost use Rattle.std.specs.Prelude.{◌≡◌, ◌-◌, ◌++◌, OnOk, map};
ghost use Rattle.std.specs.List.{flat_map};
ghost use Rattle.rb_chapter_ring.specs.UntakenRecords.{status_shown, untaken_shown};
ghost use Rattle.rb_json.specs.declared.form.LineForm.TheVariants.{Json, Words};
ghost use Rattle.rb_script.specs.Drawings.{boxes, drawing_line, next_box, objects, part, record_box, status_word};

use crate::line_fields::{push_first_field, push_line_end, push_next_field, push_word};
use rb_chapter_ring::{Snapshot, UntakenRecord, UntakenStatus};
use rb_history::span;
use rb_json::LineForm;
use std::alloc::AllocError;

// Appends the drawing of a ring, from a summary of the end of its chapter: its positions, the records between them, and
// the free bytes.
pub(crate) fn push_drawing(
    text: &mut Vec<u8>,
    form: LineForm,
    ring: u32,
    closing: &Snapshot,
) -> Result<(), AllocError>
    ensures line { OnOk result (text.new.items ≡ text.old.items ++ drawing_line form ring closing.now.opening.setup.size closing.now.opening.consumer closing.now.opening.producer closing.now.opening.records) }
{
    let numbers = closing.numbers();
    let free = free_in(numbers.size, numbers.consumer, numbers.producer);
    push_first_field(text, form, b"draw", u64::from(ring))?;
    push_part(text, form, b"consumer", numbers.consumer)?;
    push_boxes(text, form, closing.records())?;
    push_part(text, form, b"producer", numbers.producer)?;
    push_part(text, form, b"free", free)?;
    push_line_end(text, form)
}

// Returns how many bytes of a ring are not between its positions.
fn free_in(size: u64, consumer: u64, producer: u64) -> u64
    ensures { result ≡ size - (producer - consumer) }
{
    size.saturating_sub(producer.saturating_sub(consumer))
}

#[tactic(auto, unfolding(crate::specs::Drawings::part))]
// Appends a part with a number.
fn push_part(text: &mut Vec<u8>, form: LineForm, name: &[u8], number: u64) -> Result<(), AllocError>
    ensures part { OnOk result (text.new.items ≡ text.old.items ++ part form name.now number) }
{
    match form {
        LineForm::Words => {
            text.extend_from_slice(b" |")?;
            push_next_field(text, LineForm::Words, name, number)
        }
        LineForm::Json => push_next_field(text, LineForm::Json, name, number),
    }
}

// Appends the boxes of the records.
fn push_boxes(
    text: &mut Vec<u8>,
    form: LineForm,
    records: &[UntakenRecord],
) -> Result<(), AllocError>
    ensures boxes { OnOk result (text.new.items ≡ text.old.items ++ boxes form (map untaken_shown records.now)) }
{
    match form {
        LineForm::Words => push_next_boxes(text, LineForm::Words, records),
        LineForm::Json => push_list(text, records),
    }
}

// Appends the list of the records' objects.
fn push_list(text: &mut Vec<u8>, records: &[UntakenRecord]) -> Result<(), AllocError>
    ensures list { OnOk result (text.new.items ≡ text.old.items ++ boxes Json (map untaken_shown records.now)) }
{
    text.extend_from_slice(b",\"records\":[")?;
    push_objects(text, records)?;
    text.extend_from_slice(b"]")
}

// Appends the objects of the records, separated by commas.
fn push_objects(text: &mut Vec<u8>, records: &[UntakenRecord]) -> Result<(), AllocError>
    ensures objects { OnOk result (text.new.items ≡ text.old.items ++ objects (map untaken_shown records.now)) }
{
    match records.split_first() {
        None => Ok(()),
        Some((first, more)) => {
            push_object(text, first)?;
            push_next_boxes(text, LineForm::Json, more)
        }
    }
}

// Appends the boxes of further records.
fn push_next_boxes(
    text: &mut Vec<u8>,
    form: LineForm,
    records: &[UntakenRecord],
) -> Result<(), AllocError>
    ensures boxes { OnOk result (text.new.items ≡ text.old.items ++ flat_map (next_box form) (map untaken_shown records.now)) }
{
    for untaken in records {
        push_next_box(text, form, untaken)?;
    }
    Ok(())
}

// Appends the box of a further record.
fn push_next_box(
    text: &mut Vec<u8>,
    form: LineForm,
    untaken: &UntakenRecord,
) -> Result<(), AllocError>
    ensures shown { OnOk result (text.new.items ≡ text.old.items ++ next_box form (untaken_shown untaken.now)) }
{
    match form {
        LineForm::Words => push_box(text, untaken),
        LineForm::Json => {
            text.extend_from_slice(b",")?;
            push_object(text, untaken)
        }
    }
}

#[tactic(auto, unfolding(crate::specs::Drawings::record_box))]
// Appends a record's box in words: its status, the bytes that it takes, its worker and its serial.
fn push_box(text: &mut Vec<u8>, untaken: &UntakenRecord) -> Result<(), AllocError>
    ensures shown { OnOk result (text.new.items ≡ text.old.items ++ record_box Words (untaken_shown untaken.now)) }
{
    text.extend_from_slice(b" | ")?;
    text.extend_from_slice(word_of(untaken.status).as_bytes())?;
    push_word(text, span(untaken.len))?;
    push_next_field(text, LineForm::Words, b"worker", u64::from(untaken.worker))?;
    push_next_field(text, LineForm::Words, b"serial", untaken.serial)
}

#[tactic(auto, unfolding(crate::specs::Drawings::record_box))]
// Appends a record's object.
fn push_object(text: &mut Vec<u8>, untaken: &UntakenRecord) -> Result<(), AllocError>
    ensures shown { OnOk result (text.new.items ≡ text.old.items ++ record_box Json (untaken_shown untaken.now)) }
{
    text.extend_from_slice(b"{\"status\":\"")?;
    text.extend_from_slice(word_of(untaken.status).as_bytes())?;
    text.extend_from_slice(b"\"")?;
    push_next_field(text, LineForm::Json, b"bytes", span(untaken.len))?;
    push_next_field(text, LineForm::Json, b"worker", u64::from(untaken.worker))?;
    push_next_field(text, LineForm::Json, b"serial", untaken.serial)?;
    text.extend_from_slice(b"}")
}

// Returns the word for a record's status.
fn word_of(status: UntakenStatus) -> &'static str
    ensures { result.now ≡ status_word (status_shown status) }
{
    match status {
        UntakenStatus::Busy => "busy",
        UntakenStatus::Waiting => "waiting",
        UntakenStatus::Discarded => "discarded",
    }
}
