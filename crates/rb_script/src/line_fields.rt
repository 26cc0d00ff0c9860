//! The fields of an output line, in words or of a JSON object.

ghost use Rattle.std.specs.Prelude.{◌≡◌, ◌++◌, OnOk, codes};
ghost use Rattle.std.specs.Fmt.{decimal};
ghost use Rattle.rb_script.specs.LineFields.{field, first_field, line_end};

use itoa::Buffer;
use rb_json::{LineForm, push_field};
use std::alloc::AllocError;

#[tactic(auto, unfolding(crate::specs::LineFields::first_field))]
// Appends the first field of a line.
pub(crate) fn push_first_field(
    text: &mut Vec<u8>,
    form: LineForm,
    name: &[u8],
    number: u64,
) -> Result<(), AllocError>
    ensures field { OnOk result (text.new.items ≡ text.old.items ++ first_field form name.now number) }
{
    match form {
        LineForm::Words => {
            text.extend_from_slice(name)?;
            push_word(text, number)
        }
        LineForm::Json => {
            text.extend_from_slice(b"{\"")?;
            text.extend_from_slice(name)?;
            push_field(text, b"\":", number)
        }
    }
}

#[tactic(auto, unfolding(crate::specs::LineFields::field))]
// Appends a further field.
pub(crate) fn push_next_field(
    text: &mut Vec<u8>,
    form: LineForm,
    name: &[u8],
    number: u64,
) -> Result<(), AllocError>
    ensures field { OnOk result (text.new.items ≡ text.old.items ++ field form name.now number) }
{
    match form {
        LineForm::Words => {
            text.extend_from_slice(b" ")?;
            text.extend_from_slice(name)?;
            push_word(text, number)
        }
        LineForm::Json => {
            text.extend_from_slice(b",\"")?;
            text.extend_from_slice(name)?;
            push_field(text, b"\":", number)
        }
    }
}

#[tactic(auto, unfolding(crate::specs::LineFields::line_end))]
// Ends the object, if it is one, and the line.
pub(crate) fn push_line_end(text: &mut Vec<u8>, form: LineForm) -> Result<(), AllocError>
    ensures end { OnOk result (text.new.items ≡ text.old.items ++ line_end form) }
{
    match form {
        LineForm::Words => text.extend_from_slice(b"\n"),
        LineForm::Json => text.extend_from_slice(b"}\n"),
    }
}

// Appends a space and a number in decimal digits.
pub(crate) fn push_word(text: &mut Vec<u8>, number: u64) -> Result<(), AllocError>
    ensures word { OnOk result (text.new.items ≡ text.old.items ++ codes " " ++ decimal number) }
{
    text.extend_from_slice(b" ")?;
    push_number(text, number)
}

// Appends a number in decimal digits.
pub(crate) fn push_number(text: &mut Vec<u8>, number: u64) -> Result<(), AllocError>
    ensures digits { OnOk result (text.new.items ≡ text.old.items ++ decimal number) }
{
    let mut digits = Buffer::new();
    text.extend_from_slice(digits.format(number).as_bytes())
}
