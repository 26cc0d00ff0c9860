//! The messages for faults.

ghost use Rattle.std.specs.Prelude.{◌≡◌, ◌++◌, [], IfOk, OnOk, codes, string_bytes};
ghost use Rattle.rb_explain.specs.Explanations.{IsPlainText, number_text, message_text};
ghost use Rattle.rb_explain.specs.Objects as objects;

use crate::objects::push_fault_object;
use rb_json::LineForm;
use rb_program::{DecodeKind, ShapeFaultKind};
use rb_verifier::Rule;
use std::alloc::{AllocError, Global};
use std::fmt::Write;

/// Returns the name of a decode fault.
pub(crate) fn decode_name(kind: DecodeKind) -> &'static str
    ensures name { result.now ≡ objects.decode_name kind }
    ensures plain { IsPlainText result.now }
{
    match kind {
        DecodeKind::Length => "Length",
        DecodeKind::TooLong => "TooLong",
        DecodeKind::LeftOut => "LeftOut",
        DecodeKind::BadOpcode => "BadOpcode",
        DecodeKind::BadRegister => "BadRegister",
        DecodeKind::UnusedField => "UnusedField",
        DecodeKind::HalfWide => "HalfWide",
        DecodeKind::Memory => "Memory",
    }
}

/// Returns the name of a shape fault.
pub(crate) fn shape_name(kind: ShapeFaultKind) -> &'static str
    ensures name { result.now ≡ objects.shape_name kind }
    ensures plain { IsPlainText result.now }
{
    match kind {
        ShapeFaultKind::Backward => "Backward",
        ShapeFaultKind::OutOfProgram => "OutOfProgram",
        ShapeFaultKind::IntoWide => "IntoWide",
        ShapeFaultKind::FallsOff => "FallsOff",
        ShapeFaultKind::Unreachable => "Unreachable",
        ShapeFaultKind::Memory => "Memory",
    }
}

// Appends a line and a line feed.
fn push_whole_line(text: &mut String, line: &str) -> Result<(), AllocError>
    ensures added { OnOk result (string_bytes text.new ≡ string_bytes text.old ++ line.now ++ codes "\n") }
{
    text.push_str(line)?;
    text.push_str("\n")
}

// Returns a name, a colon and an advice.
fn joined(alloc: Global, name: &str, advice: &str) -> Result<String, AllocError>
    ensures { IfOk result (λ text. string_bytes text ≡ name.now ++ codes ": " ++ advice.now) }
{
    format!(in alloc; "{name}: {advice}")
}

/// Returns the message for a fault: its name and the advice for it, `BadOpcode: ..`.
pub(crate) fn named_advice(alloc: Global, name: &str, advice: &str) -> Result<String, AllocError>
    requires name { IsPlainText name.now }
    requires advice { IsPlainText advice.now }
    ensures plain { IfOk result (λ text. IsPlainText (string_bytes text)) }
    ensures named { IfOk result (λ text. string_bytes text ≡ name.now ++ codes ": " ++ advice.now) }
{
    let text = joined(alloc, name, advice)?;
    Ok(text)
}

/// Appends the message for a fault whose advice begins with its name.
pub(crate) fn push_message(
    text: &mut String,
    form: LineForm,
    layer: &str,
    name: &str,
    unit: u32,
    advice: &str,
) -> Result<(), AllocError>
    ensures added { OnOk result (string_bytes text.new ≡ string_bytes text.old ++ message_text form [] layer.now name.now unit advice.now) }
{
    match form {
        LineForm::Words => push_whole_line(text, advice),
        LineForm::Json => push_fault_object(text, layer, name, unit, advice),
    }
}

// Appends the number of a rule that precedes its message: `V10: `.
fn push_number(text: &mut String, rule: Rule) -> Result<(), AllocError>
    ensures added { OnOk result (string_bytes text.new ≡ string_bytes text.old ++ number_text rule) }
{
    write!(text, "V{}: ", rule.number())
}

/// Appends the message for a broken rule.
pub(crate) fn push_rule_message(
    alloc: Global,
    text: &mut String,
    form: LineForm,
    unit: u32,
    rule: Rule,
    advice: &str,
) -> Result<(), AllocError>
    ensures added { OnOk result (string_bytes text.new ≡ string_bytes text.old ++ message_text form (number_text rule) (codes "verify") (objects.rule_name rule) unit advice.now) }
{
    match form {
        LineForm::Words => {
            push_number(text, rule)?;
            push_whole_line(text, advice)
        }
        LineForm::Json => {
            let name = format!(in alloc; "V{}", rule.number())?;
            push_fault_object(text, "verify", name.as_str(), unit, advice)
        }
    }
}
