//! Explains a program, from its text or its bytes.

ghost use Rattle.std.specs.Prelude.{◌≡◌, ◌≢◌, ◌<◌, ◌≤◌, ◌⊎◌, List, None, Some, IfErr, IfOk, MatchOption, string_bytes};
ghost use Rattle.rb_insn.specs.declared.insn.Insn.{Insn};
ghost use Rattle.rb_program.specs.FirstDecodeFault.{IsFirstDecodeFault, decode_no_memory};
ghost use Rattle.rb_program.specs.Text.{IsHexOf, without_white_space};
ghost use Rattle.rb_program.specs.inner.TextFaults.{IsTextFault};
ghost use Rattle.rb_explain.specs.Explanations.{ExplainsBytes, Explains, IsNoHex, IsProgramOf, IsShapedProgramOf, ShowsDecodeFault, ShowsFront, ShowsRule, ShowsShape, no_hex_text};

use crate::advice::{decode_advice, rule_advice, shape_advice};
use crate::explanation::{Explanation, Reason};
use crate::fault_messages::{
    decode_name, named_advice, push_message, push_rule_message, shape_name,
};
use crate::listing::listing_with_cost;
use crate::windows::{decode_again, push_window, units_text};
use rb_json::LineForm;
use rb_program::{
    DecodeFault, DecodeKind, Shape, ShapeFault, ShapeFaultKind, TextFault, decode, shape,
};
use rb_verifier::{Refusal, Rule, verify};
use std::alloc::{AllocError, Global};

/// Explains the program of a hex text, with ASCII white space anywhere, for a context of `ctx_len` bytes and for
/// `rings` rings.
///
/// For an accepted program, the returned text has each instruction with the abstract state before it, followed by the
/// most that the program can cost, as printed by `rb_cost::cost_text`. For a refused one, it has the units around its
/// first fault with a mark under the faulty one, what is wrong, and how to fix the program. The JSON form has the same
/// as objects, one a line. A refusal is the first fault of the first layer that has one. The only error is a failed
/// allocation, which says nothing about the program.
///
/// The time is linear in the length of the text for each ring, and the memory is linear in the length of the text.
pub fn explain(
    alloc: Global,
    text: &str,
    ctx_len: u32,
    rings: u32,
    form: LineForm,
) -> Result<Explanation, AllocError>
    requires context { ctx_len ≤ 65536 }
    requires rings { rings ≤ 16 }
    ensures explained { IfOk result (Explains form text.now (record { ctx_len = ctx_len; rings = rings })) }
{
    match bytes_of(alloc, text)? {
        Some(bytes) => explain_bytes(alloc, &bytes, ctx_len, rings, form),
        None => no_hex(alloc, form),
    }
}

// Returns the bytes of a hex text, or `None` if it is not hex.
fn bytes_of(alloc: Global, text: &str) -> Result<Option<Vec<u8>>, AllocError>
    ensures hex { IfOk result (λ found. MatchOption found (IsNoHex text.now) (λ bytes. IsHexOf (without_white_space text.now) bytes.items)) }
{
    let digits = digits_of(alloc, text.as_bytes())?;
    match decode_hex(alloc, digits.as_slice()) {
        Ok(bytes) => Ok(Some(bytes)),
        Err(TextFault::NotHex) => Ok(None),
        Err(_) => Err(AllocError),
    }
}

// Returns the bytes that hex digits encode. An error is `NotHex` or a failed allocation.
fn decode_hex(alloc: Global, digits: &[u8]) -> Result<Vec<u8>, TextFault>
    ensures hex { IfOk result (λ bytes. IsHexOf digits.now bytes.items) }
    ensures fault { IfErr result (IsTextFault digits.now) }
{
    let bytes = hex::decode(alloc, digits)?;
    Ok(bytes)
}

// Returns the bytes of a text without its white space.
fn digits_of(alloc: Global, text: &[u8]) -> Result<Vec<u8>, AllocError>
    ensures { IfOk result (λ digits. digits.items ≡ without_white_space text.now) }
{
    text.iter()
        .copied()
        .filter(|byte| !byte.is_ascii_whitespace())
        .collect(alloc)
}

// Returns the message for a text that is not hex.
fn no_hex_line(form: LineForm) -> &'static str
    ensures { result.now ≡ no_hex_text form }
{
    match form {
        LineForm::Words => {
            "The text is not pairs of hex digits. A program is text in hex, sixteen digits a unit, with white space anywhere.\n"
        }
        LineForm::Json => {
            "{\"layer\":\"text\",\"advice\":\"The text is not pairs of hex digits. A program is text in hex, sixteen digits a unit, with white space anywhere.\"}\n"
        }
    }
}

fn no_hex(alloc: Global, form: LineForm) -> Result<Explanation, AllocError>
    ensures reason { IfOk result (λ explanation. explanation.reason ≡ Some Reason.Text) }
    ensures told { IfOk result (λ explanation. string_bytes explanation.text ≡ no_hex_text form) }
{
    Ok(Explanation {
        text: String::from_str(alloc, no_hex_line(form))?,
        reason: Some(Reason::Text),
    })
}

/// Explains the program that these bytes encode, eight for each unit, like `explain`.
pub fn explain_bytes(
    alloc: Global,
    bytes: &[u8],
    ctx_len: u32,
    rings: u32,
    form: LineForm,
) -> Result<Explanation, AllocError>
    requires context { ctx_len ≤ 65536 }
    requires rings { rings ≤ 16 }
    ensures explained { IfOk result (λ explanation.
        ExplainsBytes form bytes.now (record { ctx_len = ctx_len; rings = rings }) explanation.reason (string_bytes explanation.text)) }
{
    let program = match decode(alloc, bytes) {
        Ok(program) => program,
        Err(fault) => return explain_decode(alloc, form, bytes, fault),
    };
    program.facts();
    match shape(alloc, program) {
        Ok(shape) => explain_shaped(alloc, form, bytes, shape, ctx_len, rings),
        Err(fault) => explain_shape(alloc, form, bytes, fault),
    }
}

// Returns the units to show for bytes that are not a program.
fn front_of(
    alloc: Global,
    form: LineForm,
    bytes: &[u8],
    fault: DecodeFault,
) -> Result<String, AllocError>
    requires { (fault ≡ decode_no_memory) ⊎ IsFirstDecodeFault bytes.now fault }
    ensures first { IfOk result (λ shown. IsFirstDecodeFault bytes.now fault) }
    ensures shown { IfOk result (λ shown. ShowsFront form bytes.now fault.unit fault.kind (string_bytes shown)) }
{
    match fault.kind {
        DecodeKind::Memory => Err(AllocError),
        DecodeKind::Length | DecodeKind::TooLong => Ok(String::new(alloc)),
        _ => units_text(alloc, form, bytes, fault.unit),
    }
}

// Explains bytes that are not a program.
fn explain_decode(
    alloc: Global,
    form: LineForm,
    bytes: &[u8],
    fault: DecodeFault,
) -> Result<Explanation, AllocError>
    requires { (fault ≡ decode_no_memory) ⊎ IsFirstDecodeFault bytes.now fault }
    ensures first { IfOk result (λ explanation. IsFirstDecodeFault bytes.now fault) }
    ensures reason { IfOk result (λ explanation. explanation.reason ≡ Some (Reason.Decode fault)) }
    ensures shown { IfOk result (λ explanation. ShowsDecodeFault form bytes.now fault.unit fault.kind (string_bytes explanation.text)) }
{
    let mut text = front_of(alloc, form, bytes, fault)?;
    let name = decode_name(fault.kind);
    let advice = named_advice(alloc, name, decode_advice(fault.kind))?;
    push_message(&mut text, form, "decode", name, fault.unit, &advice)?;
    Ok(Explanation {
        text,
        reason: Some(Reason::Decode(fault)),
    })
}

// Explains a program that is not well shaped.
fn explain_shape(
    alloc: Global,
    form: LineForm,
    bytes: &[u8],
    fault: ShapeFault,
) -> Result<Explanation, AllocError>
    requires unit { fault.unit < 4096 }
    ensures kind { IfOk result (λ explanation. fault.kind ≢ ShapeFaultKind.Memory) }
    ensures reason { IfOk result (λ explanation. explanation.reason ≡ Some (Reason.Shape fault)) }
    ensures shown { (program : List Insn) → IsProgramOf bytes.now program
        → IfOk result (λ explanation. ShowsShape form program fault.unit fault.kind (string_bytes explanation.text)) }
{
    if fault.kind == ShapeFaultKind::Memory {
        return Err(AllocError);
    }
    let program = decode_again(alloc, bytes)?;
    let mut text = String::new(alloc);
    push_window(alloc, &mut text, form, &program, fault.unit)?;
    let name = shape_name(fault.kind);
    let advice = named_advice(alloc, name, shape_advice(fault.kind))?;
    push_message(&mut text, form, "shape", name, fault.unit, &advice)?;
    Ok(Explanation {
        text,
        reason: Some(Reason::Shape(fault)),
    })
}

// Explains a well-shaped program.
fn explain_shaped(
    alloc: Global,
    form: LineForm,
    bytes: &[u8],
    shape: Shape,
    ctx_len: u32,
    rings: u32,
) -> Result<Explanation, AllocError>
    requires program { IsShapedProgramOf bytes.now shape }
    requires context { ctx_len ≤ 65536 }
    requires rings { rings ≤ 16 }
    ensures explained { IfOk result (λ explanation.
        ExplainsBytes form bytes.now (record { ctx_len = ctx_len; rings = rings }) explanation.reason (string_bytes explanation.text)) }
{
    match verify(alloc, shape, ctx_len, rings) {
        Ok(verified) => Ok(Explanation {
            text: listing_with_cost(alloc, form, &verified)?,
            reason: None,
        }),
        Err(Refusal::Memory) => Err(AllocError),
        Err(Refusal::Rule { unit, rule }) => explain_rule(alloc, form, bytes, unit, rule),
    }
}

// Explains a program that breaks a rule.
fn explain_rule(
    alloc: Global,
    form: LineForm,
    bytes: &[u8],
    unit: u32,
    rule: Rule,
) -> Result<Explanation, AllocError>
    requires unit { unit < 4096 }
    ensures reason { IfOk result (λ explanation. explanation.reason ≡ Some (Reason.Rule unit rule)) }
    ensures shown { (program : List Insn) → IsProgramOf bytes.now program
        → IfOk result (λ explanation. ShowsRule form program unit rule (string_bytes explanation.text)) }
{
    let program = decode_again(alloc, bytes)?;
    let mut text = String::new(alloc);
    push_window(alloc, &mut text, form, &program, unit)?;
    let advice = rule_advice(rule);
    push_rule_message(alloc, &mut text, form, unit, rule, advice)?;
    Ok(Explanation {
        text,
        reason: Some(Reason::Rule { unit, rule }),
    })
}
