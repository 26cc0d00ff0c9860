//! The predecoded operations of programs.

use crate::answer_text::AnswerText;
use crate::verified::verified;
use rb_verifier::Operation;
use std::alloc::Global;

/// Writes how each operation of a verified program finds its operands, or why the program is refused, for a context of
/// `ctx_len` bytes and this many rings.
pub(crate) fn answer_forms(
    alloc: Global,
    ctx_len: u64,
    rings: u64,
    hex: &str,
    out: &mut AnswerText,
) {
    if let Some(verified) = verified(alloc, ctx_len, rings, hex, out) {
        out.push("forms");
        for operation in verified.operations().0 {
            out.push(" ");
            tell_form(*operation, out);
        }
    }
}

// Writes `stack:AT`, `context:AT` or `record:ID:AT` for an access whose first byte the operation names, `address` for
// another load or store, `plain` for an instruction without a form of its own, and otherwise `own`.
fn tell_form(operation: Operation, out: &mut AnswerText) {
    if let Some(at) = stack_byte(operation) {
        out.field("stack:", &at);
    } else if let Some(at) = context_byte(operation) {
        out.field("context:", &at);
    } else if let Some((id, at)) = record_byte(operation) {
        out.field("record:", &id);
        out.field(":", &at);
    } else {
        out.push(kind_of(operation));
    }
}

fn kind_of(operation: Operation) -> &'static str {
    match operation {
        Operation::Plain => "plain",
        operation if has_address(operation) => "address",
        _ => "own",
    }
}

fn record_byte(operation: Operation) -> Option<(u16, u32)> {
    match loaded_byte(operation) {
        Some(byte) => Some(byte),
        None => stored_byte(operation),
    }
}

fn stack_byte(operation: Operation) -> Option<u16> {
    match operation {
        Operation::LoadStackByte { at, .. } => Some(at),
        Operation::LoadStackHalf { at, .. } => Some(at),
        Operation::LoadStackWord { at, .. } => Some(at),
        Operation::LoadStackDouble { at, .. } => Some(at),
        Operation::StoreStackByte { at, .. } => Some(at),
        Operation::StoreStackHalf { at, .. } => Some(at),
        Operation::StoreStackWord { at, .. } => Some(at),
        Operation::StoreStackDouble { at, .. } => Some(at),
        Operation::StoreStackByteImmediate { at, .. } => Some(at),
        Operation::StoreStackHalfImmediate { at, .. } => Some(at),
        Operation::StoreStackWordImmediate { at, .. } => Some(at),
        Operation::StoreStackDoubleImmediate { at, .. } => Some(at),
        _ => None,
    }
}

fn context_byte(operation: Operation) -> Option<u16> {
    match operation {
        Operation::LoadContextByte { at, .. } => Some(at),
        Operation::LoadContextHalf { at, .. } => Some(at),
        Operation::LoadContextWord { at, .. } => Some(at),
        Operation::LoadContextDouble { at, .. } => Some(at),
        _ => None,
    }
}

fn loaded_byte(operation: Operation) -> Option<(u16, u32)> {
    match operation {
        Operation::LoadRecordByte { id, at, .. } => Some((id, at)),
        Operation::LoadRecordHalf { id, at, .. } => Some((id, at)),
        Operation::LoadRecordWord { id, at, .. } => Some((id, at)),
        Operation::LoadRecordDouble { id, at, .. } => Some((id, at)),
        _ => None,
    }
}

fn stored_byte(operation: Operation) -> Option<(u16, u32)> {
    match operation {
        Operation::StoreRecordByte { id, at, .. } => Some((id, at)),
        Operation::StoreRecordHalf { id, at, .. } => Some((id, at)),
        Operation::StoreRecordWord { id, at, .. } => Some((id, at)),
        Operation::StoreRecordDouble { id, at, .. } => Some((id, at)),
        Operation::StoreRecordByteImmediate { id, at, .. } => Some((id, u32::from(at))),
        Operation::StoreRecordHalfImmediate { id, at, .. } => Some((id, u32::from(at))),
        Operation::StoreRecordWordImmediate { id, at, .. } => Some((id, u32::from(at))),
        Operation::StoreRecordDoubleImmediate { id, at, .. } => Some((id, u32::from(at))),
        _ => None,
    }
}

fn has_address(operation: Operation) -> bool {
    matches!(
        operation,
        Operation::LoadByte { .. }
            | Operation::LoadHalf { .. }
            | Operation::LoadWord { .. }
            | Operation::LoadDouble { .. }
            | Operation::StoreByte { .. }
            | Operation::StoreHalf { .. }
            | Operation::StoreWord { .. }
            | Operation::StoreDouble { .. }
            | Operation::StoreByteImmediate { .. }
            | Operation::StoreHalfImmediate { .. }
            | Operation::StoreWordImmediate { .. }
            | Operation::StoreDoubleImmediate { .. }
    )
}
