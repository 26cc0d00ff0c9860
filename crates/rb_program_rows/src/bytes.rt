//! Bytes in rows: hex, and text with escapes.

use crate::answer_text::AnswerText;
use std::alloc::{AllocError, Global};

/// Decodes hex, ignoring white space, or returns `None` if it is not hex.
pub(crate) fn bytes_of(alloc: Global, hex: &str) -> Result<Option<Vec<u8>>, AllocError> {
    let digits: Vec<u8> = hex
        .as_bytes()
        .iter()
        .copied()
        .filter(|byte| !byte.is_ascii_whitespace())
        .collect(alloc)?;
    Ok(hex::decode(alloc, digits.as_slice()).ok())
}

// The state of an escape.
#[derive(Clone, Copy)]
enum Escape {
    // No escape.
    Plain,
    // After a backslash.
    Begun,
    // After a backslash and x.
    Hex,
    // After these and a digit of this value.
    Digit(u8),
}

/// Decodes a text in which `\n`, `\r`, `\t`, `\\` and `\x` with two hex digits stand for one byte each.
pub(crate) fn unescaped(alloc: Global, text: &str) -> Result<Vec<u8>, AllocError> {
    let mut bytes = Vec::new(alloc);
    let mut escape = Escape::Plain;
    for byte in text.as_bytes() {
        let (next, plain) = after(escape, *byte);
        escape = next;
        if let Some(plain) = plain {
            bytes.push(plain)?;
        }
    }
    Ok(bytes)
}

// Returns the state after a byte, and the decoded byte if one is complete.
fn after(escape: Escape, byte: u8) -> (Escape, Option<u8>) {
    match (escape, byte) {
        (Escape::Plain, b'\\') => (Escape::Begun, None),
        (Escape::Begun, b'x') => (Escape::Hex, None),
        (Escape::Begun, b'n') => (Escape::Plain, Some(b'\n')),
        (Escape::Begun, b'r') => (Escape::Plain, Some(b'\r')),
        (Escape::Begun, b't') => (Escape::Plain, Some(b'\t')),
        (Escape::Hex, digit) => (Escape::Digit(value_of(digit)), None),
        (Escape::Digit(high), digit) => (
            Escape::Plain,
            Some((high % 16) * 16 + value_of(digit) % 16),
        ),
        (_, byte) => (Escape::Plain, Some(byte)),
    }
}

// Returns the value of a hex digit, or 0 for another byte.
fn value_of(digit: u8) -> u8 {
    match digit {
        b'0'..=b'9' => digit - b'0',
        b'a'..=b'f' => digit - b'a' + 10,
        _ => 0,
    }
}

/// Appends bytes with escapes, each line of them on a line of its own that begins with `word`.
pub(crate) fn tell_escaped(word: &str, bytes: &[u8], out: &mut AnswerText) {
    let mut begins = true;
    for byte in bytes {
        if begins {
            tell_word(word, out);
        }
        tell_byte(*byte, out);
        begins = *byte == b'\n';
    }
}

fn tell_word(word: &str, out: &mut AnswerText) {
    out.push("\n");
    out.push(word);
    out.push(" ");
}

fn tell_byte(byte: u8, out: &mut AnswerText) {
    match byte {
        b'\n' => out.push("\\n"),
        b'\\' => out.push("\\\\"),
        b' '..=b'~' => out.show(&char::from(byte)),
        _ => out.escape(byte),
    }
}
