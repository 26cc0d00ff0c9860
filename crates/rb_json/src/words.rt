//! Functions that append JSON values to a line.

ghost use Rattle.std.specs.Prelude.{◌≡◌, ◌++◌, OnOk};
ghost use Rattle.hex.specs.Hex.{encode_lower};
ghost use Rattle.std.specs.List.{flat_map};
ghost use Rattle.rb_json.specs.Json.{escaped, json_number, json_text, payload_fields, quoted, text_field};

use itoa::Buffer;
use std::alloc::{AllocError, Global};

/// The largest number that every JSON parser keeps exactly: 2^53.
const EXACT: u64 = 1 << 53;

#[tactic(auto, unfolding(crate::specs::Json::json_number))]
/// Appends a number; one greater than 2^53 as a string.
pub fn push_number(line: &mut Vec<u8>, number: u64) -> Result<(), AllocError>
    ensures number { OnOk result (line.new.items ≡ line.old.items ++ json_number number) }
{
    let mut digits = Buffer::new();
    if number <= EXACT {
        return line.extend_from_slice(digits.format(number).as_bytes());
    }
    line.extend_from_slice(b"\"")?;
    line.extend_from_slice(digits.format(number).as_bytes())?;
    line.extend_from_slice(b"\"")
}

#[tactic(auto, unfolding(crate::specs::Json::json_number))]
/// Appends a number that may be wider than 64 bits; one greater than 2^53 as a string.
pub fn push_wide_number(line: &mut Vec<u8>, number: u128) -> Result<(), AllocError>
    ensures number { OnOk result (line.new.items ≡ line.old.items ++ json_number number) }
{
    let mut digits = Buffer::new();
    if number <= u128::from(EXACT) {
        return line.extend_from_slice(digits.format(number).as_bytes());
    }
    line.extend_from_slice(b"\"")?;
    line.extend_from_slice(digits.format(number).as_bytes())?;
    line.extend_from_slice(b"\"")
}

/// Appends `front`, for example the name of a field, and then the number.
pub fn push_field(line: &mut Vec<u8>, front: &[u8], number: u64) -> Result<(), AllocError>
    ensures field { OnOk result (line.new.items ≡ line.old.items ++ front.now ++ json_number number) }
{
    line.extend_from_slice(front)?;
    push_number(line, number)
}

// Appends bytes in hex.
fn push_hex(alloc: Global, line: &mut Vec<u8>, bytes: &[u8]) -> Result<(), AllocError>
    ensures hex { OnOk result (line.new.items ≡ line.old.items ++ encode_lower bytes.now) }
{
    let hex = hex::encode(alloc, bytes)?;
    line.extend_from_slice(hex.as_bytes())
}

// Appends a byte of a string, escaped if necessary.
fn push_byte(alloc: Global, line: &mut Vec<u8>, byte: u8) -> Result<(), AllocError>
    ensures byte { OnOk result (line.new.items ≡ line.old.items ++ escaped byte) }
{
    if byte == b'"' {
        return line.extend_from_slice(b"\\\"");
    }
    if byte == b'\\' {
        return line.extend_from_slice(b"\\\\");
    }
    if byte < b' ' {
        line.extend_from_slice(b"\\u00")?;
        return push_hex(alloc, line, &[byte]);
    }
    line.extend_from_slice(&[byte])
}

// Appends the bytes of a string, escaped.
fn push_bytes(alloc: Global, line: &mut Vec<u8>, text: &[u8]) -> Result<(), AllocError>
    ensures bytes { OnOk result (line.new.items ≡ line.old.items ++ flat_map escaped text.now) }
{
    for byte in text {
        push_byte(alloc, line, *byte)?;
    }
    Ok(())
}

/// Appends a text as a string.
pub fn push_text(alloc: Global, line: &mut Vec<u8>, text: &str) -> Result<(), AllocError>
    ensures text { OnOk result (line.new.items ≡ line.old.items ++ json_text text.now) }
{
    line.extend_from_slice(b"\"")?;
    push_bytes(alloc, line, text.as_bytes())?;
    line.extend_from_slice(b"\"")
}

// Appends the text field of a payload if the payload is UTF-8.
fn push_text_field(alloc: Global, line: &mut Vec<u8>, bytes: &[u8]) -> Result<(), AllocError>
    ensures field { OnOk result (line.new.items ≡ line.old.items ++ text_field bytes.now) }
{
    match str::from_utf8(bytes) {
        Ok(text) => {
            line.extend_from_slice(b",\"text\":")?;
            push_text(alloc, line, text)
        }
        Err(_) => Ok(()),
    }
}

#[tactic(auto, unfolding(crate::specs::Json::payload_fields))]
/// Appends the fields of a payload: its bytes in hex and, if they are UTF-8, as a text.
pub fn push_payload(alloc: Global, line: &mut Vec<u8>, bytes: &[u8]) -> Result<(), AllocError>
    ensures fields { OnOk result (line.new.items ≡ line.old.items ++ payload_fields bytes.now) }
{
    line.extend_from_slice(b"\"hex\":\"")?;
    push_hex(alloc, line, bytes)?;
    line.extend_from_slice(b"\"")?;
    push_text_field(alloc, line, bytes)
}
