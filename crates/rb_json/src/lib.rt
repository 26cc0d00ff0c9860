//! JSON values as exact text, for lines of output: numbers, strings, and the bytes of a payload (RFC 8259).
//!
//! A number greater than 2^53 is written as a string, since many parsers keep a number as a 64-bit float. A payload is
//! written in hex and, if it is UTF-8, also as a text. Proved: what is appended to a line is exactly the text that the
//! definitions give.
//!
//! ```text
//! push_number(&mut line, 42)?;                    // 42
//! push_number(&mut line, u64::MAX)?;              // "18446744073709551615"
//! push_payload(alloc, &mut line, b"hi")?;         // "hex":"6869","text":"hi"
//! ```
#![tactic(auto)]

mod form;
mod words;

pub use form::LineForm;
pub use words::{push_field, push_number, push_payload, push_text, push_wide_number};
