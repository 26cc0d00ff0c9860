//! The text of the answers, which is assembled piece by piece.

use std::alloc::Global;
use std::fmt::{Debug, Display};

/// A text that is assembled without early exits. A piece that cannot be allocated is omitted, and the text is incomplete
/// from then on.
#[derive(Drop)]
pub(crate) struct AnswerText {
    text: String,
    complete: bool,
}

impl AnswerText {
    /// An empty text.
    pub(crate) fn new(alloc: Global) -> AnswerText {
        AnswerText {
            text: String::new(alloc),
            complete: true,
        }
    }

    /// Returns the text.
    pub(crate) fn as_str(&self) -> &str {
        self.text.as_str()
    }

    /// Whether nothing was omitted since `new`.
    pub(crate) fn is_complete(&self) -> bool {
        self.complete
    }

    /// Makes the text incomplete, after an allocation that failed.
    pub(crate) fn lack(&mut self) {
        self.complete = false;
    }

    /// Appends another text. The text becomes incomplete if that one is.
    pub(crate) fn add(&mut self, other: &AnswerText) {
        self.push(other.as_str());
        self.complete = self.complete && other.complete;
    }

    /// Appends a piece.
    pub(crate) fn push(&mut self, piece: &str) {
        if self.text.push_str(piece).is_err() {
            self.lack();
        }
    }

    /// Appends a value as `{}` formats it.
    pub(crate) fn show<T: Display>(&mut self, value: &T) {
        if write!(self.text, "{value}").is_err() {
            self.lack();
        }
    }

    /// Appends a value as `{:?}` formats it.
    pub(crate) fn debug<T: Debug>(&mut self, value: &T) {
        if write!(self.text, "{value:?}").is_err() {
            self.lack();
        }
    }

    /// Appends a number in hexadecimal, after `0x`.
    pub(crate) fn hex(&mut self, number: u64) {
        if write!(self.text, "{number:#x}").is_err() {
            self.lack();
        }
    }

    /// Appends a byte as `\x` and two hex digits.
    pub(crate) fn escape(&mut self, byte: u8) {
        if write!(self.text, "\\x{byte:02x}").is_err() {
            self.lack();
        }
    }

    /// Appends a piece, and a value as `{}` formats it.
    pub(crate) fn field<T: Display>(&mut self, name: &str, value: &T) {
        self.push(name);
        self.show(value);
    }
}
