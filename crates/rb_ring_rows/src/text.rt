//! Text that is assembled piece by piece.

use std::alloc::Global;

/// Text that is assembled without early exits. A piece that cannot be allocated is omitted, and the text is incomplete
/// from then on.
#[derive(Drop)]
pub(crate) struct Text {
    text: String,
    complete: bool,
}

impl Text {
    /// An empty text.
    pub(crate) fn new(alloc: Global) -> Text {
        Text {
            text: String::new(alloc),
            complete: true,
        }
    }

    /// Returns the text.
    pub(crate) fn as_str(&self) -> &str {
        self.text.as_str()
    }

    /// Whether no piece was omitted since `new`.
    pub(crate) fn is_complete(&self) -> bool {
        self.complete
    }

    /// Appends another text. The text becomes incomplete if that one is.
    pub(crate) fn add(&mut self, other: &Text) {
        self.push(other.as_str());
        self.complete = self.complete && other.complete;
    }

    /// Appends a piece.
    pub(crate) fn push(&mut self, piece: &str) {
        if self.text.push_str(piece).is_err() {
            self.complete = false;
        }
    }

    /// Appends a space and a word.
    pub(crate) fn word(&mut self, word: &str) {
        self.push(" ");
        self.push(word);
    }

    /// Appends a space and a number.
    pub(crate) fn number(&mut self, number: u64) {
        self.push(" ");
        self.digits(number);
    }

    /// Appends a space, a name, a space and a number.
    pub(crate) fn field(&mut self, name: &str, number: u64) {
        self.word(name);
        self.number(number);
    }

    /// Appends bytes in hex, as ` 2a*8 00 ff`: each run of equal bytes once, with its length unless that is 1; or `
    /// none`.
    pub(crate) fn bytes(&mut self, bytes: &[u8]) {
        if bytes.is_empty() {
            self.word("none");
        }
        for run in bytes.chunk_by(|one, next| one == next) {
            self.run(run);
        }
    }

    /// Appends the word `bytes`, and bytes in hex.
    pub(crate) fn contents(&mut self, bytes: &[u8]) {
        self.word("bytes");
        self.bytes(bytes);
    }

    // Appends a run of equal bytes.
    fn run(&mut self, run: &[u8]) {
        let byte = run.first().copied().unwrap_or(0);
        if write!(self.text, " {byte:02x}").is_err() {
            self.complete = false;
        }
        if run.len() != 1 {
            self.push("*");
            self.digits(run.len() as u64);
        }
    }

    fn digits(&mut self, number: u64) {
        if write!(self.text, "{number}").is_err() {
            self.complete = false;
        }
    }
}
