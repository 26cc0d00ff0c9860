//! A row, split into its parts.

use crate::text::Text;
use std::alloc::Global;

// The maximum number of bytes in a row.
const MOST_BYTES: usize = 1 << 20;

// The answer to a line with an invalid word (not a name, a number below 2^64, or a run of bytes after the colon), or
// with more than 1,048,576 bytes.
const NO_WORD: &str = "fault: no word";

// The answer to a line for which no memory can be allocated.
const NO_MEMORY: &str = "fault: no memory";

/// A line, split into its parts: its first word, the names and the numbers after it, each in order, and the bytes after
/// a colon. A name begins with a letter, a number with a digit. Bytes are runs: `2a` or `2a*8`.
#[derive(Drop)]
pub(crate) struct RingRow<'a> {
    pub(crate) verb: &'a str,
    pub(crate) names: Vec<&'a str>,
    pub(crate) numbers: Vec<u64>,
    pub(crate) bytes: Vec<u8>,
    form: Text,
    // Why the line is not a row.
    fault: Option<&'static str>,
}

impl<'a> RingRow<'a> {
    /// Parses a row, or returns the answer to a line that is none.
    pub(crate) fn read(alloc: Global, line: &'a str) -> Result<RingRow<'a>, &'static str> {
        let mut row = RingRow {
            verb: "",
            names: Vec::new(alloc),
            numbers: Vec::new(alloc),
            bytes: Vec::new(alloc),
            form: Text::new(alloc),
            fault: None,
        };
        row.add_line(line);
        match row.fault {
            Some(fault) => Err(fault),
            None => Ok(row),
        }
    }

    /// The verb, an `x` for each name and a `0` for each number, separated by spaces: `reserve a r 1 16` has the form
    /// `reserve x x 0 0`.
    pub(crate) fn form(&self) -> &str {
        self.form.as_str()
    }

    /// Returns the name at a place, or an empty one if there are fewer.
    pub(crate) fn name(&self, place: usize) -> &'a str {
        match self.names.get(place) {
            Some(name) => *name,
            None => "",
        }
    }

    /// Returns the number at a place, or 0 if there are fewer.
    pub(crate) fn number(&self, place: usize) -> u64 {
        match self.numbers.get(place) {
            Some(number) => *number,
            None => 0,
        }
    }

    fn add_line(&mut self, line: &'a str) {
        let (words, runs) = line.split_once(':').unwrap_or((line, ""));
        self.add_words(words);
        self.add_runs(runs);
        self.add_form();
    }

    fn add_words(&mut self, words: &'a str) {
        for word in words.split_ascii_whitespace() {
            self.add_word(word);
        }
    }

    fn add_runs(&mut self, runs: &str) {
        for run in runs.split_ascii_whitespace() {
            self.add_run(run);
        }
    }

    fn add_form(&mut self) {
        self.form.push(self.verb);
        for _ in 0..self.names.len() {
            self.form.push(" x");
        }
        for _ in 0..self.numbers.len() {
            self.form.push(" 0");
        }
        if !self.form.is_complete() {
            self.fault = Some(NO_MEMORY);
        }
    }

    fn add_word(&mut self, word: &'a str) {
        let first = word.as_bytes().first().copied().unwrap_or(0);
        if first.is_ascii_digit() {
            self.add_number(word);
        } else if !first.is_ascii_alphabetic() {
            self.fault = Some(NO_WORD);
        } else if self.verb.is_empty() {
            self.verb = word;
        } else if self.names.push(word).is_err() {
            self.fault = Some(NO_MEMORY);
        }
    }

    fn add_number(&mut self, word: &str) {
        let Ok(number) = word.parse::<u64>() else {
            self.fault = Some(NO_WORD);
            return;
        };
        if self.numbers.push(number).is_err() {
            self.fault = Some(NO_MEMORY);
        }
    }

    fn add_run(&mut self, run: &str) {
        match run_of(run) {
            Some((byte, times)) => self.add_bytes(byte, times),
            None => self.fault = Some(NO_WORD),
        }
    }

    fn add_bytes(&mut self, byte: u8, times: usize) {
        let length = self.bytes.len();
        if length > MOST_BYTES || times > MOST_BYTES - length {
            self.fault = Some(NO_WORD);
        } else if self.bytes.resize(length + times, byte).is_err() {
            self.fault = Some(NO_MEMORY);
        }
    }
}

// Returns the byte of a run, and the length of the run.
fn run_of(run: &str) -> Option<(u8, usize)> {
    match run.split_once('*') {
        Some((digits, times)) => Some((hex_byte(digits)?, decimal(times)?)),
        None => Some((hex_byte(run)?, 1)),
    }
}

// Parses a decimal number. `parse` alone would accept a leading plus sign.
fn decimal(digits: &str) -> Option<usize> {
    if digits.starts_with('+') {
        return None;
    }
    digits.parse().ok()
}

// Parses a byte of two hex digits.
fn hex_byte(digits: &str) -> Option<u8> {
    if digits.len() != 2 || digits.starts_with('+') {
        return None;
    }
    u8::from_str_radix(digits, 16).ok()
}
