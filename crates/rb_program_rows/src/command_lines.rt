//! Command lines of `rbhost`, with inputs in memory.

use crate::answer_text::AnswerText;
use crate::bytes::{bytes_of, tell_escaped, unescaped};
use rb_command_line::{Host, NotedReader, NotedWriter, Terminals, command};
use std::alloc::{AllocError, Global};
use std::fs::File;
use std::io::{self, Eprint, Read};
use std::rt::Files;
use std::sync::Wait;
use std::thread::Threads;
use std::time::Clock;

// The maximum lengths of reads, one for each run of a command. All runs must end alike.
const PIECES: [usize; 3] = [7, 1, 65_536];

// Returns its bytes, at most this many at a time, and then the end of the input.
#[derive(Drop)]
struct Pieces<'a> {
    rest: &'a [u8],
    most: usize,
}

impl Read for Pieces<'_> {
    fn read(&mut self, buf: &mut [u8]) -> io::Result<usize> {
        let count = self.rest.len().min(buf.len()).min(self.most);
        let (front, rest) = self.rest.split_at(count);
        buf[..count].copy_from_slice(front);
        self.rest = rest;
        Ok(count)
    }
}

// How a command ended.
#[derive(Drop, PartialEq, Eq)]
struct Ending {
    status: u8,
    // Whether the input has bytes and none was read.
    is_unread: bool,
    printed: Vec<u8>,
    // What was written to the error output.
    told: Vec<u8>,
}

/// Writes how a command line ends. Its words come before ` < ` and a text with escapes, or ` : ` and hex, which
/// are its input. Words may contain escapes too. It is run with reads of three lengths, except `run`, which is run
/// once.
pub(crate) fn answer_command_line<
    R: Threads + Wait + Sync + Files<File = File> + Clock + Eprint + Host,
>(rt: &R, alloc: Global, line: &str, out: &mut AnswerText) {
    let (words, input) = words_and_input(alloc, line);
    match (words_of(alloc, words), input) {
        (Ok(words), Ok(input)) => tell_line(rt, alloc, words, input, out),
        _ => out.lack(),
    }
}

fn tell_line<R: Threads + Wait + Sync + Files<File = File> + Clock + Eprint + Host>(
    rt: &R,
    alloc: Global,
    words: Option<Vec<String>>,
    input: Option<Vec<u8>>,
    out: &mut AnswerText,
) {
    match (words, input) {
        (Some(words), Some(input)) => {
            tell_command(rt, alloc, words.as_slice(), input.as_slice(), out);
        }
        _ => out.push("no words or no input"),
    }
}

// Returns the words of a line as it has them, and its input, or `None` if that is not hex.
fn words_and_input(alloc: Global, line: &str) -> (&str, Result<Option<Vec<u8>>, AllocError>) {
    if let Some((words, text)) = line.split_once("< ") {
        return (words, text_of(alloc, text));
    }
    match line.split_once(": ") {
        Some((words, hex)) => (words, bytes_of(alloc, hex)),
        None => (line, Ok(Some(Vec::new(alloc)))),
    }
}

fn text_of(alloc: Global, text: &str) -> Result<Option<Vec<u8>>, AllocError> {
    Ok(Some(unescaped(alloc, text)?))
}

// Returns the words of a command line, or `None` if one is not text.
fn words_of(alloc: Global, line: &str) -> Result<Option<Vec<String>>, AllocError> {
    let mut words = Vec::new(alloc);
    let line = line.strip_suffix(' ').unwrap_or(line);
    if line.is_empty() {
        return Ok(Some(words));
    }
    for word in line.split(' ') {
        let Ok(word) = String::from_utf8(unescaped(alloc, word)?) else {
            return Ok(None);
        };
        words.push(word)?;
    }
    Ok(Some(words))
}

fn tell_command<R: Threads + Wait + Sync + Files<File = File> + Clock + Eprint + Host>(
    rt: &R,
    alloc: Global,
    words: &[String],
    input: &[u8],
    out: &mut AnswerText,
) {
    let first = ended(rt, alloc, words, input, PIECES[0]);
    if !is_run(words) {
        for most in &PIECES[1..] {
            let other = ended(rt, alloc, words, input, *most);
            tell_difference(&first, &other, *most, out);
        }
    }
    tell_ending(&first, out);
}

// Appends the length of the other command's reads if it ended differently.
fn tell_difference(first: &Ending, other: &Ending, most: usize, out: &mut AnswerText) {
    if first != other {
        out.field("differs by ", &most);
        out.push(" bytes, ");
    }
}

fn is_run(words: &[String]) -> bool {
    match words.first() {
        Some(word) => word.as_str() == "run",
        None => false,
    }
}

// Returns how a command ends with an input that returns at most this many bytes at a time.
fn ended<R: Threads + Wait + Sync + Files<File = File> + Clock + Eprint + Host>(
    rt: &R,
    alloc: Global,
    words: &[String],
    input: &[u8],
    most: usize,
) -> Ending {
    let mut reader = Pieces { rest: input, most };
    let mut printed = Vec::new(alloc);
    let mut told = Vec::new(alloc);
    let status = command(
        rt,
        alloc,
        words,
        Terminals::default(),
        &mut NotedReader::new(&mut reader),
        &mut NotedWriter::new(&mut printed),
        &mut told,
    );
    Ending {
        status,
        is_unread: !input.is_empty() && reader.rest.len() == input.len(),
        printed,
        told,
    }
}

// Appends the status, and each line of the output and of the error output. Of a usage message only its presence is
// reported.
fn tell_ending(ending: &Ending, out: &mut AnswerText) {
    out.field("status ", &ending.status);
    if ending.is_unread {
        out.push(", nothing read");
    }
    if ending.status == 2 && ending.told.as_slice().starts_with(b"error: ") {
        out.push(", an error told");
    } else {
        tell_escaped("err", ending.told.as_slice(), out);
    }
    tell_escaped("out", ending.printed.as_slice(), out);
}
