//! Rows that need no ring.

use crate::answers::{setup_word, tell_notice};
use crate::row::RingRow;
use crate::script::{WRONG_WORDS, narrow};
use crate::tape_rows::tell_tape;
use crate::text::Text;
use rb_history::{Header, check_setup, is_size, is_start, is_worker_count, notice_for, span};
use std::alloc::Global;

/// Answers a row that needs no ring.
pub(crate) fn answer(alloc: Global, row: &RingRow<'_>, out: &mut Text) {
    let (first, second, third) = (row.number(0), row.number(1), row.number(2));
    match (row.verb, row.numbers.len()) {
        ("span", 1) => out.number(span(narrow(first))),
        ("setup", 3) => tell_setup(first, second, narrow(third), out),
        ("notice", 3) => tell_notice(out, notice_for(first, second, third)),
        ("encode", 4) => encode(row, out),
        ("decode", 0) => decode(row.bytes.as_slice(), out),
        ("tape", 2) => tell_tape(alloc, row.bytes.as_slice(), first, second, out),
        _ => out.word("fault: no such command"),
    }
}

// Appends whether each number is valid for a ring, and whether all are together.
fn tell_setup(size: u64, start: u64, workers: u32, out: &mut Text) {
    tell_whether(is_size(size), "size", out);
    tell_whether(is_start(start), "start", out);
    tell_whether(is_worker_count(workers), "workers", out);
    out.word(match check_setup(size, start, workers) {
        Ok(()) => "allowed",
        Err(fault) => setup_word(fault),
    });
}

fn tell_whether(is_right: bool, word: &str, out: &mut Text) {
    if !is_right {
        out.word("no");
    }
    out.word(word);
}

// Appends the bytes of a header.
fn encode(row: &RingRow<'_>, out: &mut Text) {
    let header = Header {
        len: narrow(row.number(0)),
        busy: row.number(1) != 0,
        discard: row.number(2) != 0,
        page: narrow(row.number(3)),
    };
    if header.len >= 1 << 30 || (header.busy && header.discard) {
        return out.word(WRONG_WORDS);
    }
    out.bytes(&header.to_bytes());
}

// Appends the header that eight bytes encode.
fn decode(bytes: &[u8], out: &mut Text) {
    let Some(bytes) = bytes.first_chunk::<8>() else {
        return out.word(WRONG_WORDS);
    };
    match Header::from_bytes(bytes) {
        Ok(header) => {
            out.field("len", u64::from(header.len));
            out.field("busy", u64::from(header.busy));
            out.field("discard", u64::from(header.discard));
            out.field("page", u64::from(header.page));
        }
        Err(_) => out.word("both bits"),
    }
}
