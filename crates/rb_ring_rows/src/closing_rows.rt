//! Rows that close shared rings, and bind chapters to the history of a closed one.

use crate::answers::{bind_word, tell_counts, tell_entries};
use crate::row::RingRow;
use crate::script::{Named, RowScript, WRONG_WORDS, collect, keep, keep_chapters};
use crate::shared_rings::SharedPlace;
use crate::text::Text;
use rb_shared_ring::Closing;
use std::alloc::Global;
use std::sync::Wait;

/// Closes a ring with all its seats; if the row has a number, with all but the last; if it names another ring, with that
/// ring's seats.
pub(crate) fn close<R: Wait>(
    rt: &R,
    alloc: Global,
    shared: &mut Named<SharedPlace>,
    closings: &mut Named<Closing>,
    row: &RingRow<'_>,
    out: &mut Text,
) {
    let ring = row.name(0);
    match row.form() {
        "close x" => close_own(rt, alloc, shared, closings, ring, true, out),
        "close x 0" => close_own(rt, alloc, shared, closings, ring, false, out),
        "close x x" => close_with(rt, alloc, shared, ring, row.name(1), out),
        _ => out.word(WRONG_WORDS),
    }
}

fn close_own<R: Wait>(
    rt: &R,
    alloc: Global,
    shared: &mut Named<SharedPlace>,
    closings: &mut Named<Closing>,
    ring: &str,
    all: bool,
    out: &mut Text,
) {
    let Some(place) = shared.remove(ring) else {
        return out.word("fault: no such ring");
    };
    match place.close(rt, all) {
        Ok(closing) => {
            out.word("closed");
            tell_closing(&closing, out);
            keep(alloc, closings, ring, closing, out);
        }
        Err(place) => {
            out.word("not all");
            keep(alloc, shared, ring, place, out);
        }
    }
}

fn close_with<R: Wait>(
    rt: &R,
    alloc: Global,
    shared: &mut Named<SharedPlace>,
    ring: &str,
    other: &str,
    out: &mut Text,
) {
    if ring == other || !shared.contains_key(other) {
        return out.word("fault: no such ring");
    }
    match closed_with(rt, shared, ring, other) {
        Some((place, home)) => {
            out.word("not all");
            keep(alloc, shared, ring, place, out);
            keep(alloc, shared, other, home, out);
        }
        None => out.word("closed"),
    }
}

// Tries to close a ring with the seats of another one. Both are removed from the map, and put back if the ring is not
// closed.
fn closed_with<R: Wait>(
    rt: &R,
    shared: &mut Named<SharedPlace>,
    ring: &str,
    other: &str,
) -> Option<(SharedPlace, SharedPlace)> {
    let home = shared.remove(other)?;
    shared.remove(ring)?.close_with(rt, home)
}

fn tell_closing(closing: &Closing, out: &mut Text) {
    out.field("tag", closing.tag());
    out.field("producer", closing.producer());
    out.field("consumer", closing.consumer());
    tell_counts(out, closing.counts());
    out.field("chapter", closing.chapter().number());
}

/// Binds chapters to the history of a closed ring. The ring and the chapters are then gone.
pub(crate) fn bind(script: &mut RowScript, row: &RingRow<'_>, out: &mut Text) {
    let ([ring, names @ ..], []) = (row.names.as_slice(), row.numbers.as_slice()) else {
        return out.word(WRONG_WORDS);
    };
    let Some(closing) = script.closings.remove(*ring) else {
        return out.word("fault: no such ring");
    };
    let chapters = collect(script.alloc, &mut script.chapters, names);
    let (fault, closing, chapters) = if chapters.len() == names.len() {
        match closing.bind(script.alloc, chapters) {
            Ok(whole) => return tell_entries(out, whole.history()),
            Err((fault, closing, chapters)) => (bind_word(fault), closing, chapters),
        }
    } else {
        ("fault: no such chapter", closing, chapters)
    };
    out.word(fault);
    keep(script.alloc, &mut script.closings, ring, closing, out);
    keep_chapters(script.alloc, &mut script.chapters, names, chapters, out);
}
