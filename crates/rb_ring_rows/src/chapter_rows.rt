//! Rows on chapters, either those that a ring keeps or those that a script has by name.

use crate::answers::{tell_chapter, tell_handed_out, tell_numbers, tell_tally};
use crate::row::RingRow;
use crate::script::{Named, RowScript, WRONG_WORDS, keep, narrow};
use crate::text::Text;
use crate::twin_rings::TwinRings;
use rb_chapter_ring::{COUNT_LIMIT, Chapter, Snapshot, UntakenRecord, UntakenStatus};
use rb_consumer::Keeper;
use std::alloc::Global;

/// The verbs of rows on chapters.
pub(crate) const VERBS: [&str; 10] = [
    "chapter", "keeper", "kept", "clear", "after", "meets", "show", "opening", "closing", "entries",
];

/// Answers a row on chapters.
pub(crate) fn answer(script: &mut RowScript, row: &RingRow<'_>, out: &mut Text) {
    let (first, second) = (row.name(0), row.name(1));
    let (alloc, chapters) = (script.alloc, &mut script.chapters);
    match row.form() {
        "chapter x 0 0" => make(alloc, chapters, row, out),
        "keeper x x 0" => make_keeper(alloc, chapters, &mut script.keepers, row, out),
        "kept x x" => end_keeper(alloc, &mut script.keepers, first, chapters, second, out),
        "clear x" => clear(chapters, first, out),
        "after x x" => open_after(alloc, chapters, first, second, out),
        "meets x x" => compare(chapters, first, second, out),
        "show x" | "opening x" | "closing x" | "entries x" => {
            show(&script.rings, chapters, row.verb, first, out);
        }
        _ => out.word(WRONG_WORDS),
    }
}

fn clear(chapters: &mut Named<Chapter>, name: &str, out: &mut Text) {
    match chapters.get_mut(name) {
        Some(chapter) => {
            chapter.clear();
            out.word("cleared");
        }
        None => out.word("fault: no such chapter"),
    }
}

// Appends whether a chapter meets the next one.
fn compare(chapters: &Named<Chapter>, name: &str, next: &str, out: &mut Text) {
    match (chapters.get(name), chapters.get(next)) {
        (Some(chapter), Some(next)) => out.word(yes_or_no(chapter.meets(next))),
        _ => out.word("fault: no such chapter"),
    }
}

fn yes_or_no(answer: bool) -> &'static str {
    if answer { "yes" } else { "no" }
}

// Creates an empty chapter.
fn make(alloc: Global, chapters: &mut Named<Chapter>, row: &RingRow<'_>, out: &mut Text) {
    let (room, workers) = (narrow(row.number(0)), narrow(row.number(1)));
    if room < 8 || room > 1_048_576 || workers == 0 || workers > 256 {
        return out.word("fault: out of bounds");
    }
    match Chapter::new(alloc, room, workers) {
        Ok(chapter) => {
            out.word("made");
            keep(alloc, chapters, row.name(0), chapter, out);
        }
        Err(_) => out.word("fault: no memory"),
    }
}

// Creates a keeper of a chapter. The chapter's name is removed.
fn make_keeper(
    alloc: Global,
    chapters: &mut Named<Chapter>,
    keepers: &mut Named<Keeper>,
    row: &RingRow<'_>,
    out: &mut Text,
) {
    match chapters.remove(row.name(1)) {
        Some(chapter) => {
            out.word("made");
            let keeper = Keeper::with_margin(chapter, narrow(row.number(0)));
            keep(alloc, keepers, row.name(0), keeper, out);
        }
        None => out.word("fault: no such chapter"),
    }
}

// Gives the chapter of a keeper a name, and drops the keeper.
fn end_keeper(
    alloc: Global,
    keepers: &mut Named<Keeper>,
    name: &str,
    chapters: &mut Named<Chapter>,
    chapter: &str,
    out: &mut Text,
) {
    match keepers.remove(name) {
        Some(keeper) => {
            let kept = keeper.into_chapter();
            tell_handed_out(out, &kept);
            keep(alloc, chapters, chapter, kept, out);
        }
        None => out.word("fault: no such keeper"),
    }
}

// Opens a chapter after another, if that is allowed.
fn open_after(
    alloc: Global,
    chapters: &mut Named<Chapter>,
    name: &str,
    earlier: &str,
    out: &mut Text,
) {
    let Some(mut chapter) = chapters.remove(name) else {
        return out.word("fault: no such chapter");
    };
    match chapters.get(earlier) {
        Some(earlier) => open_behind(&mut chapter, earlier, out),
        None => out.word("fault: no such chapter"),
    }
    keep(alloc, chapters, name, chapter, out);
}

fn open_behind(chapter: &mut Chapter, earlier: &Chapter, out: &mut Text) {
    if chapter.entries().is_empty()
        && chapter.room() == earlier.room()
        && chapter.opening().numbers().workers == earlier.opening().numbers().workers
        && earlier.number() < COUNT_LIMIT
    {
        chapter.open_after(earlier);
        out.field("chapter", chapter.number());
    } else {
        out.word("fault: unfit");
    }
}

// Appends a description of the chapter that a ring keeps, or of the chapter with this name.
fn show(
    rings: &Named<TwinRings>,
    chapters: &Named<Chapter>,
    verb: &str,
    name: &str,
    out: &mut Text,
) {
    if let Some(twins) = rings.get(name) {
        tell(verb, twins.chapter(), out);
    } else if let Some(chapter) = chapters.get(name) {
        tell(verb, chapter, out);
    } else {
        out.word("fault: no such chapter");
    }
}

fn tell(verb: &str, chapter: &Chapter, out: &mut Text) {
    match verb {
        "show" => tell_state(chapter, out),
        "opening" => tell_opening(chapter.opening(), out),
        "closing" => tell_opening(chapter.closing(), out),
        "entries" => tell_chapter(out, chapter.entries()),
        _ => out.word(WRONG_WORDS),
    }
}

fn tell_state(chapter: &Chapter, out: &mut Text) {
    out.field("number", chapter.number());
    out.field("room", u64::from(chapter.room()));
    out.field("used", u64::from(chapter.used()));
    out.field("owed", u64::from(chapter.owed()));
}

// Appends the summary at the beginning or the end of a chapter.
fn tell_opening(opening: &Snapshot, out: &mut Text) {
    let numbers = opening.numbers();
    out.field("size", numbers.size);
    out.field("start", numbers.start);
    out.field("workers", u64::from(numbers.workers));
    out.field("producer", numbers.producer);
    out.field("consumer", numbers.consumer);
    out.field("consumed", numbers.consumed);
    out.field("skipped", numbers.skipped);
    for record in opening.records() {
        out.push(";");
        tell_untaken(record, out);
    }
    for tally in opening.tallies() {
        out.push("; worker");
        tell_tally(out, *tally);
    }
}

fn tell_untaken(record: &UntakenRecord, out: &mut Text) {
    let status = match record.status {
        UntakenStatus::Busy => "busy",
        UntakenStatus::Waiting => "waiting",
        UntakenStatus::Discarded => "discarded",
    };
    out.word(status);
    tell_numbers(out, record.pos, record.worker, record.serial, record.len);
}
