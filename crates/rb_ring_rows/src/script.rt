//! A script's rings, records and chapters, and the answers to its rows.

ghost use Rattle.std.specs.Prelude.{◌≡◌, ◌<◌, IfSome};

use crate::row::RingRow;
use crate::shared_answers::write_record;
use crate::shared_rings::SharedPlace;
use crate::sheet_rows::write_sheet;
use crate::text::Text;
use crate::twin_rings::{TwinRecord, TwinRings};
use crate::{chapter_rows, closing_rows, shared_rows, sheet_rows, value_rows};
use rb_chapter_ring::{Chapter, RecordEnd};
use rb_consumer::Keeper;
use rb_lend::Sheet;
use rb_shared_ring::{Closing, Reservation};
use std::alloc::Global;
use std::collections::BTreeMap;
use std::mem;
use std::sync::Wait;

/// The maximum length of a requested record: the size of the largest ring.
pub(crate) const LONGEST: u64 = 1 << 26;

// The verbs of calls on a ring and its records.
const RING_VERBS: [&str; 7] = [
    "open", "reserve", "write", "submit", "discard", "output", "handout",
];

// The verbs that take records from a ring, or query it.
const ASKING_VERBS: [&str; 4] = ["take", "query", "counts", "written"];

/// The maximum number of records that one call takes.
pub(crate) const MOST_TAKEN: u64 = 1 << 16;

/// The answer to a row that does not have the words of its command, or whose numbers are too large for it.
pub(crate) const WRONG_WORDS: &str = "fault: wrong words";

/// Values by their names.
pub(crate) type Named<T> = BTreeMap<String, T>;

/// The numbers with which a ring is opened: its size, its start, its number of workers, and the room of its chapters.
#[derive(Clone, Copy)]
pub(crate) struct OpeningNumbers {
    pub(crate) size: u64,
    pub(crate) start: u64,
    pub(crate) workers: u32,
    pub(crate) room: u32,
}

/// Everything that has a name in a script.
#[derive(Drop)]
pub(crate) struct RowScript {
    pub(crate) alloc: Global,
    pub(crate) rings: Named<TwinRings>,
    pub(crate) records: Named<TwinRecord>,
    pub(crate) chapters: Named<Chapter>,
    pub(crate) shared: Named<SharedPlace>,
    pub(crate) shared_records: Named<Reservation>,
    pub(crate) closings: Named<Closing>,
    pub(crate) keepers: Named<Keeper>,
    pub(crate) sheets: Named<Sheet>,
    /// The number of shared rings that were requested, and the tag of the last one.
    pub(crate) tags: u64,
}

impl RowScript {
    /// A script without names.
    pub(crate) fn new(alloc: Global) -> RowScript {
        RowScript {
            alloc,
            rings: BTreeMap::new(alloc),
            records: BTreeMap::new(alloc),
            chapters: BTreeMap::new(alloc),
            shared: BTreeMap::new(alloc),
            shared_records: BTreeMap::new(alloc),
            closings: BTreeMap::new(alloc),
            keepers: BTreeMap::new(alloc),
            sheets: BTreeMap::new(alloc),
            tags: 0,
        }
    }

    /// Removes all names.
    pub(crate) fn clear(&mut self) {
        let empty = RowScript::new(self.alloc);
        drop(mem::replace(self, empty));
    }

    /// Returns the answer to a row.
    pub(crate) fn answer<R: Wait>(&mut self, rt: &R, line: &str) -> Text {
        let mut out = Text::new(self.alloc);
        match RingRow::read(self.alloc, line) {
            Ok(row) => self.answer_row(rt, &row, &mut out),
            Err(fault) => out.word(fault),
        }
        out
    }

    // A name of a shared ring refers to that ring, and that of a closed ring to its closing, before anything else with
    // this name.
    fn answer_row<R: Wait>(&mut self, rt: &R, row: &RingRow<'_>, out: &mut Text) {
        let first = row.name(0);
        if row.verb == "share" {
            shared_rows::share(rt, self, row, out);
        } else if self.shared.contains_key(first) {
            shared_rows::answer(rt, self, row, out);
        } else if row.verb != "bind" {
            self.answer_other(row, out);
        } else if self.closings.contains_key(first) {
            closing_rows::bind(self, row, out);
        } else {
            self.bind(row, out);
        }
    }

    fn answer_other(&mut self, row: &RingRow<'_>, out: &mut Text) {
        if RING_VERBS.contains(&row.verb) {
            self.call(row, out);
        } else if ASKING_VERBS.contains(&row.verb) {
            self.ask(row, out);
        } else if chapter_rows::VERBS.contains(&row.verb) {
            chapter_rows::answer(self, row, out);
        } else if sheet_rows::VERBS.contains(&row.verb) {
            sheet_rows::answer(self, row, out);
        } else {
            value_rows::answer(self.alloc, row, out);
        }
    }

    fn call(&mut self, row: &RingRow<'_>, out: &mut Text) {
        let (alloc, rings, records) = (self.alloc, &mut self.rings, &mut self.records);
        match row.form() {
            "open x 0 0 0 0" => open(alloc, rings, row, out),
            "reserve x x 0 0" => reserve(alloc, rings, records, row, out),
            "write x 0" => write(
                records,
                &mut self.shared_records,
                &mut self.sheets,
                row,
                out,
            ),
            "submit x x 0" => end(alloc, rings, records, RecordEnd::Submit, row, out),
            "discard x x 0" => end(alloc, rings, records, RecordEnd::Discard, row, out),
            "output x 0 0" => output(alloc, rings, row, out),
            "handout x x" => hand_out(alloc, rings, &mut self.chapters, row, out),
            _ => out.word(WRONG_WORDS),
        }
    }

    // Takes records, or queries a ring.
    fn ask(&mut self, row: &RingRow<'_>, out: &mut Text) {
        if row.names.len() != 1 {
            return out.word(WRONG_WORDS);
        }
        match self.rings.get_mut(row.name(0)) {
            Some(twins) => ask(self.alloc, twins, row, out),
            None => out.word("fault: no such ring"),
        }
    }

    fn bind(&mut self, row: &RingRow<'_>, out: &mut Text) {
        let ([ring, names @ ..], []) = (row.names.as_slice(), row.numbers.as_slice()) else {
            return out.word(WRONG_WORDS);
        };
        match self.rings.get(*ring) {
            Some(twins) => bind(self.alloc, twins, &mut self.chapters, names, out),
            None => out.word("fault: no such ring"),
        }
    }
}

fn open(alloc: Global, rings: &mut Named<TwinRings>, row: &RingRow<'_>, out: &mut Text) {
    let setup = ring_numbers(row);
    if let Some(twins) = TwinRings::open(alloc, setup, out) {
        keep(alloc, rings, row.name(0), twins, out);
    }
}

fn reserve(
    alloc: Global,
    rings: &mut Named<TwinRings>,
    records: &mut Named<TwinRecord>,
    row: &RingRow<'_>,
    out: &mut Text,
) {
    let (worker, n) = (narrow(row.number(0)), row.number(1));
    if n > LONGEST {
        return out.word(WRONG_WORDS);
    }
    match rings.get_mut(row.name(0)) {
        Some(twins) => {
            if let Some(granted) = twins.reserve(alloc, worker, n as u32, out) {
                keep(alloc, records, row.name(1), granted, out);
            }
        }
        None => out.word("fault: no such ring"),
    }
}

fn write(
    records: &mut Named<TwinRecord>,
    shared_records: &mut Named<Reservation>,
    sheets: &mut Named<Sheet>,
    row: &RingRow<'_>,
    out: &mut Text,
) {
    let (name, at, bytes) = (row.name(0), row.number(0), row.bytes.as_slice());
    if let Some(held) = records.get_mut(name) {
        held.write(at, bytes, out);
    } else if let Some(held) = shared_records.get_mut(name) {
        write_record(held, at, bytes, out);
    } else if let Some(sheet) = sheets.get_mut(name) {
        write_sheet(sheet, at, bytes, out);
    } else {
        out.word("fault: no such record");
    }
}

fn end(
    alloc: Global,
    rings: &mut Named<TwinRings>,
    records: &mut Named<TwinRecord>,
    end: RecordEnd,
    row: &RingRow<'_>,
    out: &mut Text,
) {
    let (name, flags) = (row.name(1), row.number(0));
    let Some(twins) = rings.get_mut(row.name(0)) else {
        return out.word("fault: no such ring");
    };
    let Some(held) = records.remove(name) else {
        return out.word("fault: no such record");
    };
    if let Some(stray) = twins.end(alloc, held, end, flags, out) {
        keep(alloc, records, name, stray, out);
    }
}

fn output(alloc: Global, rings: &mut Named<TwinRings>, row: &RingRow<'_>, out: &mut Text) {
    let (worker, flags) = (narrow(row.number(0)), row.number(1));
    match rings.get_mut(row.name(0)) {
        Some(twins) => twins.output(alloc, worker, row.bytes.as_slice(), flags, out),
        None => out.word("fault: no such ring"),
    }
}

fn hand_out(
    alloc: Global,
    rings: &mut Named<TwinRings>,
    chapters: &mut Named<Chapter>,
    row: &RingRow<'_>,
    out: &mut Text,
) {
    let name = row.name(1);
    let Some(twins) = rings.get_mut(row.name(0)) else {
        return out.word("fault: no such ring");
    };
    match chapters.remove(name) {
        Some(empty) => {
            let chapter = twins.hand_out(empty, out);
            keep(alloc, chapters, name, chapter, out);
        }
        None => out.word("fault: no such chapter"),
    }
}

fn bind(
    alloc: Global,
    twins: &TwinRings,
    named: &mut Named<Chapter>,
    names: &[&str],
    out: &mut Text,
) {
    let chapters = collect(alloc, named, names);
    if chapters.len() == names.len() {
        twins.bind(alloc, chapters.as_slice(), out);
    } else {
        out.word("fault: no such chapter");
    }
    keep_chapters(alloc, named, names, chapters, out);
}

// Takes records from a ring, or queries it.
fn ask(alloc: Global, twins: &mut TwinRings, row: &RingRow<'_>, out: &mut Text) {
    let number = row.number(0);
    match row.form() {
        "take x" => twins.take(alloc, out),
        "take x 0" if number <= MOST_TAKEN => twins.take_many(alloc, number as usize, out),
        "query x 0" => twins.query(number, out),
        "counts x" => twins.counts(out),
        "written x" => twins.written(alloc, out),
        _ => out.word(WRONG_WORDS),
    }
}

/// Returns the numbers of a row that opens a ring.
pub(crate) fn ring_numbers(row: &RingRow<'_>) -> OpeningNumbers {
    OpeningNumbers {
        size: row.number(0),
        start: row.number(1),
        workers: narrow(row.number(2)),
        room: narrow(row.number(3)),
    }
}

/// Removes the chapters with these names from the map and returns them in order, up to the first that does not exist.
pub(crate) fn collect(alloc: Global, map: &mut Named<Chapter>, names: &[&str]) -> Vec<Chapter> {
    let mut chapters = Vec::new(alloc);
    for name in names {
        let Some(chapter) = map.remove(*name) else {
            return chapters;
        };
        if chapters.push(chapter).is_err() {
            return chapters;
        }
    }
    chapters
}

/// Gives chapters their names again.
pub(crate) fn keep_chapters(
    alloc: Global,
    named: &mut Named<Chapter>,
    names: &[&str],
    chapters: Vec<Chapter>,
    out: &mut Text,
) {
    for (name, chapter) in names.iter().zip(chapters) {
        keep(alloc, named, name, chapter, out);
    }
}

/// Gives a value a name. The previous value with this name is dropped.
pub(crate) fn keep<T: Drop>(
    alloc: Global,
    map: &mut Named<T>,
    name: &str,
    value: T,
    out: &mut Text,
) {
    let kept = match String::from_str(alloc, name) {
        Ok(name) => map.insert(name, value).is_ok(),
        Err(_) => false,
    };
    if !kept {
        out.word("fault: no memory");
    }
}

/// Returns the number, or 2^32 - 1 if it is greater.
pub(crate) fn narrow(number: u64) -> u32 {
    u32::try_from(number).unwrap_or(u32::MAX)
}
