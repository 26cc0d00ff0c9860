//! Rows on shared rings. After the ring, a row may name another ring, by whose seat the call is then made.

use crate::closing_rows::close;
use crate::consumer_calls::ConsumerCall;
use crate::row::RingRow;
use crate::script::{LONGEST, MOST_TAKEN, Named, RowScript, WRONG_WORDS, keep, ring_numbers};
use crate::shared_rings::{Load, SharedPlace, WorkerCall};
use crate::sheets::{copied, filled};
use crate::text::Text;
use rb_chapter_ring::Chapter;
use rb_consumer::Keeper;
use rb_lend::Sheet;
use rb_shared_ring::Reservation;
use std::alloc::Global;
use std::sync::Wait;

// The verbs of a worker's calls that name a record after the ring.
const RECORD_VERBS: [&str; 3] = ["reserve", "submit", "discard"];

// The verbs of a worker's other calls.
const SEAT_VERBS: [&str; 3] = ["output", "query", "audit"];

// The verbs of a consumer's calls that name nothing after the ring.
const CONSUMER_VERBS: [&str; 3] = ["take", "used", "fill"];

/// Answers a row whose first name is that of a shared ring.
pub(crate) fn answer<R: Wait>(rt: &R, script: &mut RowScript, row: &RingRow<'_>, out: &mut Text) {
    if RECORD_VERBS.contains(&row.verb) {
        work(rt, script, row, 2, out);
    } else if SEAT_VERBS.contains(&row.verb) {
        work(rt, script, row, 1, out);
    } else if CONSUMER_VERBS.contains(&row.verb) {
        consume(rt, script.alloc, &mut script.shared, row, out);
    } else {
        answer_other(rt, script, row, out);
    }
}

fn answer_other<R: Wait>(rt: &R, script: &mut RowScript, row: &RingRow<'_>, out: &mut Text) {
    let (alloc, shared) = (script.alloc, &mut script.shared);
    match row.verb {
        "handout" => hand_out(rt, alloc, shared, &mut script.chapters, row, out),
        "turn" => turn(rt, alloc, shared, &mut script.keepers, row, out),
        "seat" | "consumer" => tell_seats(shared, row, out),
        "close" => close(rt, alloc, shared, &mut script.closings, row, out),
        _ => out.word("fault: no such command"),
    }
}

/// Opens a shared ring.
pub(crate) fn share<R: Wait>(rt: &R, script: &mut RowScript, row: &RingRow<'_>, out: &mut Text) {
    if row.form() != "share x 0 0 0 0" {
        return out.word(WRONG_WORDS);
    }
    script.tags = script.tags.wrapping_add(1);
    let setup = ring_numbers(row);
    if let Some(place) = SharedPlace::open(rt, script.alloc, script.tags, setup, out) {
        keep(script.alloc, &mut script.shared, row.name(0), place, out);
    }
}

// Returns the name of the ring by whose seat a row's call is made (the home): the name at this place, or else the first
// one.
fn home_of<'a>(row: &RingRow<'a>, place: usize) -> &'a str {
    if row.names.len() > place {
        row.name(place)
    } else {
        row.name(0)
    }
}

// Whether a row has the words of a worker's call, if the home's name is at this place.
fn has_words(row: &RingRow<'_>, place: usize) -> bool {
    let numbers = if row.verb == "audit" { 1 } else { 2 };
    let names = row.names.len();
    names >= place && names - place <= 1 && row.numbers.len() == numbers
}

// Makes a worker's call.
fn work<R: Wait>(rt: &R, script: &mut RowScript, row: &RingRow<'_>, place: usize, out: &mut Text) {
    let home = home_of(row, place);
    let fault = if has_words(row, place) {
        fault_of(&script.shared, home, row.number(0))
    } else {
        WRONG_WORDS
    };
    if !fault.is_empty() {
        return out.word(fault);
    }
    let (alloc, records) = (script.alloc, &mut script.shared_records);
    match loaded(alloc, records, row) {
        Ok(load) => work_by(rt, alloc, &mut script.shared, records, row, home, load, out),
        Err(fault) => out.word(fault),
    }
}

// Returns why a worker can make no call by its seat of this ring, or an empty text.
fn fault_of(shared: &Named<SharedPlace>, home: &str, worker: u64) -> &'static str {
    match shared.get(home) {
        Some(place) if place.has_worker(worker) => "",
        Some(_) => "fault: no such worker",
        None => "fault: no such ring",
    }
}

// Returns the call that a row's words request.
fn worker_call(row: &RingRow<'_>) -> WorkerCall {
    let number = row.number(1);
    match row.verb {
        "reserve" => WorkerCall::Reserve,
        "submit" => WorkerCall::Submit(number),
        "discard" => WorkerCall::Discard(number),
        "output" => WorkerCall::Output(number),
        "query" => WorkerCall::Query(number),
        _ => WorkerCall::Audit,
    }
}

// Returns the argument of a row's call, or what is wrong with its words.
fn loaded(
    alloc: Global,
    records: &mut Named<Reservation>,
    row: &RingRow<'_>,
) -> Result<Load, &'static str> {
    match row.verb {
        "reserve" => sheet_of(alloc, row.number(1)),
        "output" => with_sheet(copied(alloc, row.bytes.as_slice())),
        "submit" | "discard" => with_record(records.remove(row.name(1))),
        _ => Ok(Load {
            sheet: None,
            record: None,
        }),
    }
}

// Returns a sheet of this many bytes.
fn sheet_of(alloc: Global, n: u64) -> Result<Load, &'static str> {
    if n > LONGEST {
        Err(WRONG_WORDS)
    } else {
        with_sheet(filled(alloc, n as u32))
    }
}

fn with_sheet(sheet: Option<Sheet>) -> Result<Load, &'static str> {
    if sheet.is_none() {
        return Err("fault: no memory");
    }
    Ok(Load {
        sheet,
        record: None,
    })
}

fn with_record(record: Option<Reservation>) -> Result<Load, &'static str> {
    if record.is_none() {
        return Err("fault: no such record");
    }
    Ok(Load {
        sheet: None,
        record,
    })
}

// Makes a worker's call at a row's ring, by its seat of the home, and keeps the resulting record.
fn work_by<R: Wait>(
    rt: &R,
    alloc: Global,
    shared: &mut Named<SharedPlace>,
    records: &mut Named<Reservation>,
    row: &RingRow<'_>,
    home: &str,
    load: Load,
    out: &mut Text,
) {
    let mut load = load;
    call_by(rt, alloc, shared, row, home, &mut load, out);
    if let Some(record) = load.record.take() {
        keep(alloc, records, row.name(1), record, out);
    }
}

// Meanwhile, the home is not in the map, so only another ring is found there.
fn call_by<R: Wait>(
    rt: &R,
    alloc: Global,
    shared: &mut Named<SharedPlace>,
    row: &RingRow<'_>,
    home: &str,
    load: &mut Load,
    out: &mut Text,
) {
    if let Some(mut place) = shared.remove(home) {
        let other = shared.get(row.name(0));
        place.work(rt, other, row.number(0), worker_call(row), load, out);
        keep(alloc, shared, home, place, out);
    }
}

fn consume<R: Wait>(
    rt: &R,
    alloc: Global,
    shared: &mut Named<SharedPlace>,
    row: &RingRow<'_>,
    out: &mut Text,
) {
    let Some(call) = consumer_call(row) else {
        return out.word(WRONG_WORDS);
    };
    let home = home_of(row, 1);
    if row.names.len() > 2 || !shared.contains_key(home) {
        return out.word("fault: no such ring");
    }
    consume_by(rt, alloc, shared, row.name(0), home, call, out);
}

// Returns the call that a row's words request, if there is one.
fn consumer_call(row: &RingRow<'_>) -> Option<ConsumerCall<'static>> {
    let n = row.number(0);
    match (row.verb, row.numbers.len()) {
        ("take", 0) => Some(ConsumerCall::Take),
        ("used", 0) => Some(ConsumerCall::Used),
        ("take", 1) if n <= MOST_TAKEN => Some(ConsumerCall::TakeMany(n as usize)),
        ("fill", 1) if n <= MOST_TAKEN => Some(ConsumerCall::Fill(n as usize)),
        _ => None,
    }
}

// Makes a consumer's call at a ring, by the home's seat. Meanwhile, the home is not in the map, so only another ring is
// found there.
fn consume_by<R: Wait>(
    rt: &R,
    alloc: Global,
    shared: &mut Named<SharedPlace>,
    ring: &str,
    home: &str,
    call: ConsumerCall<'_>,
    out: &mut Text,
) {
    if let Some(mut place) = shared.remove(home) {
        place.consume(rt, alloc, shared.get(ring), call, out);
        keep(alloc, shared, home, place, out);
    }
}

// Returns what is wrong with the words of a row that names a chapter or a keeper after the ring, and optionally a home
// after that.
fn wrong_words(shared: &Named<SharedPlace>, row: &RingRow<'_>) -> Option<&'static str> {
    let names = row.names.len();
    if names < 2 || names > 3 || !row.numbers.is_empty() {
        return Some(WRONG_WORDS);
    }
    if shared.contains_key(home_of(row, 2)) {
        None
    } else {
        Some("fault: no such ring")
    }
}

// Makes the consumer hand out the ring's chapter, by its own seat or by that of another ring.
fn hand_out<R: Wait>(
    rt: &R,
    alloc: Global,
    shared: &mut Named<SharedPlace>,
    chapters: &mut Named<Chapter>,
    row: &RingRow<'_>,
    out: &mut Text,
) {
    if let Some(fault) = wrong_words(shared, row) {
        return out.word(fault);
    }
    let (ring, name, home) = (row.name(0), row.name(1), home_of(row, 2));
    let mut chapter = chapters.remove(name);
    if chapter.is_none() {
        return out.word("fault: no such chapter");
    }
    let call = ConsumerCall::HandOut(&mut chapter);
    consume_by(rt, alloc, shared, ring, home, call, out);
    if let Some(chapter) = chapter {
        keep(alloc, chapters, name, chapter, out);
    }
}

// Makes a keeper check the ring's chapter, by the ring's own consumer or by that of another ring.
fn turn<R: Wait>(
    rt: &R,
    alloc: Global,
    shared: &mut Named<SharedPlace>,
    keepers: &mut Named<Keeper>,
    row: &RingRow<'_>,
    out: &mut Text,
) {
    if let Some(fault) = wrong_words(shared, row) {
        return out.word(fault);
    }
    match keepers.get_mut(row.name(1)) {
        Some(keeper) => {
            let (ring, home) = (row.name(0), home_of(row, 2));
            let call = ConsumerCall::Turn(keeper);
            consume_by(rt, alloc, shared, ring, home, call, out);
        }
        None => out.word("fault: no such keeper"),
    }
}

// Appends the counts of a seat.
fn tell_seats(shared: &Named<SharedPlace>, row: &RingRow<'_>, out: &mut Text) {
    match (shared.get(row.name(0)), row.form()) {
        (Some(place), "seat x 0") => place.tell_seat(row.number(0), out),
        (Some(place), "consumer x") => place.tell_consumer(out),
        _ => out.word(WRONG_WORDS),
    }
}
