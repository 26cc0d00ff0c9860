//! The answers of a ring's calls as text. Each word and number is preceded by a space.

use crate::text::Text;
use rb_chapter_ring::{Chapter, Entries, OpenFault, ReserveFault};
use rb_for_tests::{PlainReservation, Stray};
use rb_history::{Counts, Entry, Notice, SetupFault, Taken, Tally};
use rb_ledger::BindFault;
use rb_lend::{Lent, Sheet};

/// Appends a granted record: its four numbers and its bytes.
pub(crate) fn tell_granted(out: &mut Text, record: &PlainReservation) {
    out.word("granted");
    tell_record(out, record);
    out.contents(record.bytes());
}

fn tell_record(out: &mut Text, record: &PlainReservation) {
    tell_numbers(
        out,
        record.pos(),
        record.worker(),
        record.serial(),
        record.len(),
    );
}

/// Appends the four numbers of a record.
pub(crate) fn tell_numbers(out: &mut Text, pos: u64, worker: u32, serial: u64, len: u32) {
    out.field("pos", pos);
    out.field("worker", u64::from(worker));
    out.field("serial", serial);
    out.field("len", u64::from(len));
}

/// Appends why no record was granted, and the sheet that was handed back.
pub(crate) fn tell_refusal(out: &mut Text, fault: &str, back: &Sheet) {
    out.word("refused");
    out.word(fault);
    out.word("back");
    out.bytes(back.bytes());
}

/// Appends whether a notice is due.
pub(crate) fn tell_notice(out: &mut Text, notice: Notice) {
    match notice {
        Notice::Due => out.word("due"),
        Notice::NotDue => out.word("not due"),
    }
}

/// Appends what a take found.
pub(crate) fn tell_taken(out: &mut Text, taken: &Taken) {
    match taken {
        Taken::Event(pos, worker, serial, sheet) => {
            out.word("event");
            tell_numbers(out, *pos, *worker, *serial, sheet.len());
            out.contents(sheet.bytes());
        }
        Taken::Skipped(pos, len) => tell_skipped(out, *pos, *len),
        Taken::BusyFront => out.word("busy"),
        Taken::Empty => out.word("empty"),
    }
}

/// Appends a discarded record.
pub(crate) fn tell_skipped(out: &mut Text, pos: u64, len: u32) {
    out.word("skipped");
    out.field("pos", pos);
    out.field("len", u64::from(len));
}

/// Appends how many records were taken, and each of them.
pub(crate) fn tell_all_taken(out: &mut Text, many: usize, taken: &[Taken]) {
    out.field("took", many as u64);
    for one in taken {
        out.push(";");
        tell_taken(out, one);
    }
}

/// Appends the six counts.
pub(crate) fn tell_counts(out: &mut Text, counts: Counts) {
    out.field("made", counts.made);
    out.field("refused", counts.refused);
    out.field("consumed", counts.consumed);
    out.field("discarded", counts.discarded);
    out.field("waiting", counts.waiting);
    out.field("busy", counts.busy);
}

/// Appends a worker's four numbers.
pub(crate) fn tell_tally(out: &mut Text, tally: Tally) {
    out.field("made", tally.made);
    out.field("refused", tally.refused);
    out.field("submitted", tally.submitted);
    out.field("discarded", tally.discarded);
}

/// Appends the number of entries, and each of them: `res W K N P`, `full W N`, `sub P`, `dis P` or `take P`.
pub(crate) fn tell_entries(out: &mut Text, entries: &[Entry]) {
    out.number(entries.len() as u64);
    for entry in entries {
        out.push(";");
        tell_entry(out, *entry);
    }
}

/// Appends the number of entries of a chapter, and each of them.
pub(crate) fn tell_chapter(out: &mut Text, entries: Entries<'_>) {
    out.number(entries.len() as u64);
    for entry in entries {
        out.push(";");
        tell_entry(out, entry);
    }
}

fn tell_entry(out: &mut Text, entry: Entry) {
    match entry {
        Entry::Res(worker, serial, len, pos) => tell_reserve(out, worker, serial, len, pos),
        Entry::Full(worker, len) => {
            out.field("full", u64::from(worker));
            out.number(u64::from(len));
        }
        Entry::Sub(pos) => out.field("sub", pos),
        Entry::Dis(pos) => out.field("dis", pos),
        Entry::Take(pos) => out.field("take", pos),
    }
}

fn tell_reserve(out: &mut Text, worker: u32, serial: u64, len: u32, pos: u64) {
    out.field("res", u64::from(worker));
    out.number(serial);
    out.number(u64::from(len));
    out.number(pos);
}

/// Appends the answer of a submit or a discard. Returns the reservation if it was stray and handed back.
pub(crate) fn tell_end(answer: Result<Notice, Stray>, out: &mut Text) -> Option<PlainReservation> {
    match answer {
        Ok(notice) => {
            tell_notice(out, notice);
            None
        }
        Err(Stray { reservation }) => {
            out.word("stray");
            tell_record(out, &reservation);
            Some(reservation)
        }
    }
}

/// Appends the chapter that was handed out.
pub(crate) fn tell_handed_out(out: &mut Text, chapter: &Chapter) {
    out.field("chapter", chapter.number());
    out.field("used", u64::from(chapter.used()));
}

/// Returns the word for the reason why a ring with these numbers is not opened.
pub(crate) fn setup_word(fault: SetupFault) -> &'static str {
    match fault {
        SetupFault::Size => "refused size",
        SetupFault::Start => "refused start",
        SetupFault::Workers => "refused workers",
    }
}

/// Returns the word for the reason why a ring over chapters is not opened.
pub(crate) fn open_word(fault: OpenFault) -> &'static str {
    match fault {
        OpenFault::Size => "refused size",
        OpenFault::Start => "refused start",
        OpenFault::Workers => "refused workers",
        OpenFault::Chapter => "refused chapter",
        OpenFault::Memory => "refused memory",
    }
}

/// Returns the word for the reason why a ring over chapters grants no record.
pub(crate) fn reserve_word(fault: ReserveFault) -> &'static str {
    match fault {
        ReserveFault::Full => "full",
        ReserveFault::Flags => "flags",
        ReserveFault::ChapterFull => "chapter full",
        ReserveFault::Foreign => "foreign",
        ReserveFault::HandsFull => "hands full",
    }
}

/// Returns the word for the reason why chapters do not bind.
pub(crate) fn bind_word(fault: BindFault) -> &'static str {
    match fault {
        BindFault::Number => "not bound number",
        BindFault::Opening => "not bound opening",
        BindFault::Memory => "not bound memory",
    }
}
