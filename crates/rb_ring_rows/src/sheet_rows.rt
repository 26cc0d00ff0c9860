//! Rows on sheets, the byte buffers of records.

use crate::row::RingRow;
use crate::script::{LONGEST, Named, RowScript, WRONG_WORDS, keep};
use crate::sheets::write_at;
use crate::text::Text;
use rb_lend::{Lent, Sheet};
use std::alloc::Global;

/// The verbs of rows on sheets.
pub(crate) const VERBS: [&str; 3] = ["sheet", "renew", "wipe"];

/// Answers a row on sheets.
pub(crate) fn answer(script: &mut RowScript, row: &RingRow<'_>, out: &mut Text) {
    let (alloc, sheets) = (script.alloc, &mut script.sheets);
    match row.form() {
        "sheet x 0" => make(alloc, sheets, row.name(0), row.number(0), out),
        "renew x 0" => renew(alloc, sheets, row.name(0), row.number(0), out),
        "wipe x" => wipe(sheets, row.name(0), out),
        _ => out.word(WRONG_WORDS),
    }
}

fn wipe(sheets: &mut Named<Sheet>, name: &str, out: &mut Text) {
    match sheets.get_mut(name) {
        Some(sheet) => {
            sheet.clear();
            tell_sheet(out, sheet);
        }
        None => out.word("fault: no such sheet"),
    }
}

// Creates a sheet.
fn make(alloc: Global, sheets: &mut Named<Sheet>, name: &str, n: u64, out: &mut Text) {
    if n > LONGEST {
        return out.word(WRONG_WORDS);
    }
    match Sheet::new(alloc, n as u32) {
        Ok(sheet) => {
            tell_sheet(out, &sheet);
            keep(alloc, sheets, name, sheet, out);
        }
        Err(_) => out.word("fault: no memory"),
    }
}

// Renews a sheet for another length.
fn renew(alloc: Global, sheets: &mut Named<Sheet>, name: &str, n: u64, out: &mut Text) {
    if n > LONGEST {
        return out.word(WRONG_WORDS);
    }
    match sheets.remove(name) {
        Some(sheet) => {
            let sheet = renewed(sheet, n as u32);
            tell_sheet(out, &sheet);
            keep(alloc, sheets, name, sheet, out);
        }
        None => out.word("fault: no such sheet"),
    }
}

fn renewed(sheet: Sheet, n: u32) -> Sheet {
    match sheet.renew(n) {
        Ok(sheet) => sheet,
        Err((_, back)) => back,
    }
}

/// Writes bytes into a sheet from byte `at` on, if they fit.
pub(crate) fn write_sheet(sheet: &mut Sheet, at: u64, bytes: &[u8], out: &mut Text) {
    if write_at(sheet, at, bytes) {
        tell_sheet(out, sheet);
    } else {
        out.word("fault: outside");
    }
}

fn tell_sheet(out: &mut Text, sheet: &Sheet) {
    out.field("len", u64::from(sheet.len()));
    out.contents(sheet.bytes());
}
