//! The output of `check` for a program's run: its result, and a line for each record of each ring.

ghost use Rattle.std.specs.Prelude.{◌≡◌, ◌++◌, IfOk, OnOk, map, string_bytes};
ghost use Rattle.rb_io.specs.Lines.{hex_text};
ghost use Rattle.rb_run_commands.specs.Printed.{record_line, ring_lines, run_text};

use rb_history::Taken;
use rb_lend::Lent;
use std::alloc::{AllocError, Global};

/// Returns the text of a run with this result and these records, ring by ring from ring 0: `accepted`, `result R`, and
/// for each record `ring I pos P worker W serial S len N HEX`, or `ring I pos P len N discarded`. An empty payload is
/// `-`.
pub(crate) fn text_of_run(
    alloc: Global,
    value: u64,
    rings: &[Vec<Taken>],
) -> Result<String, AllocError>
    ensures text { IfOk result (λ text. string_bytes text ≡ run_text value (map (λ records. records.items) rings.now)) }
{
    let mut text = String::new(alloc);
    writeln!(text, "accepted")?;
    writeln!(text, "result {value}")?;
    for ring in 0..rings.len() {
        push_ring(alloc, &mut text, ring, rings[ring].as_slice())?;
    }
    Ok(text)
}

// Appends the lines of a ring's records.
fn push_ring(
    alloc: Global,
    text: &mut String,
    ring: usize,
    records: &[Taken],
) -> Result<(), AllocError>
    ensures lines { OnOk result (string_bytes text.new ≡ string_bytes text.old ++ ring_lines ring records.now) }
{
    for taken in records {
        push_record(alloc, text, ring, taken)?;
    }
    Ok(())
}

// Appends the line of a record.
fn push_record(
    alloc: Global,
    text: &mut String,
    ring: usize,
    taken: &Taken,
) -> Result<(), AllocError>
    ensures line { OnOk result (string_bytes text.new ≡ string_bytes text.old ++ record_line ring taken.now) }
{
    match taken {
        Taken::Event(pos, worker, serial, sheet) => {
            let bytes = hex_of(alloc, sheet.bytes())?;
            let len = sheet.len();
            writeln!(
                text,
                "ring {ring} pos {pos} worker {worker} serial {serial} len {len} {bytes}"
            )
        }
        Taken::Skipped(pos, len) => writeln!(text, "ring {ring} pos {pos} len {len} discarded"),
        Taken::BusyFront | Taken::Empty => Ok(()),
    }
}

// Returns the bytes in hex, or `-` if there are none.
fn hex_of(alloc: Global, bytes: &[u8]) -> Result<String, AllocError>
    ensures text { IfOk result (λ text. string_bytes text ≡ hex_text bytes.now) }
{
    if bytes.is_empty() {
        return String::from_str(alloc, "-");
    }
    hex::encode(alloc, bytes)
}
