//! The output of `check` as JSON objects, one per line: one for the result, and one for each record of each ring.

ghost use Rattle.std.specs.Prelude.{◌≡◌, ◌++◌, IfOk, OnOk, map};
ghost use Rattle.rb_run_commands.specs.Printed.{grant_fields, record_object, ring_objects, run_objects};

use rb_history::Taken;
use rb_json::{push_field, push_payload};
use rb_lend::Lent;
use std::alloc::{AllocError, Global};

/// Returns the objects of a run with this result and these records, ring by ring from ring 0: `accepted` and `result`,
/// and for each record `ring`, `pos`, `worker`, `serial`, `len`, `discarded` and its payload, or `ring`, `pos`, `len`
/// and `discarded`.
pub(crate) fn objects_of_run(
    alloc: Global,
    value: u64,
    rings: &[Vec<Taken>],
) -> Result<Vec<u8>, AllocError>
    ensures objects { IfOk result (λ lines. lines.items ≡ run_objects value (map (λ records. records.items) rings.now)) }
{
    let mut lines = Vec::new(alloc);
    push_field(&mut lines, b"{\"accepted\":true,\"result\":", value)?;
    lines.extend_from_slice(b"}\n")?;
    for ring in 0..rings.len() {
        push_ring(alloc, &mut lines, ring, rings[ring].as_slice())?;
    }
    Ok(lines)
}

// Appends the objects of a ring's records.
fn push_ring(
    alloc: Global,
    lines: &mut Vec<u8>,
    ring: usize,
    records: &[Taken],
) -> Result<(), AllocError>
    ensures objects { OnOk result (lines.new.items ≡ lines.old.items ++ ring_objects ring records.now) }
{
    for taken in records {
        push_record(alloc, lines, ring, taken)?;
    }
    Ok(())
}

#[tactic(auto, unfolding(crate::specs::Printed::grant_fields))]
// Appends the fields of a record that was granted to a worker.
fn push_grant(
    lines: &mut Vec<u8>,
    ring: usize,
    pos: u64,
    worker: u32,
    serial: u64,
) -> Result<(), AllocError>
    ensures fields { OnOk result (lines.new.items ≡ lines.old.items ++ grant_fields ring pos worker serial) }
{
    push_field(lines, b"{\"ring\":", ring as u64)?;
    push_field(lines, b",\"pos\":", pos)?;
    push_field(lines, b",\"worker\":", u64::from(worker))?;
    push_field(lines, b",\"serial\":", serial)
}

// Appends the object of a submitted record.
fn push_event(
    alloc: Global,
    lines: &mut Vec<u8>,
    ring: usize,
    pos: u64,
    worker: u32,
    serial: u64,
    bytes: &[u8],
) -> Result<(), AllocError>
    ensures object { OnOk result (lines.new.items ≡ lines.old.items ++ record_object ring (Taken.Event pos worker serial bytes.now)) }
{
    push_grant(lines, ring, pos, worker, serial)?;
    push_field(lines, b",\"len\":", bytes.len() as u64)?;
    lines.extend_from_slice(b",\"discarded\":false,")?;
    push_payload(alloc, lines, bytes)?;
    lines.extend_from_slice(b"}\n")
}

// Appends the object of a discarded record.
fn push_discarded(lines: &mut Vec<u8>, ring: usize, pos: u64, len: u32) -> Result<(), AllocError>
    ensures object { OnOk result (lines.new.items ≡ lines.old.items ++ record_object ring (Taken.Skipped pos len)) }
{
    push_field(lines, b"{\"ring\":", ring as u64)?;
    push_field(lines, b",\"pos\":", pos)?;
    push_field(lines, b",\"len\":", u64::from(len))?;
    lines.extend_from_slice(b",\"discarded\":true}\n")
}

// Appends the object of a record.
fn push_record(
    alloc: Global,
    lines: &mut Vec<u8>,
    ring: usize,
    taken: &Taken,
) -> Result<(), AllocError>
    ensures object { OnOk result (lines.new.items ≡ lines.old.items ++ record_object ring taken.now) }
{
    match taken {
        Taken::Event(pos, worker, serial, sheet) => {
            push_event(alloc, lines, ring, *pos, *worker, *serial, sheet.bytes())
        }
        Taken::Skipped(pos, len) => push_discarded(lines, ring, *pos, *len),
        Taken::BusyFront | Taken::Empty => Ok(()),
    }
}
