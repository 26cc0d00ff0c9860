//! The line about the final state of an order.

use rb_chapter_ring::RingState;
use rb_history::Taken;
use rb_lend::{Lent, Sheet};
use rb_world::{Actor, World};
use std::io;
use std::io::Write;

/// Writes the result of each worker's program, the ring's positions and counts, and the records that were taken, in
/// order.
pub(crate) fn write_end<W: Write>(world: &World<'_>, workers: u32, out: &mut W) -> io::Result<()> {
    write_results(world, workers, out)?;
    if !world.has(Actor::Consumer(0)) {
        return Ok(());
    }
    write_counts(world.ring(0), out)?;
    for taken in world.taken(0) {
        write_taken(taken, out)?;
    }
    writeln!(out)
}

// Writes the ring's positions and counts.
fn write_counts<W: Write>(ring: &RingState, out: &mut W) -> io::Result<()> {
    let counts = ring.counts();
    for (word, number) in [
        ("producer ", ring.query(3)),
        (" consumer ", ring.query(2)),
        (" made ", counts.made),
        (" refused ", counts.refused),
        (" consumed ", counts.consumed),
        (" discarded ", counts.discarded),
        (" waiting ", counts.waiting),
        (" busy ", counts.busy),
    ] {
        write!(out, "{word}{number}")?;
    }
    Ok(())
}

fn write_results<W: Write>(world: &World<'_>, workers: u32, out: &mut W) -> io::Result<()> {
    for worker in 0..workers {
        if world.has(Actor::Worker(worker)) {
            write_result(world.result(worker), world.at(worker), out)?;
        }
    }
    Ok(())
}

// Writes the result of a worker's program, or the unit that it is at.
fn write_result<W: Write>(ended: Option<u64>, at: Option<u32>, out: &mut W) -> io::Result<()> {
    match (ended, at) {
        (Some(value), _) => write!(out, "done {value} "),
        (None, Some(unit)) => write!(out, "at {unit} "),
        (None, None) => write!(out, "nowhere "),
    }
}

// Writes a record that was taken (its position, worker, serial, length, and its bytes up to the zeros that end it), or
// one that was skipped.
fn write_taken<W: Write>(taken: &Taken, out: &mut W) -> io::Result<()> {
    match taken {
        Taken::Event(pos, worker, serial, sheet) => {
            let len = sheet.len();
            write!(out, " took {pos} {worker} {serial} {len} ")?;
            write_bytes(sheet, out)
        }
        Taken::Skipped(pos, len) => write!(out, " skipped {pos} {len}"),
        Taken::BusyFront | Taken::Empty => Ok(()),
    }
}

fn write_bytes<W: Write>(sheet: &Sheet, out: &mut W) -> io::Result<()> {
    let bytes = sheet.bytes();
    let end = match bytes.iter().rposition(|byte| *byte != 0) {
        Some(place) => place + 1,
        None => 0,
    };
    for byte in &bytes[..end] {
        write!(out, "{byte:02x}")?;
    }
    Ok(())
}
