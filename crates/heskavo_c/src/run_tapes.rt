//! The tapes of the records that a run left.

ghost use Rattle.std.specs.Prelude.{ℕ, ◌≡◌, ◌<◌, ◌++◌, ◌∷◌, [], IfOk, OnOk, length};
ghost use Rattle.rb_history.specs.RingModel.{IsRingSize};
ghost use Rattle.rb_history.specs.TapeBytes.{AreItemsFrom, IsItemAt, item_bytes, tape};
ghost use Rattle.rb_history.specs.TapeBytes.Item.{Event, Skip};
ghost use Rattle.rb_world.specs.TakenTapes.{taken_items};
ghost use Rattle.heskavo_c.specs.Runs.{IsDrained, LeavesTapes, items_left};

use crate::tapes::{put_discarded, put_event};
use rb_history::{Taken, span};
use rb_lend::Lent;
use rb_world::World;
use std::alloc::{AllocError, Global};

// Appends a submitted record to a tape.
fn push_event(
    bytes: &mut Vec<u8>,
    size: u64,
    position: u64,
    payload: &[u8],
    len: u32,
) -> Result<(), AllocError>
    requires size { IsRingSize size }
    requires len { len ≡ length payload.now }
    requires stands { IsItemAt size position (Event position payload.now) }
    ensures bytes { OnOk result (bytes.new.items ≡ bytes.old.items ++ item_bytes size (Event position payload.now)) }
{
    let at = bytes.len();
    bytes.resize(at + span(len) as usize, 0)?;
    put_event(payload, size, position, &mut bytes[at..]);
    Ok(())
}

// Appends a discarded record to a tape.
fn push_discarded(bytes: &mut Vec<u8>, size: u64, position: u64, len: u32) -> Result<(), AllocError>
    requires size { IsRingSize size }
    requires stands { IsItemAt size position (Skip position len) }
    ensures bytes { OnOk result (bytes.new.items ≡ bytes.old.items ++ item_bytes size (Skip position len)) }
{
    let at = bytes.len();
    bytes.resize(at + span(len) as usize, 0)?;
    put_discarded(len, size, position, &mut bytes[at..]);
    Ok(())
}

// Appends a record that was taken, and may be on a tape, to a tape. Appends nothing if the take found no record.
fn push_record(bytes: &mut Vec<u8>, size: u64, taken: &Taken) -> Result<(), AllocError>
    requires size { IsRingSize size }
    requires stands { (position : ℕ) × AreItemsFrom size position (taken_items (taken.now ∷ [])) }
    ensures bytes { OnOk result (bytes.new.items ≡ bytes.old.items ++ tape size (taken_items (taken.now ∷ []))) }
{
    match taken {
        Taken::Event(position, _, _, sheet) => {
            push_event(bytes, size, *position, sheet.bytes(), sheet.len())
        }
        Taken::Skipped(position, len) => push_discarded(bytes, size, *position, *len),
        Taken::BusyFront | Taken::Empty => Ok(()),
    }
}

// Appends the tape of the records that were taken from a ring, each of which begins where the previous one ends.
fn push_tape(bytes: &mut Vec<u8>, size: u64, records: &[Taken]) -> Result<(), AllocError>
    requires size { IsRingSize size }
    requires follow { AreItemsFrom size 0 (taken_items records.now) }
    ensures bytes { OnOk result (bytes.new.items ≡ bytes.old.items ++ tape size (taken_items records.now)) }
{
    for taken in records {
        push_record(bytes, size, taken)?;
    }
    Ok(())
}

/// Returns the tapes of what was taken from the world's rings, which have this size, one after the other, and the
/// length of each tape in bytes.
pub(crate) fn tapes_of(
    alloc: Global,
    world: &World<'_>,
    size: u64,
    rings: u32,
) -> Result<(Vec<u8>, Vec<u64>), AllocError>
    requires size { IsRingSize size }
    requires rings { rings ≡ length world.now.rings }
    requires follow { (ring : ℕ) → ring < rings → AreItemsFrom size 0 (items_left world.now ring) }
    requires drained { (ring : ℕ) → ring < rings → IsDrained world.now ring }
    ensures left { IfOk result (λ left. LeavesTapes world.now size rings left.0.items left.1.items) }
{
    let mut bytes = Vec::new(alloc);
    let mut lengths = Vec::new(alloc);
    for ring in 0..rings {
        let before = bytes.len();
        push_tape(&mut bytes, size, world.taken(ring))?;
        lengths.push((bytes.len() - before) as u64)?;
    }
    Ok((bytes, lengths))
}
