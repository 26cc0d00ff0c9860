//! The exports that put records into an engine's rings and take records from them.

ghost use Rattle.std.specs.Prelude.{ℕ, ◌≡◌, ◌≢◌, ◌<◌, ◌≤◌, ◌↔◌, ◌⊎◌, IfNone, IfSome, length};
ghost use Rattle.rb_engine.specs.EngineCalls.{OfRing};
ghost use Rattle.rb_engine.specs.RingCalls.{HasWaitingFront};
ghost use Rattle.heskavo_c.specs.EngineHandles.{CallsEngine, OfEngine};
ghost use Rattle.heskavo_c.specs.Engines.{FindsRingFull, HasBusyRecord, HasLongRecord, HasNoRecord, HasRing, MayPut, PutsRecord, TakesRecord};

use crate::engine_handle::{EngineHandle, put_back, take_out};
use crate::outgoing::put_front;
use crate::status::{ARGUMENT, DONE, EMPTY, FULL, MEMORY, MORE, ROOM};
use rb_engine::{Engine, NotSent};
use rb_history::{KNOWN_FLAGS, Taken};
use rb_lend::Lent;
use std::alloc::Global;

/// A record that was taken from a ring.
#[repr(C)]
#[derive(Clone, Copy)]
pub struct TakenRecord {
    /// Its position in the ring, in bytes since the ring was opened.
    pub position: u64,
    /// Its length in bytes; for a discarded record, the length that it had.
    pub len: u32,
    /// 1 if the record was discarded, else 0.
    pub discarded: u32,
}

// Outputs a record.
fn put_in(engine: &mut Engine, ring: u32, bytes: &[u8], flags: u64) -> u32
    ensures put { result ≡ DONE → PutsRecord ring flags bytes.now engine.old engine.new }
    ensures full { result ≡ FULL → FindsRingFull ring (length bytes.now) engine.old engine.new }
    ensures argument { (result ≡ ARGUMENT) ↔ ¬ MayPut ring flags engine.old }
    ensures unchanged { result ≢ DONE → result ≢ FULL → engine.new ≡ engine.old }
    ensures answers { (result ≡ DONE) ⊎ ((result ≡ FULL) ⊎ ((result ≡ ARGUMENT) ⊎ (result ≡ MEMORY))) }
{
    if ring as usize >= engine.rings() || flags > KNOWN_FLAGS {
        return ARGUMENT;
    }
    match engine.put(ring, bytes, flags) {
        Ok(_) => DONE,
        Err(NotSent::Full) => FULL,
        Err(NotSent::Memory) => MEMORY,
    }
}

#[unsafe(no_mangle)]
/// Outputs a copy of the bytes to a ring as one record, as `bpf_ringbuf_output` does.
///
/// Returns `DONE`. Returns `FULL` if the ring has no room, which it counts as a refusal, or if its chapter has none,
/// even after a turn. Returns `ARGUMENT` if the handle is closed, no ring has this number, or a flag is unknown. If it
/// returns `ARGUMENT` or `MEMORY`, the engine is unchanged.
pub extern "C" fn heskavo_engine_put(
    alloc: Global,
    engine: &mut EngineHandle,
    ring: u32,
    bytes: &[u8],
    flags: u64,
) -> u32
    ensures put { result ≡ DONE → CallsEngine (PutsRecord ring flags bytes.now) engine.old.value engine.new.value }
    ensures full { result ≡ FULL → CallsEngine (FindsRingFull ring (length bytes.now)) engine.old.value engine.new.value }
    ensures argument { (result ≡ ARGUMENT) ↔ ¬ OfEngine (MayPut ring flags) engine.old.value }
    ensures unchanged { result ≢ DONE → result ≢ FULL → engine.new.value ≡ engine.old.value }
    ensures answers { (result ≡ DONE) ⊎ ((result ≡ FULL) ⊎ ((result ≡ ARGUMENT) ⊎ (result ≡ MEMORY))) }
{
    let Some(mut held) = take_out(engine, alloc) else {
        return ARGUMENT;
    };
    let status = put_in(&mut held, ring, bytes, flags);
    put_back(engine, alloc, held);
    status
}

// Returns the length of the next record of the ring, if that record is waiting and longer than `len`.
fn too_long(engine: &Engine, ring: u32, len: usize) -> Option<u32>
    requires ring { ring < length engine.now.rings }
    ensures long { IfSome result (λ n. HasLongRecord ring n len engine.now) }
    ensures fits { IfNone result (OfRing ring (λ v. (n : ℕ) → HasWaitingFront v n → n ≤ len) engine.now.rings) }
{
    match engine.front_len(ring) {
        Some(n) => {
            if n as usize <= len {
                return None;
            }
            Some(n)
        }
        None => None,
    }
}

// Takes the next record, which is no longer than the buffer if it is waiting.
fn take_fitting(engine: &mut Engine, ring: u32, buffer: &mut [u8], record: &mut TakenRecord) -> u32
    requires ring { ring < length engine.old.rings }
    requires fits { OfRing ring (λ v. (n : ℕ) → HasWaitingFront v n → n ≤ length buffer.old) engine.old.rings }
    ensures taken { result ≡ DONE → TakesRecord ring record.new buffer.old buffer.new engine.old engine.new }
    ensures busy { result ≡ MORE → HasBusyRecord ring engine.old }
    ensures empty { result ≡ EMPTY → HasNoRecord ring engine.old }
    ensures unchanged { result ≢ DONE → (engine.new ≡ engine.old) × (buffer.new ≡ buffer.old) × (record.new ≡ record.old) }
    ensures answers { (result ≡ DONE) ⊎ ((result ≡ MORE) ⊎ (result ≡ EMPTY)) }
{
    match engine.take(ring) {
        Taken::Event(position, _, _, sheet) => {
            let bytes = sheet.bytes();
            *record = TakenRecord {
                position,
                len: bytes.len() as u32,
                discarded: 0,
            };
            put_front(buffer, bytes);
            DONE
        }
        Taken::Skipped(position, len) => {
            *record = TakenRecord {
                position,
                len,
                discarded: 1,
            };
            DONE
        }
        Taken::BusyFront => MORE,
        Taken::Empty => EMPTY,
    }
}

// Takes the next record, if the buffer has room for it.
fn take_from(engine: &mut Engine, ring: u32, buffer: &mut [u8], record: &mut TakenRecord) -> u32
    ensures taken { result ≡ DONE → TakesRecord ring record.new buffer.old buffer.new engine.old engine.new }
    ensures busy { result ≡ MORE → HasBusyRecord ring engine.old }
    ensures empty { result ≡ EMPTY → HasNoRecord ring engine.old }
    ensures room { result ≡ ROOM → HasLongRecord ring record.new.len (length buffer.old) engine.old }
    ensures argument { (result ≡ ARGUMENT) ↔ ¬ HasRing ring engine.old }
    ensures unchanged { result ≢ DONE → (engine.new ≡ engine.old) × (buffer.new ≡ buffer.old) }
    ensures unwritten { result ≢ DONE → result ≢ ROOM → record.new ≡ record.old }
    ensures answers { (result ≡ DONE) ⊎ ((result ≡ MORE) ⊎ ((result ≡ EMPTY) ⊎ ((result ≡ ROOM) ⊎ (result ≡ ARGUMENT)))) }
{
    if ring as usize >= engine.rings() {
        return ARGUMENT;
    }
    if let Some(len) = too_long(engine, ring, buffer.len()) {
        *record = TakenRecord {
            position: 0,
            len,
            discarded: 0,
        };
        return ROOM;
    }
    take_fitting(engine, ring, buffer, record)
}

#[unsafe(no_mangle)]
/// Takes the next record of a ring, and copies its bytes to the front of the buffer. A discarded record has no bytes.
///
/// Returns `DONE` with the record. Returns `EMPTY` if the ring has no record, `MORE` if the next one is still busy, and
/// `ROOM` if it is longer than the buffer: then `record` has its length, and it is not taken. Returns `ARGUMENT` if the
/// handle is closed or no ring has this number.
pub extern "C" fn heskavo_engine_take(
    alloc: Global,
    engine: &mut EngineHandle,
    ring: u32,
    buffer: &mut [u8],
    record: &mut TakenRecord,
) -> u32
    ensures taken { result ≡ DONE → CallsEngine (TakesRecord ring record.new buffer.old buffer.new) engine.old.value engine.new.value }
    ensures busy { result ≡ MORE → OfEngine (HasBusyRecord ring) engine.old.value }
    ensures empty { result ≡ EMPTY → OfEngine (HasNoRecord ring) engine.old.value }
    ensures room { result ≡ ROOM → OfEngine (HasLongRecord ring record.new.len (length buffer.old)) engine.old.value }
    ensures argument { (result ≡ ARGUMENT) ↔ ¬ OfEngine (HasRing ring) engine.old.value }
    ensures unchanged { result ≢ DONE → (engine.new.value ≡ engine.old.value) × (buffer.new ≡ buffer.old) }
    ensures unwritten { result ≢ DONE → result ≢ ROOM → record.new ≡ record.old }
    ensures answers { (result ≡ DONE) ⊎ ((result ≡ MORE) ⊎ ((result ≡ EMPTY) ⊎ ((result ≡ ROOM) ⊎ (result ≡ ARGUMENT)))) }
{
    let Some(mut held) = take_out(engine, alloc) else {
        return ARGUMENT;
    };
    let status = take_from(&mut held, ring, buffer, record);
    put_back(engine, alloc, held);
    status
}
