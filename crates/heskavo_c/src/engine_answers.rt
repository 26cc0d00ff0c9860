//! The exports that return the numbers of an engine's rings.

ghost use Rattle.std.specs.Prelude.{◌≡◌, ◌≢◌, ◌<◌, ◌↔◌, ◌⊎◌, length};
ghost use Rattle.heskavo_c.specs.EngineHandles.{OfEngine};
ghost use Rattle.heskavo_c.specs.Engines.{AnswersQuery, CountsRing, HasRing, counts_of_ring};

use crate::engine_handle::{EngineHandle, put_back, take_out};
use crate::status::{ARGUMENT, DONE};
use rb_engine::Engine;
use rb_history::Counts;
use std::alloc::Global;

/// The counts of a ring since it was opened. `made` is the sum of the last four.
#[repr(C)]
#[derive(Clone, Copy)]
pub struct RingCounts {
    /// Records that were granted.
    pub made: u64,
    /// Reservations and outputs that found no room; the count saturates at 2^64 - 1.
    pub refused: u64,
    /// Records that were submitted and taken.
    pub consumed: u64,
    /// Records that were discarded.
    pub discarded: u64,
    /// Records that were submitted and not taken.
    pub waiting: u64,
    /// Records that were neither submitted nor discarded.
    pub busy: u64,
}

// Returns the counts as they are passed to C.
fn counts_for(counts: Counts) -> RingCounts
    ensures { result ≡ counts_of_ring counts }
{
    RingCounts {
        made: counts.made,
        refused: counts.refused,
        consumed: counts.consumed,
        discarded: counts.discarded,
        waiting: counts.waiting,
        busy: counts.busy,
    }
}

// Queries a ring.
fn query_in(engine: &Engine, ring: u32, what: u64, answer: &mut u64) -> u32
    ensures answered { result ≡ DONE → AnswersQuery ring what answer.new engine.now }
    ensures argument { (result ≡ ARGUMENT) ↔ ¬ HasRing ring engine.now }
    ensures unwritten { result ≢ DONE → answer.new ≡ answer.old }
    ensures answers { (result ≡ DONE) ⊎ (result ≡ ARGUMENT) }
{
    if ring as usize >= engine.rings() {
        return ARGUMENT;
    }
    *answer = engine.query(ring, what);
    DONE
}

#[unsafe(no_mangle)]
/// Queries a ring, as `bpf_ringbuf_query` does.
///
/// Returns `DONE` with the answer, which is 0 for an unknown query. Returns `ARGUMENT` if the handle is closed or no
/// ring has this number.
pub extern "C" fn heskavo_engine_query(
    alloc: Global,
    engine: &mut EngineHandle,
    ring: u32,
    what: u64,
    answer: &mut u64,
) -> u32
    ensures answered { result ≡ DONE → OfEngine (AnswersQuery ring what answer.new) engine.old.value }
    ensures argument { (result ≡ ARGUMENT) ↔ ¬ OfEngine (HasRing ring) engine.old.value }
    ensures unchanged { engine.new.value ≡ engine.old.value }
    ensures unwritten { result ≢ DONE → answer.new ≡ answer.old }
    ensures answers { (result ≡ DONE) ⊎ (result ≡ ARGUMENT) }
{
    let Some(held) = take_out(engine, alloc) else {
        return ARGUMENT;
    };
    let status = query_in(&held, ring, what, answer);
    put_back(engine, alloc, held);
    status
}

// Reads the counts of a ring.
fn counts_in(engine: &Engine, ring: u32, counts: &mut RingCounts) -> u32
    ensures counted { result ≡ DONE → CountsRing ring counts.new engine.now }
    ensures argument { (result ≡ ARGUMENT) ↔ ¬ HasRing ring engine.now }
    ensures unwritten { result ≢ DONE → counts.new ≡ counts.old }
    ensures answers { (result ≡ DONE) ⊎ (result ≡ ARGUMENT) }
{
    if ring as usize >= engine.rings() {
        return ARGUMENT;
    }
    *counts = counts_for(engine.counts(ring));
    DONE
}

#[unsafe(no_mangle)]
/// Reads the six totals of a ring since it was opened.
///
/// Returns `DONE`. Returns `ARGUMENT` if the handle is closed or no ring has this number.
pub extern "C" fn heskavo_engine_counts(
    alloc: Global,
    engine: &mut EngineHandle,
    ring: u32,
    counts: &mut RingCounts,
) -> u32
    ensures counted { result ≡ DONE → OfEngine (CountsRing ring counts.new) engine.old.value }
    ensures argument { (result ≡ ARGUMENT) ↔ ¬ OfEngine (HasRing ring) engine.old.value }
    ensures unchanged { engine.new.value ≡ engine.old.value }
    ensures unwritten { result ≢ DONE → counts.new ≡ counts.old }
    ensures answers { (result ≡ DONE) ⊎ (result ≡ ARGUMENT) }
{
    let Some(held) = take_out(engine, alloc) else {
        return ARGUMENT;
    };
    let status = counts_in(&held, ring, counts);
    put_back(engine, alloc, held);
    status
}
