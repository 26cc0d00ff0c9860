//! The engine: rings and verified programs of one thread.

ghost use Rattle.std.specs.Prelude.{ℕ, ◌≡◌, ◌≢◌, ◌↔◌, ◌⊎◌, ◌+◌, ◌<◌, ◌≤◌, ◌++◌, ◌∷◌, [], All, IfErr, IfNone, IfOk, IfSome, IsErrOf, IsTrue, List, OnErr, OnOk, length, map, slice_index_or};
ghost use Rattle.rb_history.specs.RingModel.{IsRingSize};
ghost use Rattle.rb_history.specs.declared.entries.Entry.{Entry};
ghost use Rattle.rb_chapter_ring.specs.CountedFrom.{query_answer_from};
ghost use Rattle.rb_chapter_ring.specs.OpenedRing.{told_counts};
ghost use Rattle.rb_chapter_ring.specs.WholeHistory.{IsKept};
ghost use Rattle.rb_engine.specs.EngineCalls.{AtRing, OfRing};
ghost use Rattle.rb_engine.specs.EngineValue.{RunsProgram};
ghost use Rattle.rb_engine.specs.OpenedEngine.{fresh_ring};
ghost use Rattle.rb_engine.specs.RingCalls.{HasNoRoom, HasWaitingFront, Outputs, Takes, WasFront};
ghost use Rattle.rb_engine.specs.RingTurns.{AfterTurn};

use crate::engine_ring::{EngineRing, NotSent};
use crate::engine_rings::EngineRings;
use rb_chapter_ring::OpenFault;
use rb_history::{Counts, Notice, Taken, is_size};
use rb_interp::run;
use rb_verifier::Verified;
use std::alloc::{AllocError, Global};
use std::marker::Model;
use thiserror::Error;

/// Why `Engine::run` did not run a program.
#[derive(Clone, Copy, Debug, Error, PartialEq, Eq)]
pub enum NoRun {
    /// The context does not have the length of the engine's contexts. Nothing ran.
    #[error("context of another length")]
    ContextLength,
    /// Memory for the trace of the run's calls could not be allocated. Nothing ran.
    #[error("out of memory")]
    Memory,
}

/// Rings and verified programs for one thread, which persist between calls: each run, and each record that is put or
/// taken, continues with the rings as the previous call left them.
///
/// The rings are allocated when the engine is opened, and a program's place when it is added. After that, the engine
/// allocates only the trace of a run's calls, if the program has more CALL instructions than those that ran before, and
/// the records of more than 16 bytes, each of which it owns until the record is discarded or taken.
#[derive(Drop)]
pub struct Engine {
    rings: EngineRings,
    programs: Vec<Verified>,
    ctx_len: u32,
}

impl Model for Engine {
    ghost use Rattle.std.specs.Coded.{codes};
    ghost use Rattle.rb_history.specs.RingModel.{contents_code};
    ghost use Rattle.rb_history.specs.contracts.entries.Entry as entry;
    ghost use Rattle.rb_history.specs.contracts.tally.Tally as tally_row;
    ghost use Rattle.rb_chapter_ring.specs.contracts.out_record.OutRecord as out_row;
    ghost use Rattle.rb_engine.specs.EngineValue.{EngineValue};
    ghost use Rattle.std.specs.Prelude.{◌≡◌, All, length};

    ghost Value = { EngineValue };

    ghost coded = { Prim.hlevel (codes, contents_code, entry.the_row.coded, tally_row.the_row.coded, out_row.the_row.coded) };

    ghost view = { λ e. record { rings = e.rings.rings; programs = e.programs.items; ctx_len = e.ctx_len } };

    ghost invariant = { λ e. All (λ program. (program.ctx_len ≡ e.ctx_len) × (program.rings ≡ length e.rings.rings)) e.programs.items };
}

impl Engine {
    /// Returns an engine with a ring of each of these sizes in bytes. The rings have no records, there are no programs,
    /// and programs will run over contexts of `ctx_len` bytes.
    ///
    /// Returns `Size` if one of the sizes is not that of a ring (a power of two from 4,096 to 67,108,864). Otherwise,
    /// the only error is `Memory`.
    pub fn open(alloc: Global, sizes: &[u64], ctx_len: u32) -> Result<Engine, OpenFault>
        requires rings { length sizes.now ≤ 16 }
        ensures rings { IfOk result (λ e. e.rings ≡ map fresh_ring sizes.now) }
        ensures programs { IfOk result (λ e. e.programs ≡ []) }
        ensures ctx_len { IfOk result (λ e. e.ctx_len ≡ ctx_len) }
        ensures size { IsErrOf result OpenFault.Size ↔ ¬ All IsRingSize sizes.now }
        ensures fault { IfErr result (λ fault. (fault ≡ OpenFault.Size) ⊎ (fault ≡ OpenFault.Memory)) }
    {
        if !are_sizes(sizes) {
            return Err(OpenFault::Size);
        }
        match open_rings(alloc, sizes) {
            Ok(rings) => Ok(Engine {
                rings: EngineRings::new(alloc, rings),
                programs: Vec::new(alloc),
                ctx_len,
            }),
            Err(AllocError) => Err(OpenFault::Memory),
        }
    }

    /// Returns the number of rings.
    pub fn rings(&self) -> usize
        ensures count { result ≡ length self.now.rings }
    {
        self.rings.rings.len()
    }

    /// Returns the number of programs.
    pub fn programs(&self) -> usize
        ensures count { result ≡ length self.now.programs }
    {
        self.programs.len()
    }

    /// Returns the length of every context, in bytes.
    pub fn ctx_len(&self) -> u32
        ensures len { result ≡ self.now.ctx_len }
    {
        self.ctx_len
    }

    /// States the invariant of the ring with this number, whatever calls were made before: its chapter (the current
    /// segment of its history) is legal from its opening, which is the summary of a legal history.
    ///
    /// For the proofs of callers; the function does nothing.
    pub fn facts(&self, ring: u32)
        requires ring { ring < length self.now.rings }
        ensures kept { OfRing ring (λ v. (earlier : List Entry) × IsKept earlier v.ring.chapter) self.now.rings }
    {
        self.rings.facts(ring);
    }

    /// Adds a program and returns its number, counted from 0. Fails only if memory can't be allocated, and then leaves
    /// the engine unchanged.
    pub fn add(&mut self, program: Verified) -> Result<u32, AllocError>
        requires context { program.ctx_len ≡ self.old.ctx_len }
        requires rings { program.rings ≡ length self.old.rings }
        requires count { length self.old.programs < 4294967295 }
        ensures number { IfOk result (λ n. n ≡ length self.old.programs) }
        ensures added { OnOk result (self.new.programs ≡ self.old.programs ++ program ∷ []) }
        ensures refused { OnErr result (self.new.programs ≡ self.old.programs) }
        ensures rings { self.new.rings ≡ self.old.rings }
        ensures ctx_len { self.new.ctx_len ≡ self.old.ctx_len }
    {
        let number = self.programs.len() as u32;
        self.programs.reserve(1)?;
        self.programs.push_reserved(program);
        Ok(number)
    }

    /// Returns the answer to a query of the ring with this number (bpf-helpers(7), bpf_ringbuf_query), or 0 if `what`
    /// is unknown.
    pub fn query(&self, ring: u32, what: u64) -> u64
        requires ring { ring < length self.now.rings }
        ensures answer { OfRing ring (λ v. result ≡ query_answer_from v.ring.chapter.opening v.ring.chapter.entries what) self.now.rings }
    {
        self.rings.answer(ring, what)
    }

    /// Returns the six totals of the ring with this number since the engine was opened. The refusal count saturates at
    /// `u64::MAX`.
    pub fn counts(&self, ring: u32) -> Counts
        requires ring { ring < length self.now.rings }
        ensures counts { OfRing ring (λ v. result ≡ told_counts v.ring) self.now.rings }
    {
        self.rings.counts(ring)
    }

    /// Outputs a copy of the bytes as one record to the ring with this number, as a program does, and returns its
    /// notice: whether the consumer needs a wake-up.
    ///
    /// Returns `Full` if the ring or its chapter has no room; the ring keeps its records, and only its count of
    /// refusals may increase. Returns `Memory` if memory for more than 16 bytes can't be allocated, or if there are
    /// more than `u32::MAX` bytes; then nothing changed.
    pub fn put(&mut self, ring: u32, bytes: &[u8], flags: u64) -> Result<Notice, NotSent>
        requires ring { ring < length self.old.rings }
        requires flags { flags ≤ 3 }
        ensures put { IfOk result (λ notice. AtRing ring (AfterTurn (Outputs bytes.now flags notice)) self.old.rings self.new.rings) }
        ensures full { IsErrOf result NotSent.Full → AtRing ring (AfterTurn (HasNoRoom (length bytes.now))) self.old.rings self.new.rings }
        ensures memory { IsErrOf result NotSent.Memory → (16 < length bytes.now) × (self.new.rings ≡ self.old.rings) }
        ensures programs { self.new.programs ≡ self.old.programs }
        ensures count { length self.new.rings ≡ length self.old.rings }
        ensures ctx_len { self.new.ctx_len ≡ self.old.ctx_len }
    {
        self.rings.put(ring, bytes, flags)
    }

    /// Returns the length in bytes of the next record of the ring with this number, or `None` if there is no record or
    /// the next one was not submitted.
    pub fn front_len(&self, ring: u32) -> Option<u32>
        requires ring { ring < length self.now.rings }
        ensures waiting { IfSome result (λ n. OfRing ring (λ v. HasWaitingFront v n) self.now.rings) }
        ensures none { IfNone result (OfRing ring (λ v. (n : ℕ) → ¬ HasWaitingFront v n) self.now.rings) }
    {
        self.rings.front_len(ring)
    }

    /// Takes the next record of the ring with this number, as `RingState::take` does.
    pub fn take(&mut self, ring: u32) -> Taken
        requires ring { ring < length self.old.rings }
        ensures taken { AtRing ring (Takes result) self.old.rings self.new.rings }
        ensures front { OfRing ring (λ v. WasFront result v) self.old.rings }
        ensures programs { self.new.programs ≡ self.old.programs }
        ensures count { length self.new.rings ≡ length self.old.rings }
        ensures ctx_len { self.new.ctx_len ≡ self.old.ctx_len }
    {
        self.rings.take(ring)
    }

    /// Runs the program with this number to its end over the engine's rings, and returns the program's result.
    ///
    /// Returns `NoRun` if it did not run; then the rings are unchanged.
    pub fn run(&mut self, number: u32, context: &[u8]) -> Result<u64, NoRun>
        requires number { number < length self.old.programs }
        ensures ran { IfOk result (λ value. RunsProgram number context.now value self.old self.new) }
        ensures length { IsErrOf result NoRun.ContextLength ↔ (length context.now ≢ self.old.ctx_len) }
        ensures unchanged { OnErr result (self.new.rings ≡ self.old.rings) }
        ensures count { length self.new.rings ≡ length self.old.rings }
        ensures programs { self.new.programs ≡ self.old.programs }
        ensures ctx_len { self.new.ctx_len ≡ self.old.ctx_len }
    {
        if context.len() != self.ctx_len as usize {
            return Err(NoRun::ContextLength);
        }
        let program = &self.programs[number as usize];
        if self.rings.begin(program.calls()).is_err() {
            return Err(NoRun::Memory);
        }
        let Ok(value) = run(program, context, &mut self.rings) else {
            unreachable!()
        };
        Ok(value)
    }
}

// Returns whether each of these is the size of a ring.
fn are_sizes(sizes: &[u64]) -> bool
    ensures { IsTrue result ↔ All IsRingSize sizes.now }
{
    for size in sizes {
        if !is_size(*size) {
            return false;
        }
    }
    true
}

// Returns a ring of each of these sizes, without records.
fn open_rings(alloc: Global, sizes: &[u64]) -> Result<Vec<EngineRing>, AllocError>
    requires sizes { All IsRingSize sizes.now }
    requires few { length sizes.now ≤ 16 }
    ensures opened { IfOk result (λ rings. rings.items ≡ map fresh_ring sizes.now) }
{
    let mut rings = Vec::new(alloc);
    for (number, size) in sizes.iter().enumerate() {
        let ring = EngineRing::new(alloc, number as u32, *size)?;
        rings.push(ring)?;
    }
    Ok(rings)
}
