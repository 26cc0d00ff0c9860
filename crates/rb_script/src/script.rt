//! A script: rings, workers, and the turns that they take.

ghost use Rattle.std.specs.Prelude.{◌≡◌, ◌==◌, ◌≤◌, ◌<◌, ◌⊎◌, ◌∷◌, ◌↔◌, ℕ, length, position, Err, IsTrue, IfOk, IfErr, OnOk};
ghost use Rattle.rb_script.specs.ScriptText.{lines_of};
ghost use Rattle.rb_script.specs.ScriptText.Statement.{RingOf};
ghost use Rattle.rb_script.specs.Scripts.{HasWorker, IsWithinLimits, MayRunScript, IsScript, IsFirstFault, IsFaultOf, StandFor, IsAmong};
ghost use Rattle.rb_script.specs.inner.ScriptRead.{AddsLawful, AddsWorker, AddsTurns, AddsLine, MayFollowScript, MayAddWorker, MayAddTurns, MayAddLine, IsFaultUnless};

use crate::script_fault::ScriptFault;
use crate::script_line::{ScriptLine, line_of};
use hex::FromHexError;
use rb_world::{Actor, RingSetup};
use std::alloc::Global;

// The maximum number of turns of a script.
const TURNS: u64 = 1_000_000;

/// A worker of a script.
#[derive(Drop)]
pub struct ScriptWorker<'a> {
    /// The number of its line, counted from 1.
    pub line: usize,
    /// Its program, in hex.
    pub program: &'a str,
    /// The bytes of its context.
    pub context: Vec<u8>,
}

/// A script that was read: its rings, its workers (their programs are still text), and their turns.
#[derive(Drop)]
pub struct Script<'a> {
    /// The rings, in the order of their lines.
    pub rings: Vec<RingSetup>,
    /// The workers, in the order of their lines.
    pub workers: Vec<ScriptWorker<'a>>,
    /// The actors whose turns they are, in order.
    pub actors: Vec<Actor>,
}

impl<'a> Script<'a> {
    /// Reads a whole script. Each line ends with a line feed, which is optional for the last one.
    ///
    /// Reports the first line that is not a line of a script or is not allowed there. Rings and workers come before the
    /// first turn. There are at most 16 rings, 1 to 256 workers, and at most 1,000,000 turns, each of an existing
    /// worker or ring. `Memory` can be returned instead of any other result.
    pub fn read(alloc: Global, input: &'a [u8]) -> Result<Script<'a>, ScriptFault>
        ensures limits { IfOk result IsWithinLimits }
        ensures worker { IfOk result HasWorker }
        ensures runs { IfOk result MayRunScript }

        // The script is what the lines say. It exists if and only if each line is a line of a script.
        ensures script { IfOk result (λ s. StandFor (lines_of input.now) s) }
        ensures only_script { IsScript (lines_of input.now) → IfErr result (λ fault. fault ≡ ScriptFault.Memory) }

        // The fault is that of the first line at fault.
        ensures fault { IfErr result (λ fault. IsFaultOf (lines_of input.now) fault) }
        ensures only_fault { (line : ℕ) → IsFirstFault (lines_of input.now) line
            → (result ≡ Err (ScriptFault.Line line)) ⊎ (result ≡ Err ScriptFault.Memory) }
    {
        let mut script = Script {
            rings: Vec::new(alloc),
            workers: Vec::new(alloc),
            actors: Vec::new(alloc),
        };
        let mut rest = input;
        let mut number = 0;
        while !rest.is_empty() {
            let (line, behind) = first_line(rest);
            number += 1;
            if let Err(fault) = script.add(alloc, number, line) {
                return Err(fault);
            }
            rest = behind;
        }
        if script.workers.is_empty() {
            return Err(ScriptFault::Line(number + 1));
        }
        Ok(script)
    }

    fn add(&mut self, alloc: Global, number: usize, line: &'a [u8]) -> Result<(), ScriptFault>
        requires limits { IsWithinLimits self.old }
        ensures limits { OnOk result (IsWithinLimits self.new) }
        ensures added { OnOk result (AddsLine number line.now self.old self.new) }
        ensures fault { IfErr result (IsFaultUnless number (MayAddLine self.old line.now)) }
    {
        match line_of(line) {
            Some(ScriptLine::Ring(setup)) => self.add_ring(number, setup),
            Some(ScriptLine::Worker(program, context)) => {
                self.add_worker(alloc, number, program, context)
            }
            Some(ScriptLine::Turns(actor, count)) => self.add_turns(number, actor, count),
            None => Err(ScriptFault::Line(number)),
        }
    }

    fn add_ring(&mut self, number: usize, setup: RingSetup) -> Result<(), ScriptFault>
        requires limits { IsWithinLimits self.old }
        ensures limits { OnOk result (IsWithinLimits self.new) }
        ensures added { OnOk result (AddsLawful number (RingOf setup) self.old self.new) }
        ensures fault { IfErr result (IsFaultUnless number (MayFollowScript self.old (RingOf setup))) }
    {
        if !self.actors.is_empty() || self.rings.len() >= 16 {
            return Err(ScriptFault::Line(number));
        }
        match self.rings.push(setup) {
            Ok(()) => Ok(()),
            Err(_) => Err(ScriptFault::Memory),
        }
    }

    fn add_worker(
        &mut self,
        alloc: Global,
        number: usize,
        program: &'a str,
        context: &str,
    ) -> Result<(), ScriptFault>
        requires limits { IsWithinLimits self.old }
        ensures limits { OnOk result (IsWithinLimits self.new) }
        ensures added { OnOk result (AddsWorker number program.now context.now self.old self.new) }
        ensures fault { IfErr result (IsFaultUnless number (MayAddWorker self.old program.now context.now)) }
    {
        if !self.actors.is_empty() || self.workers.len() >= 256 {
            return Err(ScriptFault::Line(number));
        }
        let bytes = match hex::decode(alloc, context) {
            Ok(bytes) => bytes,
            Err(FromHexError::OutOfMemory) => return Err(ScriptFault::Memory),
            Err(_) => return Err(ScriptFault::Line(number)),
        };
        if bytes.len() > 65_536 {
            return Err(ScriptFault::Line(number));
        }
        let worker = ScriptWorker {
            line: number,
            program,
            context: bytes,
        };
        match self.workers.push(worker) {
            Ok(()) => Ok(()),
            Err(_) => Err(ScriptFault::Memory),
        }
    }

    fn has(&self, actor: Actor) -> bool
        ensures { IsTrue result ↔ IsAmong (length self.now.rings.items) (length self.now.workers.items) actor }
    {
        match actor {
            Actor::Worker(w) => (w as usize) < self.workers.len(),
            Actor::Consumer(r) | Actor::Keeper(r) => (r as usize) < self.rings.len(),
        }
    }

    fn add_turns(&mut self, number: usize, actor: Actor, count: u64) -> Result<(), ScriptFault>
        requires limits { IsWithinLimits self.old }
        ensures limits { OnOk result (IsWithinLimits self.new) }
        ensures added { OnOk result (AddsTurns number actor count self.old self.new) }
        ensures fault { IfErr result (IsFaultUnless number (MayAddTurns self.old actor count)) }
    {
        if self.workers.is_empty() || !self.has(actor) {
            return Err(ScriptFault::Line(number));
        }
        if count == 0 || count > TURNS || self.actors.len() as u64 + count > TURNS {
            return Err(ScriptFault::Line(number));
        }
        for added in 0..count {
            let _ = added;
            if self.actors.push(actor).is_err() {
                return Err(ScriptFault::Memory);
            }
        }
        Ok(())
    }
}

// Returns the first line of a text that is not empty, and the text after it.
pub(crate) fn first_line(text: &[u8]) -> (&[u8], &[u8])
    requires some { 1 ≤ length text.now }
    ensures parted { lines_of text.now ≡ result.0.now ∷ lines_of result.1.now }
    ensures shorter { length result.1.now < length text.now }
{
    match line_end(text) {
        Some(end) => (&text[..end], &text[end + 1..]),
        None => (text, &text[text.len()..]),
    }
}

// Returns the position of the first line feed.
fn line_end(text: &[u8]) -> Option<usize>
    ensures { result ≡ position (λ byte. byte == 10) text.now }
{
    text.iter().position(|byte| *byte == b'\n')
}
