//! Messages that explain why a line of a script is refused.

use crate::script::first_line;
use crate::script_line::{ScriptLine, line_of};
use rb_loader::{Bounds, accept};
use rb_world::Actor;
use std::alloc::{AllocError, Global};

// The numbers of rings, workers and turns in the lines before a line.
#[derive(Clone, Copy, Default)]
struct EarlierLines {
    rings: u64,
    workers: u64,
    turns: u64,
}

/// Returns a message that explains why a line of a script (counted from 1) was refused: its form and bounds, its place,
/// or the reason why its program was refused. The message is meant for people; tests check it.
pub fn line_reason(alloc: Global, script: &[u8], line: usize) -> Result<String, AllocError> {
    let mut front = EarlierLines::default();
    let mut rest = script;
    for before in 0..script.len() {
        if rest.is_empty() {
            break;
        }
        let (bytes, behind) = first_line(rest);
        if before + 1 == line {
            let rings = front.rings.saturating_add(rings_in(behind));
            return reason_at(alloc, &front, rings, bytes, line);
        }
        front.add(line_of(bytes));
        rest = behind;
    }
    format!(in alloc; "line {line} is after the last one: a script has at least one worker")
}

impl EarlierLines {
    // Counts one more line.
    fn add(&mut self, line: Option<ScriptLine<'_>>) {
        match line {
            Some(ScriptLine::Ring(_)) => self.rings = self.rings.saturating_add(1),
            Some(ScriptLine::Worker(_, _)) => self.workers = self.workers.saturating_add(1),
            Some(ScriptLine::Turns(_, count)) => self.turns = self.turns.saturating_add(count),
            None => {}
        }
    }
}

// Returns the number of rings in these lines.
fn rings_in(lines: &[u8]) -> u64 {
    let mut found = EarlierLines::default();
    let mut rest = lines;
    for _ in 0..lines.len() {
        if rest.is_empty() {
            break;
        }
        let (bytes, behind) = first_line(rest);
        found.add(line_of(bytes));
        rest = behind;
    }
    found.rings
}

// Returns why this line is refused after the earlier lines, in a script with this number of rings.
fn reason_at(
    alloc: Global,
    front: &EarlierLines,
    rings: u64,
    bytes: &[u8],
    line: usize,
) -> Result<String, AllocError> {
    match line_of(bytes) {
        None => format!(in alloc; "line {line}: {}", form_of(bytes)),
        Some(ScriptLine::Ring(_) | ScriptLine::Worker(_, _)) if front.turns > 0 => {
            format!(in alloc; "line {line}: rings and workers stand before the first turn")
        }
        Some(ScriptLine::Ring(_)) => format!(in alloc;
            "line {line}: a script has 16 rings at most"
        ),
        Some(ScriptLine::Worker(_, _)) if front.workers >= 256 => {
            format!(in alloc; "line {line}: a script has 256 workers at most")
        }
        Some(ScriptLine::Worker(program, context)) => {
            worker_reason(alloc, rings, program, context, line)
        }
        Some(ScriptLine::Turns(actor, count)) => turns_reason(alloc, front, actor, count, line),
    }
}

// Returns why a worker's line is refused.
fn worker_reason(
    alloc: Global,
    rings: u64,
    program: &str,
    context: &str,
    line: usize,
) -> Result<String, AllocError> {
    let length = match hex::decode(alloc, context) {
        Ok(bytes) if bytes.len() <= 65_536 => bytes.len() as u32,
        _ => {
            return format!(in alloc;
                "line {line}: expected a context as pairs of hex digits, 65536 bytes at most"
            );
        }
    };
    let bounds = Bounds {
        ctx_len: length,
        rings: rings.min(16) as u32,
    };
    match accept(alloc, program, bounds) {
        Ok(_) => format!(in alloc; "line {line}: the worker's program could not be verified"),
        Err(fault) => format!(in alloc;
            "line {line}: the worker's program is refused for a context of {length} bytes and {rings} rings: {fault}"
        ),
    }
}

// Returns why a line of turns is refused.
fn turns_reason(
    alloc: Global,
    front: &EarlierLines,
    actor: Actor,
    count: u64,
    line: usize,
) -> Result<String, AllocError> {
    let (what, number, many) = match actor {
        Actor::Worker(worker) => ("worker", worker, front.workers),
        Actor::Consumer(ring) | Actor::Keeper(ring) => ("ring", ring, front.rings),
    };
    if front.workers == 0 {
        return format!(in alloc;
            "line {line}: at least one worker must come before the first turn"
        );
    }
    if u64::from(number) >= many {
        return format!(in alloc;
            "line {line}: there is no {what} {number}; the lines before have {many}, counted from 0"
        );
    }
    if front.turns > 0 && count > 0 {
        return format!(in alloc;
            "line {line}: {count} turns after {} earlier ones, and a script has 1 to 1000000 in all",
            front.turns
        );
    }
    format!(in alloc; "line {line}: {count} turns, and a script has 1 to 1000000 in all")
}

// Returns the form required of a line that begins with these letters.
fn form_of(bytes: &[u8]) -> &'static str {
    if bytes.starts_with(b"ring") {
        "expected `ring SIZE START` or `ring SIZE START ROOM`: a power of two from 4096 to 67108864, a multiple of 8 up to 2305843009213693952, and 8 to 1048576"
    } else if bytes.starts_with(b"worker") {
        "expected `worker HEX` or `worker HEX CTXHEX`: a program and its context in hex, separated by one space"
    } else if bytes.starts_with(b"w ") {
        "expected `w I` or `w I COUNT`: a worker's number and how many turns it takes, in decimal digits"
    } else if bytes.starts_with(b"c ") {
        "expected `c R` or `c R COUNT`: a ring's number and how many takes there are, in decimal digits"
    } else if bytes.starts_with(b"k ") {
        "expected `k R`: a ring's number in decimal digits"
    } else {
        "expected `ring`, `worker`, `w`, `c` or `k`, then its words, separated by single spaces, in ASCII"
    }
}
