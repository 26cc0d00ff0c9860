//! The plan: workers with their steps, and takes.

use crate::fault::TrialFault;
use crate::verified_programs;
use rb_program::from_text;
use rb_verifier::Verified;
use std::alloc::Global;

/// A worker: its program, and the number of turns of each of its steps.
#[derive(Drop)]
pub(crate) struct PlannedWorker {
    pub(crate) program: Verified,
    pub(crate) steps: Vec<u32>,
}

/// Workers, and the takes of the consumer.
#[derive(Drop)]
pub(crate) struct OrdersPlan {
    pub(crate) workers: Vec<PlannedWorker>,
    /// How many takes are interleaved with the steps.
    pub(crate) takes: u32,
    /// How many takes follow each step.
    pub(crate) after: u32,
    /// How many takes follow the last step.
    pub(crate) last: u32,
}

impl OrdersPlan {
    /// Parses the plan from arguments.
    pub(crate) fn read(alloc: Global, words: &[String]) -> Result<OrdersPlan, TrialFault> {
        let [takes, after, last, rest @ ..] = words else {
            return Err(TrialFault::Usage);
        };
        let (takes, after, last) = (
            number(takes.as_str())?,
            number(after.as_str())?,
            number(last.as_str())?,
        );
        Ok(OrdersPlan {
            workers: workers_of(alloc, rest)?,
            takes,
            after,
            last,
        })
    }

    /// Returns the number of workers.
    pub(crate) fn count_workers(&self) -> u32 {
        u32::try_from(self.workers.len()).unwrap_or(u32::MAX)
    }
}

// Parses the workers from pairs of arguments.
fn workers_of(alloc: Global, words: &[String]) -> Result<Vec<PlannedWorker>, TrialFault> {
    let mut workers = Vec::new(alloc);
    for pair in words.chunks(2) {
        workers.push(worker_of(alloc, pair)?)?;
    }
    Ok(workers)
}

fn worker_of(alloc: Global, words: &[String]) -> Result<PlannedWorker, TrialFault> {
    let [steps, text] = words else {
        return Err(TrialFault::Usage);
    };
    let program = verified(alloc, text.as_str())?;
    let steps = steps_of(alloc, steps.as_str())?;
    Ok(PlannedWorker { program, steps })
}

fn number(word: &str) -> Result<u32, TrialFault> {
    match word.parse::<u32>() {
        Ok(number) => Ok(number),
        Err(_) => Err(TrialFault::Usage),
    }
}

// Parses the numbers of an argument, which are separated by commas.
fn steps_of(alloc: Global, word: &str) -> Result<Vec<u32>, TrialFault> {
    let mut steps = Vec::new(alloc);
    for part in word.split(',') {
        steps.push(number(part)?)?;
    }
    Ok(steps)
}

// Returns a program, verified for no context and one ring.
fn verified(alloc: Global, text: &str) -> Result<Verified, TrialFault> {
    match from_text(alloc, text) {
        Ok(program) => verified_programs::verified(alloc, program, 0, 1),
        Err(_) => Err(TrialFault::Refused),
    }
}
