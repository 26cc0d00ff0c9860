//! Real threads over several shared rings at once: the workers of each ring output, reserve, submit and discard records
//! by numbers drawn from a seed, and the ring's consumer takes them in batches, turns the ring's chapters, and checks
//! everything that it takes. `tools/trials soak` runs it.
//!
//! The arguments are WORKERS RINGS SIZE ROOM STEPS SEED: RINGS rings of SIZE bytes, each with chapters of ROOM entries
//! and with WORKERS workers, each of which makes STEPS steps. It prints the number of errors on stdout, which is 0, and
//! what the seats and the closed rings counted on stderr. It fails if there was an error.

mod bytes;
mod consumer;
mod draw;
mod plan;
mod ring_round;
mod seen_records;
mod sums;
mod worker;

use crate::fault::TrialFault;
use plan::SoakPlan;
use ring_round::round;
use std::alloc::Global;
use std::io::{Eprint, Print};
use std::sync::Wait;
use std::thread::{Threads, map_indices};
use sums::SoakSums;

/// Runs all rings of a plan concurrently, and prints their results.
pub(crate) fn run<R: Threads + Wait + Sync + Print + Eprint>(
    rt: &R,
    alloc: Global,
    words: &[String],
) -> Result<(), TrialFault> {
    let sums = sums_of(rt, alloc, words)?;
    tell(rt, &sums);
    let printed = println!(rt; "wrong {}", sums.wrong);
    if printed.is_err() {
        return Err(TrialFault::Device);
    }
    if sums.wrong > 0 {
        return Err(TrialFault::Wrong(sums.wrong));
    }
    Ok(())
}

// Runs all rings of a plan concurrently, and adds up their results.
fn sums_of<R: Threads + Wait + Sync>(
    rt: &R,
    alloc: Global,
    words: &[String],
) -> Result<SoakSums, TrialFault> {
    let plan = SoakPlan::read(words)?;
    let work = move |tag: usize| -> Result<SoakSums, TrialFault> {
        round(rt, alloc, plan, tag as u64)
    };
    let Ok(rounds) = map_indices(rt, alloc, plan.rings, &work) else {
        return Err(TrialFault::Memory);
    };
    sum_of(rounds.as_slice())
}

fn sum_of(rounds: &[Result<SoakSums, TrialFault>]) -> Result<SoakSums, TrialFault> {
    let mut sums = SoakSums::none();
    for one in rounds {
        match one {
            Ok(ring) => sums.add(ring),
            Err(fault) => return Err(*fault),
        }
    }
    Ok(sums)
}

// Prints the counts, which depend on the schedule.
fn tell<R: Eprint>(rt: &R, sums: &SoakSums) {
    for (word, number) in [
        ("made ", sums.made),
        (" refused ", sums.refused),
        (" submitted ", sums.submitted),
        (" discarded ", sums.discarded),
        (" chapters ", sums.chapters),
        (" bound ", sums.bound),
    ] {
        let _ = eprint!(rt; "{word}{number}");
    }
    let _ = eprintln!(rt; "");
}
