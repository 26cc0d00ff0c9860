//! Trials of the library that are not tests: every order of turns (`orders`), real threads over several rings (`soak`),
//! calls whose allocations fail (`sweep`), and a benchmark (`bench`). `tools/trials` and `tools/bench` run one each.
//!
//! The arguments are a trial's name and the trial's arguments, with `--` between two trials. The exit status is 0 if
//! each trial succeeded, 2 for wrong arguments, and 1 otherwise; after a trial that failed no other is run.
#![tactic(auto)]

mod bench;
mod fault;
mod fields;
mod numbers;
mod orders;
mod ring_lists;
mod soak;
mod sweep;
mod verified_programs;

use fault::TrialFault;
use std::alloc::Global;
use std::io::{Eprint, Print, Write};
use std::process::ExitCode;
use std::sync::Wait;
use std::thread::Threads;
use std::time::Clock;
use std::{env, io};

fn main(rt: HostRuntime) -> ExitCode {
    let done = match words(&rt) {
        Ok(words) => run_all(&rt, rt.alloc(), words.as_slice(), &mut rt.stdout()),
        Err(fault) => Err(fault),
    };
    match done {
        Ok(()) => ExitCode::from(0),
        Err(fault) => {
            let _ = eprintln!(rt; "{fault}");
            ExitCode::from(fault.status())
        }
    }
}

// Runs the trials one after the other.
fn run_all<R: Threads + Wait + Sync + Print + Eprint + Clock, W: Write>(
    rt: &R,
    alloc: Global,
    words: &[String],
    out: &mut W,
) -> Result<(), TrialFault> {
    for trial in words.split(|word| word.as_str() == "--") {
        run(rt, alloc, trial, out)?;
    }
    Ok(())
}

// Runs one trial.
fn run<R: Threads + Wait + Sync + Print + Eprint + Clock, W: Write>(
    rt: &R,
    alloc: Global,
    words: &[String],
    out: &mut W,
) -> Result<(), TrialFault> {
    let [name, words @ ..] = words else {
        return Err(TrialFault::Usage);
    };
    match name.as_str() {
        "orders" => orders::run(alloc, words, out),
        "soak" => soak::run(rt, alloc, words),
        "sweep" => sweep::run(rt, alloc, words),
        "bench" => bench::run(rt, alloc, words, out),
        _ => Err(TrialFault::Usage),
    }
}

// Returns the arguments of the command line. If an allocation fails, reads them once more.
fn words(rt: &HostRuntime) -> Result<Vec<String>, TrialFault> {
    for _ in 0..sweep::TRIES {
        match read_words(rt) {
            Ok(words) => return Ok(words),
            Err(_) => sweep::tell_memory(rt, "words"),
        }
    }
    Err(TrialFault::Twice("words"))
}

// Returns the arguments after the program's name.
fn read_words(rt: &HostRuntime) -> io::Result<Vec<String>> {
    let mut given = env::args(rt)?;
    let _ = given.next();
    let mut words = Vec::new(rt.alloc());
    for word in given {
        words.push(word)?;
    }
    Ok(words)
}
