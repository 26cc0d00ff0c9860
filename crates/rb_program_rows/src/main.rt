//! Answers rows on programs: decoding, the shape of jumps, verification, arithmetic, single steps of the verifier,
//! runs, assembly, explanations, and command lines of `rbhost`. A row is a line of the input, and its answer is the
//! corresponding line of the output.
//!
//! `stdin` has the rows that the gate runs, and `stdout` their answers, which were worked out independently of the
//! code; `tools/trials rows program` draws more. A line that is empty or begins with `#` is repeated. `name WORD TEXT`
//! defines `{WORD}` as this text in the rows after it, and `repeat WORD COUNT TEXT` defines it as the text repeated this
//! often. `row.rt` has the other rows. A line that is none of them is answered with its number.
#![tactic(auto)]

mod answer_text;
mod arithmetic;
mod assembly;
mod bytes;
mod command_lines;
mod costs;
mod decoded;
mod explained;
mod fault;
mod forms;
mod names;
mod numbers;
mod row;
mod runs;
mod shapes;
mod state_changes;
mod states;
mod steps;
mod verified;
mod witness;

use answer_text::AnswerText;
use fault::ProgramRowsFault;
use names::Names;
use rb_command_line::Host;
use std::alloc::Global;
use std::fs::File;
use std::io::{self, Eprint, Read, Write};
use std::process::ExitCode;
use std::rt::Files;
use std::sync::Wait;
use std::thread::Threads;
use std::time::Clock;

fn main(rt: HostRuntime) -> ExitCode {
    match run(&rt, rt.alloc(), &mut rt.stdin(), &mut rt.stdout()) {
        Ok(()) => ExitCode::from(0),
        Err(fault) => {
            let _ = eprintln!(rt; "{fault}");
            ExitCode::from(1)
        }
    }
}

// Answers each line of the input.
fn run<R: Threads + Wait + Sync + Files<File = File> + Clock + Eprint + Host, I: Read, W: Write>(
    rt: &R,
    alloc: Global,
    input: &mut I,
    out: &mut W,
) -> Result<(), ProgramRowsFault> {
    let lines = io::read_to_string(alloc, input)?;
    let answers = answers_of(rt, alloc, lines.as_str());
    out.write_all(answers.as_str().as_bytes())?;
    out.flush()?;
    if answers.is_complete() {
        Ok(())
    } else {
        Err(ProgramRowsFault::Memory)
    }
}

fn answers_of<R: Threads + Wait + Sync + Files<File = File> + Clock + Eprint + Host>(
    rt: &R,
    alloc: Global,
    lines: &str,
) -> AnswerText {
    let mut answers = AnswerText::new(alloc);
    let mut names = Names::new(alloc);
    let mut number: u64 = 0;
    for line in lines.lines() {
        number = number.wrapping_add(1);
        answer_line(rt, alloc, &mut names, number, line, &mut answers);
    }
    answers
}

// Appends the answer to a line, unless it defines a name.
fn answer_line<R: Threads + Wait + Sync + Files<File = File> + Clock + Eprint + Host>(
    rt: &R,
    alloc: Global,
    names: &mut Names,
    number: u64,
    line: &str,
    answers: &mut AnswerText,
) {
    if line.is_empty() || line.starts_with('#') {
        answers.push(line);
        answers.push("\n");
    } else if !names.keep(alloc, line, answers) {
        let line = names.in_place(alloc, line);
        row::answer(rt, alloc, number, line.as_str(), answers);
        if !line.is_complete() {
            answers.lack();
        }
        answers.push("\n");
    }
}
