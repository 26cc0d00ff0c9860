//! A host for eBPF programs that write to BPF ring buffers, as a program with nine commands.
//!
//! - `feed` puts payloads through a ring, and writes the bytes that a reader of the kernel's ring buffer maps
//!   (ringbuf.rst), as a *tape*: a file of records.
//! - `tape` reads a tape and prints its records.
//! - `check` decodes and verifies a program (RFC 9669), runs it once over fresh rings, and prints the records that it
//!   left.
//! - `explain` prints what the verifier knows before each instruction of an accepted program, followed by the most that
//!   the program can cost, or why a program is refused.
//! - `cost` prints the most that an accepted program can cost.
//! - `run` runs a verified program as jobs of workers, on threads and over one ring, and prints the counts of each
//!   worker. On request, it writes the records that the ring's consumer took to a file as a tape.
//! - `sim` runs a script of workers and rings in turns, without threads.
//! - `stream` runs verified programs on contexts as they arrive, and writes the records of each ring as a tape, also in
//!   segments.
//! - `follow` prints the records of a ring's segments, also while they are written.
//!
//! The contracts are those of the public calls of the crates below:
//!
//! - `command` and `execute` (rb_command_line): which exit statuses there are, and what a command has done that ends with
//!   status 0.
//! - `feed` and `tape` (rb_tape_commands): what was read and written, by their results.
//! - `explain` and `cost` (rb_loader): what was explained, and that a cost is exact.
//! - `check` and `run` (rb_run_commands): that what is printed is what the rings handed out.
//! - `serve` (rb_service): that every program ran on each context that was not dropped, and what each ring's output
//!   received.
//! - `sim` (rb_script): that its lines are those of a world's turns.
#![tactic(auto)]

use rb_command_line::{NotedReader, NotedWriter, Terminals, command};
use std::io::IsTerminal;
use std::process::ExitCode;
use std::{env, io};

fn main(rt: HostRuntime) -> ExitCode {
    let words = match words(&rt) {
        Ok(words) => words,
        Err(error) => return print_unreadable(&rt, &error),
    };
    let (out, mut err) = (rt.stdout(), rt.stderr());
    let terminals = Terminals {
        out: out.is_terminal(),
        err: err.is_terminal(),
    };
    ExitCode::from(command(
        &rt,
        rt.alloc(),
        words.as_slice(),
        terminals,
        &mut NotedReader::new(rt.stdin()),
        &mut NotedWriter::new(out),
        &mut err,
    ))
}

// Returns the words of the command line that follow the program's name.
fn words(rt: &HostRuntime) -> io::Result<Vec<String>> {
    let mut words = env::args(rt)?;
    let _ = words.next();
    Ok(words.collect(rt.alloc())?)
}

// Prints why the words can't be read, and returns the status: 1 if memory can't be allocated, and 2 (wrong usage) if
// they are not text.
fn print_unreadable(rt: &HostRuntime, error: &io::Error) -> ExitCode {
    let (line, status) = match error.kind() {
        io::ErrorKind::OutOfMemory => ("refused memory", 1),
        _ => ("error: the arguments are no text", 2),
    };
    let _ = rt.eprintln(line);
    ExitCode::from(status)
}
