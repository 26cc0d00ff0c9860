//! Answers rows on rings. Each line of the input is a row, and is printed followed by the answers of the calls that it
//! names, as in `take a -> event pos 0 ..`. Lines that begin with `#` are printed unchanged. A script ends at an empty
//! line, which removes all names.
//!
//! A row has a verb, names, numbers, and, after a colon, bytes in hex, with runs of equal bytes as `2a*8`:
//!
//! ```text
//! open RING SIZE START WORKERS ROOM     opens a ring, which is two: one that keeps a chapter of its history at a time,
//!                                       and its twin, which keeps all of it in a list. Each call is made on both, and
//!                                       if their answers or states differ, the row says how
//! reserve RING RECORD WORKER LEN        passes a sheet full of ff; RECORD names what is granted
//! write RECORD AT : BYTES, or a sheet   submit RING RECORD FLAGS              discard RING RECORD FLAGS
//! output RING WORKER FLAGS : BYTES      take RING [N]                         query RING WHAT
//! counts RING                           written RING: the tape of all that was taken
//! share RING SIZE START WORKERS ROOM    opens a shared ring. A worker's call has its seat's worker before the last
//!                                       number, as `submit s r 0 FLAGS`; for another ring's seat, that ring follows
//!                                       the other names, as `take s t`
//! audit RING WORKER                     seat RING WORKER                      used RING
//! consumer RING                         fill RING N: a batch                  close RING: with all seats
//! close RING 1: with all but the last   close RING OTHER: with OTHER's seats  chapter NAME ROOM WORKERS
//! clear NAME                            after NAME EARLIER: opens NAME after EARLIER
//! meets NAME NEXT                       handout RING NAME: NAME is then the chapter that was handed out
//! bind RING NAME..                      keeper KEEPER NAME MARGIN             turn RING KEEPER
//! kept KEEPER NAME                      show NAME, opening NAME, closing NAME, entries NAME: of a chapter, or of the
//!                                       one that a ring keeps
//! sheet SHEET LEN                       renew SHEET LEN                       wipe SHEET
//! span LEN                              setup SIZE START WORKERS              notice CONSUMER POS FLAGS
//! encode LEN BUSY DISCARD PAGE          decode : BYTES                        tape SIZE START : BYTES, read as a whole
//!                                                                             and in pieces
//! ```
//!
//! A row that is none of these, or that has an unknown name, is answered by `fault:` and the reason, and changes
//! nothing.
#![tactic(auto)]

mod answers;
mod chapter_rows;
mod closing_rows;
mod consumer_calls;
mod fault;
mod row;
mod script;
mod shared_answers;
mod shared_rings;
mod shared_rows;
mod sheet_rows;
mod sheets;
mod tape_rows;
mod text;
mod twin_calls;
mod twin_rings;
mod value_rows;

use fault::RingRowsFault;
use script::RowScript;
use std::alloc::Global;
use std::io::{self, Read, Write};
use std::process::ExitCode;
use std::sync::Wait;
use text::Text;

fn main(rt: HostRuntime) -> ExitCode {
    match run(&rt, rt.alloc(), &mut rt.stdin(), &mut rt.stdout()) {
        Ok(()) => ExitCode::from(0),
        Err(fault) => {
            let _ = eprintln!(rt; "{fault}");
            ExitCode::from(1)
        }
    }
}

// Answers all rows of the input.
fn run<T: Wait, R: Read, W: Write>(
    rt: &T,
    alloc: Global,
    input: &mut R,
    out: &mut W,
) -> Result<(), RingRowsFault> {
    let bytes = read(alloc, input)?;
    let answers = answers_of(rt, alloc, bytes.as_slice());
    out.write_all(answers.as_str().as_bytes())?;
    out.flush()?;
    if answers.is_complete() {
        Ok(())
    } else {
        Err(RingRowsFault::Memory)
    }
}

fn read<R: Read>(alloc: Global, input: &mut R) -> io::Result<Vec<u8>> {
    let mut bytes = Vec::new(alloc);
    input.read_to_end(&mut bytes)?;
    Ok(bytes)
}

fn answers_of<T: Wait>(rt: &T, alloc: Global, bytes: &[u8]) -> Text {
    let mut answers = Text::new(alloc);
    let mut script = RowScript::new(alloc);
    let lines = bytes.strip_suffix(b"\n").unwrap_or(bytes);
    for line in lines.split(|byte| *byte == b'\n') {
        answer_line(rt, &mut script, line, &mut answers);
    }
    drop(script);
    answers
}

// Repeats a line, followed by its answer if it is a row.
fn answer_line<T: Wait>(rt: &T, script: &mut RowScript, line: &[u8], answers: &mut Text) {
    let line = str::from_utf8(line).unwrap_or("fault: no text");
    answers.push(line);
    if line.is_empty() {
        script.clear();
    } else if !line.starts_with('#') {
        answers.push(" ->");
        let answer = script.answer(rt, line);
        answers.add(&answer);
    }
    answers.push("\n");
}
