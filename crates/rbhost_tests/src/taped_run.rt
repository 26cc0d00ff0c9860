//! Runs whose records are written as a tape.

use crate::endings::{ended, number};
use crate::expected::{same, same_of};
use crate::fakes::{FakeWriter, Trouble};
use rb_command_line::Host;
use rb_json::LineForm;
use rb_run_commands::{JobsRequest, PlannedRun, WrittenTape, finish_tape};
use rb_workers::OpenGate;
use std::fs::File;
use std::io::{Eprint, ErrorKind};
use std::process::Abort;
use std::rt::Files;
use std::sync::Wait;
use std::thread::Threads;
use std::time::Clock;

// Outputs the first eight bytes of its context (examples/output_context.hex).
const OUTPUT_CONTEXT: &str = "bf12000000000000 1851000000000000 0000000000000000
    b703000008000000 b704000000000000 8500000082000000 9500000000000000";

// Returns what a run with these workers and jobs prints while its tape goes to this writer, and the tape. There is room
// for each record, so nothing else is reported.
fn run_over<
    T: Abort + AllocGlobal + Threads + Wait + Sync + Files<File = File> + Clock + Eprint + Host,
>(
    rt: &T,
    workers: u64,
    jobs: u32,
    size: u64,
    tape: FakeWriter,
) -> (String, WrittenTape<FakeWriter>) {
    let request = JobsRequest {
        workers,
        jobs,
        size,
        start: 8,
        form: LineForm::Words,
    };
    let mut text = OUTPUT_CONTEXT.as_bytes();
    let Ok(planned) = PlannedRun::read(rt.alloc(), &mut text, request) else {
        rt.panic("refused");
    };
    let mut out = Vec::new(rt.alloc());
    let mut told = Vec::new(rt.alloc());
    let sink = planned.tape_sink(tape, &OpenGate);
    let ran = planned.run(rt, rt.alloc(), &mut out, &mut told, sink, &OpenGate);
    let Ok(report) = ran else {
        rt.panic("no report");
    };
    let written = finish_tape(report);
    same(rt, &told.as_slice(), &b"".as_slice());
    let printed = String::from_utf8(out).ok().expect(rt, "text");
    (printed, written)
}

// Returns how many of a tape's lines are records of eight bytes with this worker's number.
fn records_of(rt: &(impl Abort + AllocGlobal), lines: &str, worker: u64) -> u64 {
    let end = format!(in rt.alloc(); " len 8 0{worker}00000000000000").expect(rt, "memory");
    let mut count = 0u64;
    for line in lines.lines() {
        if line.ends_with(end.as_str()) {
            count = count.saturating_add(1);
        }
    }
    count
}

// Returns how many records of four workers are on the tape, each as often as its worker's line says.
fn counted_on_tape(rt: &(impl Abort + AllocGlobal), printed: &str, lines: &str) -> u64 {
    let mut counted = 0u64;
    for (worker, line) in printed.lines().take(4).enumerate() {
        let records = records_of(rt, lines, worker as u64);
        same_of(rt, &records, &number(line, 7), &worker);
        counted = counted.saturating_add(records);
    }
    counted
}

#[test]
fn each_record_that_was_taken_is_on_the_tape(rt: HostRuntime) {
    let (printed, written) = run_over(&rt, 4, 1000, 65_536, FakeWriter::open(rt.alloc()));
    let words = ["tape", "--size", "65536", "--start", "8"];
    let lines = ended(&rt, rt.alloc(), &words, written.writer.taken.as_slice());
    let counted = counted_on_tape(&rt, printed.as_str(), lines.as_str());
    let ring = number(printed.as_str().lines().nth(4).unwrap_or(""), 4);
    let all = lines.as_str().lines().count() as u64;
    same(&rt, &(written.is_whole, counted, all), &(true, ring, ring));
}

// The tape of three records of worker 0.
const THREE: [u8; 48] = [
    8, 0, 0, 0, 0, 0, 0, 0, 0, 0, 0, 0, 0, 0, 0, 0, //
    8, 0, 0, 0, 0, 0, 0, 0, 0, 0, 0, 0, 0, 0, 0, 0, //
    8, 0, 0, 0, 0, 0, 0, 0, 0, 0, 0, 0, 0, 0, 0, 0, //
];

const THREE_PRINTED: &str = "worker 0 made 3 refused 0 submitted 3 discarded 0
ring made 3 consumed 3 discarded 0 waiting 0 busy 0
strays 0
";

#[test]
// Wherever a write fails, the tape ends there, and the run continues.
fn writes_that_fail(rt: HostRuntime) {
    for trouble in &[
        Trouble::TakesNothing,
        Trouble::Fails(ErrorKind::StorageFull),
    ] {
        for room in 0..49usize {
            let tape = FakeWriter::new(rt.alloc(), room, 3, *trouble);
            let (printed, written) = run_over(&rt, 1, 3, 4096, tape);
            same_of(
                &rt,
                &(
                    printed.as_str(),
                    written.is_whole,
                    written.writer.taken.as_slice(),
                ),
                &(THREE_PRINTED, room == 48, &THREE[..room]),
                &room,
            );
        }
    }
}

#[test]
fn a_flush_that_fails(rt: HostRuntime) {
    let mut tape = FakeWriter::open(rt.alloc());
    tape.flush_fails = true;
    let (printed, written) = run_over(&rt, 1, 3, 4096, tape);
    same(
        &rt,
        &(printed.as_str(), written.is_whole),
        &(THREE_PRINTED, false),
    );
}

// Returns the result of the command with a tape in this file and these workers.
fn taped<
    T: Abort + AllocGlobal + Threads + Wait + Sync + Files<File = File> + Clock + Eprint + Host,
>(rt: &T, path: &str, workers: &str, program: &str) -> String {
    let words = [
        "run",
        "--jobs",
        "3",
        "--size",
        "4096",
        "--workers",
        workers,
        "--tape",
        path,
    ];
    ended(rt, rt.alloc(), &words, program.as_bytes())
}

// Returns what the run of three records prints, after this text.
fn before_three(rt: &(impl Abort + AllocGlobal), head: &str) -> String {
    format!(in rt.alloc(); "{head}{THREE_PRINTED}").expect(rt, "memory")
}

// Ends the test unless the command with a tape in this file had this result.
fn is_told(rt: &impl Abort, ending: &String, wanted: &str, path: &str) {
    assert_eq!(rt; ending.as_str(), wanted, "of {path}");
}

#[test]
// A file that can't be created is reported after the refusals of the program and the ring, and before anything is
// printed; one that can't be written is reported after what is printed.
fn files_of_tapes(rt: HostRuntime) {
    let whole = before_three(&rt, "0 ");
    let not_whole = before_three(&rt, "1 refused device\n");
    let rows = [
        ("/dev/null", "1", OUTPUT_CONTEXT, whole.as_str()),
        ("/dev/full", "1", OUTPUT_CONTEXT, not_whole.as_str()),
        ("", "1", OUTPUT_CONTEXT, "1 refused device\n"),
        ("/dev/null/tape", "1", OUTPUT_CONTEXT, "1 refused device\n"),
        ("", "0", OUTPUT_CONTEXT, "1 refused workers\n"),
        ("", "0", "95", "1 refused decode Length unit 0\n"),
    ];
    for (path, workers, program, wanted) in rows {
        let ending = taped(&rt, path, workers, program);
        is_told(&rt, &ending, wanted, path);
    }
}
