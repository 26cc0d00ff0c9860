//! Runs that are refused, with an existing tape file.

use crate::endings::ended;
use crate::expected::same_of;
use rb_command_line::Host;
use std::fs;
use std::fs::File;
use std::io::Eprint;
use std::process::Abort;
use std::rt::Files;
use std::sync::Wait;
use std::thread::Threads;
use std::time::Clock;

// Outputs the first eight bytes of its context (examples/output_context.hex).
const OUTPUT_CONTEXT: &[u8] = b"bf12000000000000 1851000000000000 0000000000000000
    b703000008000000 b704000000000000 8500000082000000 9500000000000000";

// Returns the result of the command over this program, with the ring's size and start and the number of workers, and a
// tape in this file.
fn refused_with<
    T: Abort + AllocGlobal + Threads + Wait + Sync + Files<File = File> + Clock + Eprint + Host,
>(rt: &T, path: &str, ring: [&str; 3], program: &[u8]) -> String {
    let words = [
        "run",
        "--jobs",
        "3",
        "--size",
        ring[0],
        "--start",
        ring[1],
        "--workers",
        ring[2],
        "--tape",
        path,
    ];
    ended(rt, rt.alloc(), &words, program)
}

const KEPT: &[u8] = b"what was there";

#[test]
// Each refusal of the program and the ring comes before the file is touched: an existing file does not change.
fn a_refused_run_leaves_the_file_that_is_there(rt: HostRuntime) {
    let path = "kept_by_refused_runs";
    let fine = ["4096", "8", "1"];
    let rows: [([&str; 3], &[u8], &str); 7] = [
        (fine, b"\xff", "1 refused text\n"),
        (fine, b"95", "1 refused decode Length unit 0\n"),
        (
            fine,
            b"b700000000000000",
            "1 refused shape FallsOff unit 0\n",
        ),
        (fine, b"9500000000000000", "1 refused verify V1 unit 0\n"),
        (["5000", "8", "1"], OUTPUT_CONTEXT, "1 refused size\n"),
        (["4096", "9", "1"], OUTPUT_CONTEXT, "1 refused start\n"),
        (["4096", "8", "0"], OUTPUT_CONTEXT, "1 refused workers\n"),
    ];
    for (ring, program, wanted) in rows {
        fs::write(&rt, path, KEPT).ok().expect(&rt, "a file");
        let ending = refused_with(&rt, path, ring, program);
        let left = fs::read(&rt, path).ok().expect(&rt, "a file");
        let kept = left.as_slice() == KEPT;
        same_of(&rt, &(ending.as_str(), kept), &(wanted, true), &wanted);
    }
    let _ = fs::remove_file(&rt, path);
}
