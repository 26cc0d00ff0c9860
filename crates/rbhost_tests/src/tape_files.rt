//! What `run` reports of a tape's file: to its watch while it is written, and what failed there.

use crate::expected::same;
use rb_json::LineForm;
use rb_run_commands::{JobsFault, JobsRequest, TapeFile, TapeFileFault, TapeWatch, run};
use rb_workers::Gate;
use std::fs;
use std::fs::File;
use std::rt::Files;
use std::sync::Wait;
use std::sync::atomic::{AtomicU64, Ordering};
use std::thread::Threads;

// Outputs the first eight bytes of its context (examples/output_context.hex).
const OUTPUT_CONTEXT: &str = "bf12000000000000 1851000000000000 0000000000000000
    b703000008000000 b704000000000000 8500000082000000 9500000000000000";

const SIZE: u64 = 8_192;

const START: u64 = 4_096;

/// Keeps the last position up to which a tape was written, and counts the reports for another size.
#[derive(Drop)]
struct LastPosition {
    position: AtomicU64,
    others: AtomicU64,
}

impl LastPosition {
    fn new() -> LastPosition {
        LastPosition {
            position: AtomicU64::new(0),
            others: AtomicU64::new(0),
        }
    }
}

impl Gate for LastPosition {
    fn pass(&self, _worker: u32, _call: u64) {}
}

impl TapeWatch for LastPosition {
    fn written_out(&self, position: u64, size: u64, _caught_up: bool) {
        self.position.store(position, Ordering::SeqCst);
        if size != SIZE {
            self.others.fetch_add(1, Ordering::SeqCst);
        }
    }
}

// Runs three jobs of a worker with a tape in this file.
fn run_three<T: AllocGlobal + Threads + Wait + Sync + Files<File = File>>(
    rt: &T,
    file: &mut TapeFile<'_>,
    watch: &LastPosition,
) -> Result<(), JobsFault> {
    let request = JobsRequest {
        workers: 1,
        jobs: 3,
        size: SIZE,
        start: START,
        form: LineForm::Words,
    };
    let mut input = OUTPUT_CONTEXT.as_bytes();
    let mut out = Vec::new(rt.alloc());
    let mut told = Vec::new(rt.alloc());
    run(
        rt,
        rt.alloc(),
        &mut input,
        &mut out,
        &mut told,
        request,
        file,
        watch,
    )
}

#[test]
// Each of the three records takes sixteen bytes.
fn the_watch_is_told_the_position_of_the_tape(rt: HostRuntime) {
    let path = "a_tape_that_is_watched";
    let mut file = TapeFile {
        path: Some(path),
        fault: None,
    };
    let watch = LastPosition::new();
    let is_run = run_three(&rt, &mut file, &watch).is_ok();
    let told = (
        watch.position.load(Ordering::SeqCst),
        watch.others.load(Ordering::SeqCst),
    );
    same(&rt, &(is_run, told), &(true, (START + 48, 0)));
    let left = fs::read(&rt, path).ok().expect(&rt, "a file");
    same(&rt, &left.len(), &48);
    let _ = fs::remove_file(&rt, path);
}

#[test]
fn the_error_of_a_file_is_kept(rt: HostRuntime) {
    let mut full = TapeFile {
        path: Some("/dev/full"),
        fault: None,
    };
    let mut missing = TapeFile {
        path: Some("/dev/null/tape"),
        fault: None,
    };
    let watch = LastPosition::new();
    let runs = [
        run_three(&rt, &mut full, &watch).is_ok(),
        run_three(&rt, &mut missing, &watch).is_ok(),
    ];
    same(&rt, &runs, &[false, false]);
    let is_writing = matches!(full.fault, Some(TapeFileFault::Writing(Some(_))));
    let is_opening = matches!(missing.fault, Some(TapeFileFault::Opening(_)));
    same(&rt, &(is_writing, is_opening), &(true, true));
}
