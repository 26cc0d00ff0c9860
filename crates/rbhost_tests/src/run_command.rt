//! The command `run` with more than one possible result.

use crate::endings::{ended, number};
use crate::expected::{same, same_of};
use std::alloc::Global;
use std::process::Abort;

// Reserves a record of eight bytes, and submits 42 if it was granted.
const SUBMIT_42: &str = "1851000000000000 0000000000000000
    b702000008000000 b703000000000000 8500000083000000
    1500040000000000 7a0000002a000000 bf01000000000000 b702000000000000 8500000084000000
    b700000000000000 9500000000000000";

// Returns the number of records made by the line of this worker, if all of the worker's hundred jobs were granted or
// refused a record each and submitted the granted ones; otherwise the greatest number.
fn made_by(line: &str, worker: u64) -> u64 {
    let made = number(line, 3);
    let is_its_own = number(line, 1) == worker;
    let is_all = made.saturating_add(number(line, 5)) == 100;
    let is_submitted = number(line, 7) == made && number(line, 9) == 0;
    if is_its_own && is_all && is_submitted {
        made
    } else {
        u64::MAX
    }
}

// Returns the number of records made by the first four lines together, and the number of these lines.
fn made_by_all(text: &str) -> (u64, u64) {
    let mut all = 0u64;
    let mut workers = 0u64;
    for line in text.lines().take(4) {
        all = all.saturating_add(made_by(line.trim_start_matches("0 "), workers));
        workers = workers.saturating_add(1);
    }
    (all, workers)
}

// Returns the last lines of a run that consumed all records.
fn end_of(rt: &impl Abort, alloc: Global, all: u64) -> String {
    let text = format!(in alloc;
        "ring made {all} consumed {all} discarded 0 waiting 0 busy 0\nstrays 0\n"
    );
    text.expect(rt, "memory")
}

#[test]
fn four_workers_submit_what_they_were_granted(rt: HostRuntime) {
    let words = ["run", "--workers", "4", "--jobs", "100", "--size", "4096"];
    let text = ended(&rt, rt.alloc(), &words, SUBMIT_42.as_bytes());
    let (all, workers) = made_by_all(text.as_str());
    same(&rt, &(workers, text.as_str().lines().count()), &(4, 6));
    let end = end_of(&rt, rt.alloc(), all);
    let ends_so = text.as_str().ends_with(end.as_str());
    same_of(&rt, &ends_so, &true, &text.as_str());
}
