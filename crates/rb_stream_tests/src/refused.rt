//! Tests of streams that are refused.

ghost use Rattle.std.specs.Prelude.{◌≡◌, ◌≤◌};

use super::given::{
    FIRST_BYTE, OUTPUT_TO_SECOND, contexts, counted_live, nothing_live, same, two_rings, verified,
};
use rb_source::ListSource;
use rb_stream::{Late, StreamFault, run_stream};
use rb_verifier::Verified;
use rb_workers::Opened;
use std::alloc::Global;
use std::process::Abort;
use std::sync::Wait;
use std::thread::Threads;

// Returns why a stream of three contexts of 16 bytes over two rings, or over none, is refused, and how many rings are
// returned.
fn refusal<R: Threads + Wait + Sync + Abort>(
    rt: &R,
    alloc: Global,
    program: Verified,
    has_rings: bool,
) -> (StreamFault, usize) {
    let all = contexts(rt, alloc, 3);
    let mut source = ListSource::new(&all, 16);
    let mut rings = Vec::new(alloc);
    if has_rings {
        rings = two_rings(rt, alloc, 4_096, 2, 0);
    }
    let programs = vec![in alloc; program].expect(rt, "memory");
    let live = nothing_live(rt, alloc);
    let options = counted_live(&live);
    match run_stream(
        rt,
        alloc,
        rings,
        &programs,
        &mut source,
        Late::Block,
        options,
    ) {
        Ok(_) => rt.panic("a report"),
        Err(stop) => (stop.fault, stop.opened.len()),
    }
}

#[test]
fn a_stream_that_does_not_fit_is_refused(rt: HostRuntime) {
    let alloc = rt.alloc();
    let three = verified(&rt, alloc, OUTPUT_TO_SECOND, 8, 3);
    same(
        &rt,
        &refusal(&rt, alloc, three, true),
        &(StreamFault::UnknownRing, 2),
    );
    let short = verified(&rt, alloc, OUTPUT_TO_SECOND, 8, 2);
    same(
        &rt,
        &refusal(&rt, alloc, short, true),
        &(StreamFault::ContextLength, 2),
    );
    let fits = verified(&rt, alloc, FIRST_BYTE, 16, 0);
    same(
        &rt,
        &refusal(&rt, alloc, fits, false),
        &(StreamFault::NoWorker, 0),
    );
}
