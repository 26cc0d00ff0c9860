//! Tests of services.

ghost use Rattle.std.specs.Prelude.{◌≡◌, All};

use super::given::{EventSum, OUTPUT_CONTEXT, contexts, nothing_live, same, verified};
use rb_service::{Full, RingPlan, ServiceRequest, counters_text, serve};
use rb_source::{ContextCounts, ListSource};
use rb_stream::{Late, StreamReport};
use std::alloc::Global;
use std::process::Abort;
use std::sync::Wait;
use std::thread::Threads;

// Returns the plan of a ring of 4,096 bytes.
fn one_plan<A: Abort>(rt: &A, alloc: Global) -> Vec<RingPlan<EventSum>>
    ensures { All (λ p. p.sink.position ≡ 0) result.items }
{
    let plan = RingPlan {
        size: 4_096,
        sink: EventSum::new(0),
    };
    vec![in alloc; plan].expect(rt, "memory")
}

// Returns the report of a service over three contexts, each of which gives an event.
fn three_events<R: Threads + Wait + Sync + Abort>(rt: &R, alloc: Global) -> StreamReport<EventSum> {
    let program = verified(rt, alloc, OUTPUT_CONTEXT, 16, 1);
    let programs = vec![in alloc; program].expect(rt, "memory");
    let all = contexts(rt, alloc, 3);
    let mut source = ListSource::new(&all, 16);
    let plans = one_plan(rt, alloc);
    let request = ServiceRequest {
        workers: 1,
        late: Late::Block,
        full: Full::Wait,
        results: 16,
    };
    let live = nothing_live(rt, alloc);
    match serve(rt, alloc, &programs, &mut source, plans, request, &live) {
        Ok(report) => report,
        Err(_) => rt.panic("no report"),
    }
}

#[test]
fn counters_of_a_service_are_printed(rt: HostRuntime) {
    let report = three_events(&rt, rt.alloc());
    if report.rings.len() != 1 {
        rt.panic("not one ring");
    }
    match counters_text(rt.alloc(), &report, ContextCounts::default(), &["events"]) {
        Ok(text) => same(
            &rt,
            &text.as_str(),
            &"contexts read 3 run 3 dropped 0 skipped 0 cut 0\nprogram 0 result 0 runs 3\nring events made 3 refused 0 consumed 3 discarded 0 waiting 0 busy 0\nunlogged 0\n",
        ),
        Err(_) => rt.panic("memory"),
    }
}
