//! Dealing contexts to workers, through the public interface alone.

ghost use Rattle.std.specs.Prelude.{◌≡◌, ℕ, All, length};

use super::given::same;
use rb_dealing::{DealEnd, Dealt, Lane, LaneFeed, Late, Work, add_lane, run_lanes};
use rb_source::{ListSource, Piece};
use std::alloc::Global;
use std::process::Abort;
use std::sync::Wait;
use std::sync::atomic::{AtomicU64, Ordering};
use std::thread;
use std::thread::Threads;

// A worker that adds up the numbers of its contexts, which are their first two bytes, and checks that each is greater
// than the previous one.
#[derive(Drop)]
struct Adder {
    contexts: u64,
    sum: u64,
    last: u64,
    wrong: u64,
    // How often it yields for each piece.
    pause: u32,
    // The number of contexts after which it can't continue.
    most: u64,
}

impl Work for Adder {
    ghost ready = { λ _. Unit {0} };

    ghost runs = { λ _ _ _. Unit {0} };

    ghost runs_none = { λ _. tt };

    ghost runs_both = { λ _ _ _ _ _ _ _. tt };

    fn run(&mut self, piece: &Piece) {
        for at in 0..piece.len() {
            self.add(piece.get(at));
        }
        for _ in 0..self.pause {
            thread::yield_now();
        }
    }

    fn is_short(&self) -> bool {
        self.contexts >= self.most
    }
}

impl Adder {
    // Adds a context.
    fn add(&mut self, context: &[u8]) {
        let mut number = 0;
        if context.len() == 4 {
            number = u64::from(context[0]) + 256 * u64::from(context[1]);
        }
        if number <= self.last {
            self.wrong = self.wrong.saturating_add(1);
        }
        self.last = number;
        self.sum = self.sum.saturating_add(number);
        self.contexts = self.contexts.saturating_add(1);
    }
}

// Returns contexts of four bytes, numbered from 1.
fn contexts<A: Abort>(rt: &A, alloc: Global, count: u32) -> Vec<Vec<u8>>
    ensures { All (λ c. length c.items ≡ 4) result.items }
{
    let mut all = Vec::new(alloc);
    for n in 0..count {
        let low = ((n + 1) % 256) as u8;
        let high = ((n + 1) / 256 % 256) as u8;
        let one = vec![in alloc; low, high, 0, 0].expect(rt, "memory");
        all.push(one).expect(rt, "memory");
    }
    all
}

// The result of dealing contexts: the reader's counts, the workers' sums, and how many contexts came out of order.
#[derive(Clone, Copy, Debug, PartialEq, Eq)]
struct Came {
    dealt: Dealt,
    // How many dropped contexts were reported to other threads.
    live_dropped: u64,
    contexts: u64,
    sum: u64,
    wrong: u64,
    busiest: u64,
}

// Deals `count` contexts to workers that yield `pause` times for each piece.
fn deal_to<R: Threads + Wait + Sync + Abort>(
    rt: &R,
    alloc: Global,
    count: u32,
    pauses: &[u32],
    most: u64,
    late: Late,
) -> Came {
    let all = contexts(rt, alloc, count);
    let mut source = ListSource::new(&all, 4);
    let mut feeds: Vec<LaneFeed> = Vec::new(alloc);
    let mut lanes: Vec<Lane<Adder>> = Vec::new(alloc);
    for pause in pauses {
        let adder = Adder {
            contexts: 0,
            sum: 0,
            last: 0,
            wrong: 0,
            pause: *pause,
            most,
        };
        add_lane(alloc, adder, &mut feeds, &mut lanes).expect(rt, "memory");
    }
    let dropped = AtomicU64::new(0);
    let dealt = run_lanes(
        rt,
        alloc,
        &mut source,
        late,
        &dropped,
        feeds.as_mut_slice(),
        lanes.as_mut_slice(),
    );
    let mut came = Came {
        dealt,
        live_dropped: dropped.load(Ordering::SeqCst),
        contexts: 0,
        sum: 0,
        wrong: 0,
        busiest: 0,
    };
    for lane in &lanes {
        let adder = &lane.worker;
        came.contexts = came.contexts.saturating_add(adder.contexts);
        came.sum = came.sum.saturating_add(adder.sum);
        came.wrong = came.wrong.saturating_add(adder.wrong);
        came.busiest = came.busiest.max(adder.contexts);
    }
    came
}

#[test]
fn each_context_is_run_once_and_in_order(rt: HostRuntime) {
    for pauses in &[
        [0; 1].as_slice(),
        [0; 3].as_slice(),
        [0, 100, 0, 0].as_slice(),
    ] {
        let came = deal_to(&rt, rt.alloc(), 60_000, pauses, u64::MAX, Late::Block);
        same(
            &rt,
            &(came.dealt.contexts, came.dealt.dropped, came.dealt.end),
            &(60_000, 0, DealEnd::Over),
        );
        same(
            &rt,
            &(came.contexts, came.sum, came.wrong),
            &(60_000, 1_800_030_000, 0),
        );
    }
}

#[test]
fn no_context_at_all(rt: HostRuntime) {
    let came = deal_to(&rt, rt.alloc(), 0, &[0, 0], u64::MAX, Late::Drop);
    same(
        &rt,
        &(came.dealt.contexts, came.contexts, came.dealt.end),
        &(0, 0, DealEnd::Over),
    );
}

#[test]
fn a_worker_that_cannot_go_on_stops_the_reader(rt: HostRuntime) {
    let came = deal_to(&rt, rt.alloc(), 60_000, &[0], 0, Late::Block);
    let Came {
        dealt,
        contexts,
        ..
    } = came;
    same(&rt, &(dealt.contexts, dealt.dropped), &(contexts, 0));
}

#[test]
fn without_workers_every_context_is_dropped(rt: HostRuntime) {
    let came = deal_to(&rt, rt.alloc(), 1_000, &[], u64::MAX, Late::Drop);
    same(
        &rt,
        &(
            came.dealt.contexts,
            came.dealt.dropped,
            came.live_dropped,
            came.dealt.end,
        ),
        &(1_000, 1_000, 1_000, DealEnd::Over),
    );
}
