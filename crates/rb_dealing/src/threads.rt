//! The threads of the reader and the lanes.

ghost use Rattle.std.specs.Prelude.{◌≡◌, ◌<◌, ℕ, [], All, length, slice_index_or};
ghost use Rattle.rtrb.specs.Ring.{sent, received};
ghost use Rattle.rb_dealing.specs.Streams.{IsEndOf, RunsStream};
ghost use Rattle.rb_dealing.specs.inner.Feeds.{DealsGiven, Fed};
ghost use Rattle.rb_dealing.specs.inner.Lanes.{LaneFinished, LaneRan};
ghost use Rattle.rb_dealing.specs.Queues.{AreEmptyQueues, AreFeedsOf};
ghost use Rattle.rb_dealing.specs.declared.lane.Lane.{Lane};

use crate::lane::{Lane, LaneFeed, wake_all};
use crate::reader::{DealEnd, Dealing, Dealt, Late, deal};
use crate::work::{Work, runs_compose};
use rb_source::Source;
use std::alloc::Global;
use std::sync::Wait;
use std::sync::atomic::{AtomicBool, AtomicU64, Ordering};
use std::thread;
use std::thread::{Threads, join_mut};

// Runs each lane in a separate thread, or on the calling thread if none can be started.
fn work_all<R: Threads + Wait + Sync, W: Work + Send>(
    rt: &R,
    ended: &AtomicBool,
    short: &AtomicBool,
    lanes: &mut [Lane<W>],
)
    requires ready { All (λ lane. W.ready lane.worker) lanes.old }
    ensures ran { (k : ℕ) (d : Lane _) → k < length lanes.old → LaneRan W.ready W.runs (slice_index_or lanes.old k d) (slice_index_or lanes.new k d) }
{
    let threads = lanes.len().max(1);
    let work = move |_: usize, lane: &mut Lane<W>|
        requires { W.ready lane.now.worker }
        ensures { LaneRan W.ready W.runs lane.entry.now lane.exit.now }
    { lane.work(rt, ended, short) };
    thread::for_each_mut(rt, lanes, threads, &work);
}

#[tactic(auto, using(std::proofs::lemmas::Grind::common_steps))]
// Runs what is left in the lanes' queues after the reader has ended.
fn finish_all<W: Work>(feeds: &mut [LaneFeed], lanes: &mut [Lane<W>])
    requires ready { All (λ lane. W.ready lane.worker) lanes.old }
    requires pairs { AreFeedsOf feeds.old lanes.old }
    ensures finished { (k : ℕ) (d : LaneFeed) (e : Lane _) → k < length lanes.old → LaneFinished W.ready W.runs (slice_index_or feeds.old k d) (slice_index_or lanes.old k e) (slice_index_or lanes.new k e) }
{
    for at in 0..lanes.len() {
        lanes[at].finish(&mut feeds[at]);
    }
}

#[tactic(auto, using(std::proofs::lemmas::Grind::common_steps))]
// Reads and deals in the calling thread, and runs the lanes in others. If no thread can be started, the lanes run last,
// because they end only after the reader has ended.
fn deal_and_work<R: Threads + Wait + Sync, I: Source + Send, W: Work + Send>(
    rt: &R,
    alloc: Global,
    source: &mut I,
    late: Late,
    feeds: &mut [LaneFeed],
    lanes: &mut [Lane<W>],
    dealing: &mut Dealing<'_>,
    end: &mut DealEnd,
)
    requires ready { All (λ lane. W.ready lane.worker) lanes.old }
    requires fresh { (dealing.old.contexts ≡ 0) × (dealing.old.dropped ≡ 0) }
    ensures dealt { DealsGiven I.gives source.old source.new feeds.old feeds.new dealing.old dealing.new }
    ensures end { IsEndOf I.is_over I.fails source.new end.new }
    ensures ran { (k : ℕ) (d : Lane _) → k < length lanes.old → LaneRan W.ready W.runs (slice_index_or lanes.old k d) (slice_index_or lanes.new k d) }
{
    let ended = AtomicBool::new(false);
    let short = AtomicBool::new(false);
    let is_ended = &ended;
    let is_short = &short;
    join_mut(
        rt,
        &mut ||
            requires { All (λ lane. W.ready lane.worker) lanes.now }
            ensures { (k : ℕ) (d : Lane _) → k < length lanes.entry.now → LaneRan W.ready W.runs (slice_index_or lanes.entry.now k d) (slice_index_or lanes.exit.now k d) }
        { work_all(rt, is_ended, is_short, lanes) },
        &mut ||
            requires { (dealing.now.contexts ≡ 0) × (dealing.now.dropped ≡ 0) }
            ensures { DealsGiven I.gives source.entry.now source.exit.now feeds.entry.now feeds.exit.now dealing.entry.now dealing.exit.now × IsEndOf I.is_over I.fails source.exit.now end.exit.now }
        {
            *end = deal(rt, alloc, source, late, feeds, is_short, dealing);
            is_ended.store(true, Ordering::SeqCst);
            wake_all(feeds);
        },
    );
}

#[tactic(auto, using(std::proofs::lemmas::Grind::common_steps))]
/// Deals the contexts of the source to the lanes, and runs them, with a thread for the reader and one for each lane.
/// Returns after the reader has ended and every lane has run what was dealt to it.
///
/// A piece goes to the next lane in turn whose queue has room. If none has, the reader waits or drops the piece,
/// according to `late`. The reader ends when the source ends or fails, when a piece can't be allocated, or when a
/// worker reports that it can't continue; what was dealt before is run.
///
/// The reader stores the number of dropped contexts in `dropped` whenever it has dropped a piece, so that other threads
/// can read it meanwhile. The value of an atomic is outside of the proofs, so no clause speaks of it: tests do.
///
/// If no thread can be started for the lanes, they run after the reader. With `Late::Block`, the reader then waits
/// forever if the source gives more pieces than their queues hold.
pub fn run_lanes<R: Threads + Wait + Sync, I: Source + Send, W: Work + Send>(
    rt: &R,
    alloc: Global,
    source: &mut I,
    late: Late,
    dropped: &AtomicU64,
    feeds: &mut [LaneFeed],
    lanes: &mut [Lane<W>],
) -> Dealt
    requires ready { All (λ lane. W.ready lane.worker) lanes.old }
    requires pairs { AreFeedsOf feeds.old lanes.old }
    requires empty { AreEmptyQueues feeds.old lanes.old }
    ensures stream { RunsStream I.gives W.ready W.runs source.old source.new lanes.old lanes.new result }
    ensures end { IsEndOf I.is_over I.fails source.new result.end }
{
    let mut dealing = Dealing {
        contexts: 0,
        dropped: 0,
        live_dropped: dropped,
        next: 0,
    };
    let mut end = DealEnd::Short;
    deal_and_work(
        rt,
        alloc,
        source,
        late,
        feeds,
        lanes,
        &mut dealing,
        &mut end,
    );
    finish_all(feeds, lanes);
    runs_compose::<W>();
    Dealt {
        contexts: dealing.contexts,
        dropped: dealing.dropped,
        end,
    }
}
