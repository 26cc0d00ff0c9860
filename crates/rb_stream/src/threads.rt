//! The threads of the reader, the workers and the consumers.

ghost use Rattle.std.specs.Prelude.{All};
ghost use Rattle.std.specs.List.{AllZip};
ghost use Rattle.rb_dealing.specs.Queues.{AreEmptyQueues, AreFeedsOf};
ghost use Rattle.rb_dealing.specs.Streams.{IsEndOf, RunsStream};
ghost use Rattle.rb_workers.specs.inner.ConsumerTasks.{Consumed, IsConsumerTaskOf};

use crossbeam_queue::ArrayQueue;
use rb_dealing::{Dealt, Lane, LaneFeed, Late, Work, run_lanes};
use rb_lend::Sheet;
use rb_shared_ring::SharedRing;
use rb_source::Source;
use rb_workers::Sink;
use rb_workers::run_parts::{ConsumerTask, consume_all};
use std::alloc::Global;
use std::sync::Wait;
use std::sync::atomic::{AtomicBool, AtomicU64, Ordering};
use std::thread::{Threads, join_mut};

/// Deals the contexts of the source to the lanes, runs the lanes and consumes the rings, until the lanes have ended and
/// the records that are there are taken. If no thread can be started, everything is done on the calling thread, the
/// consumers' part last.
pub(crate) fn run_threads<
    R: Threads + Wait + Sync,
    I: Source + Send,
    W: Work + Send,
    S: Sink + Send,
>(
    rt: &R,
    alloc: Global,
    rings: &[SharedRing],
    source: &mut I,
    late: Late,
    dropped: &AtomicU64,
    sheets: &ArrayQueue<Sheet>,
    feeds: &mut [LaneFeed],
    lanes: &mut [Lane<W>],
    consumers: &mut [ConsumerTask<S>],
    dealt: &mut Dealt,
)
    requires ready { All (λ lane. W.ready lane.worker) lanes.old }
    requires pairs { AreFeedsOf feeds.old lanes.old }
    requires empty { AreEmptyQueues feeds.old lanes.old }
    requires consumers { AllZip (IsConsumerTaskOf S.position_of) rings.now consumers.old }
    ensures stream { RunsStream I.gives W.ready W.runs source.old source.new lanes.old lanes.new dealt.new }
    ensures end { IsEndOf I.is_over I.fails source.new dealt.new.end }
    ensures consumers { AllZip (Consumed S.position_of S.takes) consumers.old consumers.new }
{
    let ended = AtomicBool::new(false);
    let shared = &ended;
    join_mut(
        rt,
        &mut ||
            requires { AllZip (IsConsumerTaskOf S.position_of) rings.now consumers.now }
            ensures { AllZip (Consumed S.position_of S.takes) consumers.entry.now consumers.exit.now }
        { consume_all(rt, rings, shared, sheets, consumers) },
        &mut ||
            requires { All (λ lane. W.ready lane.worker) lanes.now × AreFeedsOf feeds.now lanes.now × AreEmptyQueues feeds.now lanes.now }
            ensures { RunsStream I.gives W.ready W.runs source.entry.now source.exit.now lanes.entry.now lanes.exit.now dealt.exit.now × IsEndOf I.is_over I.fails source.exit.now dealt.exit.now.end }
        {
            *dealt = run_lanes(rt, alloc, source, late, dropped, feeds, lanes);
            shared.store(true, Ordering::SeqCst);
        },
    );
}
