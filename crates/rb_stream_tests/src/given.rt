//! What the tests share: programs, contexts, rings with sinks, and sources.

ghost use Rattle.std.specs.Prelude.{◌≡◌, ◌≤◌, ◌+◌, ℕ, All, length};
ghost use Rattle.rb_workers.specs.Opened.{AreOpened, IsOpened};

use rb_history::span;
use rb_program::{from_text, shape};
use rb_source::{Filled, ListSource, Piece, Source, SourceFault};
use rb_stream_worker::{CountOptions, LiveCounts};
use rb_verifier::{Verified, verify};
use rb_workers::{Chapter, Item, Opened, Sink};
use std::alloc::Global;
use std::fmt::Debug;
use std::process::Abort;
use std::sync::Wait;
use std::thread;

/// Outputs the first eight bytes of the context to the first ring, and returns the answer.
pub(crate) const OUTPUT_CONTEXT: &str = "bf12000000000000 1851000000000000 0000000000000000
    b703000008000000 b704000000000000 8500000082000000 9500000000000000";

/// Outputs the first eight bytes of the context to the second ring, and returns the answer.
pub(crate) const OUTPUT_TO_SECOND: &str = "bf12000000000000 1851000001000000 0000000000000000
    b703000008000000 b704000000000000 8500000082000000 9500000000000000";

/// Returns the first byte of the context.
pub(crate) const FIRST_BYTE: &str = "7110000000000000 9500000000000000";

/// Ends the test if the two differ, and prints both.
pub(crate) fn same<T: PartialEq + Debug>(rt: &impl Abort, found: &T, wanted: &T) {
    assert_eq!(rt; *found, *wanted);
}

/// Returns a program, verified for contexts of this length and for `rings` rings.
pub(crate) fn verified(
    rt: &impl Abort,
    alloc: Global,
    text: &str,
    ctx_len: u32,
    rings: u32,
) -> Verified
    requires context { ctx_len ≤ 65536 }
    requires rings { rings ≤ 16 }
    ensures rings { result.rings ≡ rings }
    ensures ctx_len { result.ctx_len ≡ ctx_len }
{
    let program = from_text(alloc, text).expect(rt, "a program");
    let shape = shape(alloc, program).expect(rt, "a shape");
    verify(alloc, shape, ctx_len, rings).expect(rt, "a verified program")
}

/// Returns contexts of 16 bytes, which begin with their number, counted from 1, in two bytes.
pub(crate) fn contexts<A: Abort>(rt: &A, alloc: Global, count: u32) -> Vec<Vec<u8>>
    ensures { All (λ c. length c.items ≡ 16) result.items }
{
    let mut all = Vec::new(alloc);
    for n in 0..count {
        let low = ((n + 1) % 256) as u8;
        let high = ((n + 1) / 256 % 256) as u8;
        let one = vec![in alloc; low, high, 0, 0, 0, 0, 0, 0, 0, 0, 0, 0, 0, 0, 0, 0];
        all.push(one.expect(rt, "memory")).expect(rt, "memory");
    }
    all
}

/// A sink that adds up the numbers with which its events begin.
#[derive(Drop)]
pub(crate) struct EventSum {
    pub(crate) position: u64,
    pub(crate) events: u64,
    pub(crate) sum: u64,
    pub(crate) others: u64,
    /// How often it yields for each event.
    pub(crate) pause: u32,
}

impl EventSum {
    pub(crate) fn new(pause: u32) -> EventSum
        ensures { result.position ≡ 0 }
    {
        EventSum {
            position: 0,
            events: 0,
            sum: 0,
            others: 0,
            pause,
        }
    }

    // Adds an event with these bytes.
    fn add(&mut self, bytes: &[u8])
        ensures { self.new.position ≡ self.old.position }
    {
        if bytes.len() == 8 {
            self.events = self.events.saturating_add(1);
            let number = u64::from(bytes[0]) + 256 * u64::from(bytes[1]);
            self.sum = self.sum.saturating_add(number);
        } else {
            self.others = self.others.saturating_add(1);
        }
        for _ in 0..self.pause {
            thread::yield_now();
        }
    }
}

impl Sink for EventSum {
    ghost use Rattle.std.specs.Prelude.{◌≡◌, ◌+◌, ℕ};
    ghost use Rattle.rb_workers.specs.Sink.{SinkItem, sink_span};

    ghost position_of = { λ a. a.position };

    ghost takes = { λ old item new. new.position ≡ old.position + sink_span item };

    fn position(&self) -> u64 {
        self.position
    }

    fn record(&mut self, item: &Item<'_>) {
        match item {
            Item::Event(event) => {
                self.add(event.bytes);
                self.position += span(event.bytes.len() as u32);
            }
            Item::Skip(_, n) => {
                self.others = self.others.saturating_add(1);
                self.position += span(*n);
            }
        }
    }

    fn chapter(&mut self, _: &Chapter) {}

    fn caught_up(&mut self) {}
}

/// Returns the counts of a stream while it runs, for no worker.
pub(crate) fn nothing_live(rt: &impl Abort, alloc: Global) -> LiveCounts {
    LiveCounts::new(alloc, 0, 0, 0, 16).expect(rt, "memory")
}

/// Returns options by which the results 0 to 15 are counted individually.
pub(crate) fn counted_live<'c>(live: &'c LiveCounts) -> CountOptions<'c>
    ensures { result.bound ≡ 16 }
{
    CountOptions { bound: 16, live }
}

// Returns a ring of this size with a seat for each worker.
fn opened<R: Wait + Abort>(
    rt: &R,
    alloc: Global,
    tag: u64,
    size: u64,
    workers: u32,
    pause: u32,
) -> Opened<EventSum>
    ensures { IsOpened (λ a. a.position) workers result }
{
    let sink = EventSum::new(pause);
    match Opened::open(rt, alloc, tag, size, 0, workers, 65_536, 4_096, sink) {
        Ok(opened) => opened,
        Err(_) => rt.panic("no ring"),
    }
}

/// Returns two rings, with tags 0 and 1, whose sinks yield `pause` times for each event.
pub(crate) fn two_rings<R: Wait + Abort>(
    rt: &R,
    alloc: Global,
    size: u64,
    workers: u32,
    pause: u32,
) -> Vec<Opened<EventSum>>
    ensures { AreOpened (λ a. a.position) result.items }
{
    let first = opened(rt, alloc, 0, size, workers, pause);
    let second = opened(rt, alloc, 1, size, workers, pause);
    match vec![in alloc; first, second] {
        Ok(rings) => rings,
        Err(_) => rt.panic("no memory"),
    }
}

/// A source that gives the contexts of a list, and then fails.
#[derive(Drop)]
pub(crate) struct Failing<'a> {
    pub(crate) list: ListSource<'a>,
}

impl<'a> Source for Failing<'a> {
    ghost ctx_len_of = { λ s. s.list.ctx_len };

    ghost gives = { λ _ _ _. Unit {0} };

    ghost is_over = { λ _. Unit {0} };

    ghost fails = { λ _ _. Unit {0} };

    ghost gives_nothing = { λ _. tt };

    ghost gives_both = { λ _ _ _ _ _ _ _. tt };

    fn ctx_len(&self) -> u32 {
        self.list.ctx_len()
    }

    fn fill(&mut self, piece: &mut Piece) -> Result<Filled, SourceFault> {
        match self.list.fill(piece) {
            Ok(Filled::More) => Ok(Filled::More),
            Ok(Filled::End) => Err(SourceFault::Read),
            Err(fault) => Err(fault),
        }
    }
}

/// A source that gives the contexts of a list, one in each piece.
#[derive(Drop)]
pub(crate) struct OneByOne<'a> {
    pub(crate) list: &'a [Vec<u8>],
    pub(crate) next: usize,
}

impl<'a> Source for OneByOne<'a> {
    ghost ctx_len_of = { λ _. 16 };

    ghost gives = { λ _ _ _. Unit {0} };

    ghost is_over = { λ _. Unit {0} };

    ghost fails = { λ _ _. Unit {0} };

    ghost gives_nothing = { λ _. tt };

    ghost gives_both = { λ _ _ _ _ _ _ _. tt };

    fn ctx_len(&self) -> u32 {
        16
    }

    fn fill(&mut self, piece: &mut Piece) -> Result<Filled, SourceFault> {
        let Some(context) = self.list.get(self.next) else {
            return Ok(Filled::End);
        };
        if context.len() != 16 || piece.is_full() {
            return Err(SourceFault::Read);
        }
        piece.push(context);
        self.next = self.next.saturating_add(1);
        Ok(Filled::More)
    }
}
