//! The consumer of a ring, as a task of a thread.

ghost use Rattle.std.specs.Prelude.{◌≡◌, ℕ};
ghost use Rattle.rb_history.specs.TapeBytes.{AreItemsFrom, end_of};
ghost use Rattle.rb_tape.specs.Items.{tape_items};
ghost use Rattle.rb_workers.specs.Opened.{IsKeeperFor};
ghost use Rattle.rb_workers.specs.Sink.{TakesAll};
ghost use Rattle.rb_workers.specs.inner.ConsumerTasks.{IsConsumerTaskOf, IsSameConsumer, Consumed, HasGiven, items_among};

use crate::pace::{BATCH, Pace};
use crate::sink::Sink;
use rb_consumer::{Batch, Keeper};
use rb_jobs::{SHORT, Stock};
use rb_shared_ring::{ConsumerSeat, Foreign, Seat, SharedRing};
use rb_tape::Items;
use std::sync::Wait;
use std::sync::atomic::{AtomicBool, Ordering};

/// A ring's consumer task: the consumer and the keeper (which hands out the ring's chapters), the sink that receives
/// the records and chapters, the vector to which the ring's seats are returned, and the last batch.
#[derive(Drop)]
pub struct ConsumerTask<S> {
    /// The consumer's seat.
    pub consumer: ConsumerSeat,
    /// The keeper of the ring's chapters.
    pub keeper: Keeper,
    /// The sink for the records and the chapters.
    pub sink: S,
    /// The ring's seats, after they were returned.
    pub returned_seats: Vec<Seat>,
    /// The records that were taken last.
    pub batch: Batch,
}

impl<S: Sink> ConsumerTask<S> {
    // Hands out the ring's chapter if the keeper is to look and the chapter is due, then takes a batch. Gives
    // everything to the sink, and returns the number of records.
    fn take_batch<R: Wait>(&mut self, rt: &R, ring: &SharedRing, looks: bool) -> usize
        requires ready { IsConsumerTaskOf S.position_of ring.now self.old }
        ensures taken { Consumed S.position_of S.takes self.old self.new }
    {
        turn_chapter(
            rt,
            ring,
            &mut self.consumer,
            &mut self.keeper,
            &mut self.sink,
            looks,
        );
        pass_batch(
            rt,
            ring,
            &mut self.consumer,
            &mut self.sink,
            &mut self.batch,
        )
    }

    // Notifies the sink if the batch was not full: then the ring is empty, or its first record busy.
    fn report_count(&mut self, count: usize)
        requires follows { S.position_of self.old.sink ≡ self.old.consumer.position }
        requires keeper { IsKeeperFor self.old.consumer self.old.keeper }
        ensures reported { Consumed S.position_of S.takes self.old self.new }
    {
        if count < BATCH {
            self.sink.caught_up();
        }
    }

    // Gives the sheets of the last records to the stock, if one of them is long enough to be kept. A sheet for which
    // the stock has no place is dropped.
    fn hand_on<K: Stock>(&mut self, stock: &K, count: usize)
        ensures consumer { self.new.consumer ≡ self.old.consumer }
        ensures keeper { self.new.keeper ≡ self.old.keeper }
        ensures sink { self.new.sink ≡ self.old.sink }
        ensures seats { self.new.returned_seats ≡ self.old.returned_seats }
    {
        if !self.batch.has_longer(SHORT) {
            return;
        }
        for _ in 0..count {
            let Some(sheet) = self.batch.recycle() else {
                break;
            };
            let _dropped = stock.put(sheet);
        }
    }
}

// Gives the sink the ring's chapter, if the keeper is to look at it and it is due. A keeper that does not fit the ring
// is skipped; one that was made for the ring fits until the numbers of chapters are exhausted.
fn turn_chapter<R: Wait, S: Sink>(
    rt: &R,
    ring: &SharedRing,
    consumer: &mut ConsumerSeat,
    keeper: &mut Keeper,
    sink: &mut S,
    looks: bool,
)
    requires ring { (consumer.old.tag ≡ ring.now.tag) × (consumer.old.ring ≡ ring.now.ring) }
    requires keeper { IsKeeperFor consumer.old keeper.old }
    ensures same { IsSameConsumer consumer.old consumer.new }
    ensures setup { consumer.new.seen.setup ≡ consumer.old.seen.setup }
    ensures stays { (consumer.new.position ≡ consumer.old.position) × (S.position_of sink.new ≡ S.position_of sink.old) }
    ensures given { HasGiven S.takes consumer.old consumer.new sink.old sink.new }
    ensures keeper { IsKeeperFor consumer.new keeper.new }
{
    if !looks {
        return;
    }
    match keeper.turn(rt, ring, consumer) {
        Ok(Some(chapter)) => sink.chapter(chapter),
        Ok(None) => {}
        Err(_) => {}
    }
}

/// Takes as many records as there are and as the batch has room for, and gives them to the sink in order. Returns the
/// number of records.
pub(crate) fn pass_batch<R: Wait, S: Sink>(
    rt: &R,
    ring: &SharedRing,
    consumer: &mut ConsumerSeat,
    sink: &mut S,
    batch: &mut Batch,
) -> usize
    requires ring { (consumer.old.tag ≡ ring.now.tag) × (consumer.old.ring ≡ ring.now.ring) }
    requires follows { S.position_of sink.old ≡ consumer.old.position }
    ensures same { IsSameConsumer consumer.old consumer.new }
    ensures follows { S.position_of sink.new ≡ consumer.new.position }
    ensures given { HasGiven S.takes consumer.old consumer.new sink.old sink.new }
{
    match batch.fill(rt, ring, consumer) {
        Ok(count) => {
            pass_items(sink, batch.items());
            count
        }
        Err(Foreign) => unreachable!(),
    }
}

// Gives each of the records to the sink, in order.
fn pass_items<S: Sink>(sink: &mut S, mut items: Items<'_>)
    requires stand { (size : ℕ) × AreItemsFrom size (S.position_of sink.old) (tape_items items) }
    ensures moved { S.position_of sink.new ≡ end_of (S.position_of sink.old) (tape_items items.entry) }
    ensures given { TakesAll S.takes sink.old (items_among items.entry) sink.new }
{
    while let Some(item) = items.next() {
        sink.record(&item);
    }
}

/// Takes records, with waits between the batches, until the workers have ended and a batch that was started after that
/// is empty.
pub(crate) fn consume<R: Wait, S: Sink, K: Stock>(
    rt: &R,
    ring: &SharedRing,
    ended: &AtomicBool,
    stock: &K,
    task: &mut ConsumerTask<S>,
)
    requires ready { IsConsumerTaskOf S.position_of ring.now task.old }
    ensures returned { Consumed S.position_of S.takes task.old task.new }
{
    let numbers = task.consumer.numbers();
    let mut pace = Pace::new(numbers.size, numbers.room);
    for _ in rt.forever() {
        let over = ended.load(Ordering::SeqCst);
        let looks = pace.is_look_due();
        let start = task.consumer.position();
        let count = task.take_batch(rt, ring, looks);
        let bytes = task.consumer.position().saturating_sub(start);
        task.report_count(count);
        task.hand_on(stock, count);
        if count == 0 && over {
            break;
        }
        pace.wait(rt, ended, looks, count, bytes);
    }
}
