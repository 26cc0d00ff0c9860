//! Closing a shared ring, with all its seats.

ghost use Rattle.std.specs.Prelude.{ℕ, ◌≡◌, ◌↔◌, ◌++◌, ◌∷◌, [], List, IfOk, IfErr, IsOk, IsTrue, All, true};
ghost use Rattle.crossbeam_queue.specs.Passes.{view, IsPassOf, IsSamePass};
ghost use Rattle.rb_chapter_ring.specs.ChapterRing.{StandsForChapter};
ghost use Rattle.rb_chapter_ring.specs.ChapterCalls.{producer_by_chapter, consumer_by_chapter};
ghost use Rattle.rb_chapter_ring.specs.OpenedRing.{told_counts};
ghost use Rattle.rb_ledger.specs.Seats.{are_tagged, has_seat, HasAll};
ghost use Rattle.rb_ledger.specs.SeatRoles.{roles_of, HasOwnCounts};
ghost use Rattle.rb_ledger.specs.ChapterKnowledge.{ChapterKnowledge, chapter_view, whole_knowledge};
ghost use Rattle.rb_ledger.specs.ChapterClosing.{IsClosedByChapters};
ghost use Rattle.rb_chapter_ring.specs.Hands.{HandBook};
ghost use Rattle.rb_ledger.specs.HandKnowledge.{AllKnowHands, without_hands};
ghost use Rattle.rb_ledger.specs.HandedOut.{KnewHandedOut};

use crate::batch_flag::BatchFlag;
use crate::consumer_seat::ConsumerSeat;
use crate::lock::{JoinRoles, Lock, RingPass, take_out};
use crate::shared::SharedRing;
use crate::worker_seat::Seat;
use rb_chapter_ring::{Chapter, RingState};
use rb_history::Counts;
use std::marker::Model;
use std::sync::Wait;

/// A closed ring, with its tag, its last chapter, its counts and both positions. Contracts see which shared ring it
/// was, and the ring of one thread that it was at the end.
#[derive(Drop)]
pub struct Closing {
    ring: SharedRing,
    state: Box<RingState>,
}

impl Model for Closing {
    ghost use Rattle.std.specs.Coded.{codes};
    ghost use Rattle.atomic_table.specs.Seated.{table_id_coded};
    ghost use Rattle.rb_history.specs.RingModel.{contents_code};
    ghost use Rattle.rb_history.specs.contracts.entries.Entry as entry;
    ghost use Rattle.rb_history.specs.contracts.tally.Tally as tally_row;
    ghost use Rattle.rb_chapter_ring.specs.contracts.out_record.OutRecord as out_row;
    ghost use Rattle.rb_ledger.specs.ChapterClosing.{ClosedChapterRing};

    ghost Value = { ClosedChapterRing };

    ghost coded = { Prim.hlevel (codes, contents_code, table_id_coded, entry.the_row.coded, tally_row.the_row.coded, out_row.the_row.coded) };

    ghost view = { λ c. record { shared = c.ring; at_end = c.state.value.state.ring } };
}

impl Closing {
    /// Returns the ring's tag, as the caller of `open` chose it.
    pub fn tag(&self) -> u64
        ensures tag { result ≡ self.now.shared.tag }
    {
        self.ring.tag()
    }

    /// Returns the ring's last chapter. That chapter's `closing` has the totals: four for each worker, and how many
    /// records were consumed and skipped.
    pub fn chapter(&self) -> &Chapter
        ensures chapter { result.now ≡ self.now.at_end.chapter }
    {
        self.state.as_ref().chapter()
    }

    /// Returns the counts of the whole history. The refusal count saturates at `u64::MAX`. Takes constant time.
    pub fn counts(&self) -> Counts
        ensures counts { result ≡ told_counts self.now.at_end }
    {
        self.state.as_ref().counts()
    }

    /// Returns the producer position.
    pub fn producer(&self) -> u64
        ensures position { result ≡ producer_by_chapter self.now.at_end }
    {
        self.chapter().closing().numbers().producer
    }

    /// Returns the consumer position.
    pub fn consumer(&self) -> u64
        ensures position { result ≡ consumer_by_chapter self.now.at_end }
    {
        self.chapter().closing().numbers().consumer
    }
}

/// The failure of `close`: a seat is missing, or belongs to another ring. It returns everything that was passed in,
/// unchanged.
#[derive(Drop)]
pub struct NotAll {
    /// The ring, which remains open.
    pub ring: SharedRing,
    /// The seats that were passed in.
    pub seats: Vec<Seat>,
    /// The consumer's seat.
    pub consumer: ConsumerSeat,
}

// Returns whether all seats have this tag.
fn are_all_tagged(seats: &[Seat], tag: u64) -> bool
    ensures { result ≡ are_tagged tag seats.now }
{
    for seat in seats {
        if seat.tag() != tag {
            return false;
        }
    }
    true
}

// Returns whether one of these seats is the worker's.
fn has_seat_of(seats: &[Seat], worker: u32) -> bool
    ensures { result ≡ has_seat worker seats.now }
{
    for seat in seats {
        if seat.worker() == worker {
            return true;
        }
    }
    false
}

// Returns whether each worker has a seat among these.
fn has_all(seats: &[Seat], workers: u32) -> bool
    ensures { IsTrue result ↔ HasAll workers seats.now }
{
    for worker in 0..workers {
        if !has_seat_of(seats, worker) {
            return false;
        }
    }
    true
}

// Moves the seats' roles into the pass.
fn gather(lock: &Lock, pass: &mut RingPass, mut seats: Vec<Seat>)
    requires pass { IsPassOf lock.now pass.old }
    requires seats { All (λ s. s.ring ≡ pass.old.table_id) seats.items }
    ensures same { IsSamePass pass.old pass.new }
    ensures knows { (workers : List ChapterKnowledge) × (without_hands (view pass.new) ≡ chapter_view (workers ++ (without_hands (view pass.old)).knows) (without_hands (view pass.old)).out) × (whole_knowledge workers ≡ roles_of seats.items) }
    ensures out { (view pass.new).out ≡ (view pass.old).out }
    ensures ties { All HasOwnCounts seats.items }
    ensures knew { (room : ℕ) (handed_out : List Chapter) (book : HandBook) → AllKnowHands room handed_out book (view pass.new).knows → KnewHandedOut handed_out seats.items }
{
    while let Some(seat) = seats.pop() {
        let own = seat.into_pass();
        lock.absorb::<JoinRoles>(pass, own);
    }
}

// Takes the state out of the lock, with a pass that has all roles.
fn collect<R: Wait>(
    rt: &R,
    lock: &Lock,
    batch: &BatchFlag,
    seats: Vec<Seat>,
    consumer: ConsumerSeat,
) -> Box<RingState>
    requires consumer { consumer.ring ≡ lock.now.table.shared.table_id }
    requires seats { All (λ s. s.ring ≡ consumer.ring) seats.items }
    requires all { HasAll consumer.seen.setup.workers seats.items }
    ensures closed { IsClosedByChapters result.value.state.ring seats.items consumer }
    ensures knew { KnewHandedOut consumer.handed_out seats.items }
{
    let mut pass = consumer.into_pass();
    gather(lock, &mut pass, seats);
    take_out(rt, lock, batch, &mut pass)
}

impl SharedRing {
    /// Closes this ring, given all its seats and its consumer, and returns it with its last chapter. If a seat is
    /// missing, or a seat or the consumer is foreign, returns all of them unchanged.
    ///
    /// If it returns Ok, the entries that each seat knew at its last call to be handed out are in the chapters that the
    /// consumer was handed.
    pub fn close<R: Wait>(
        self,
        rt: &R,
        seats: Vec<Seat>,
        consumer: ConsumerSeat,
    ) -> Result<Closing, NotAll>
        requires seats { All (λ s. s.tag ≡ self.tag → s.ring ≡ self.ring) seats.items }
        requires consumer { consumer.tag ≡ self.tag → consumer.ring ≡ self.ring }
        ensures all { IsOk result ↔ ((consumer.tag ≡ self.tag) × (are_tagged self.tag seats.items ≡ true) × HasAll consumer.seen.setup.workers seats.items) }
        ensures back { IfErr result (λ e. (e.ring ≡ self) × (e.seats.items ≡ seats.items) × (e.consumer ≡ consumer)) }
        ensures which { IfOk result (λ c. c.shared ≡ self) }
        ensures closed { IfOk result (λ c. IsClosedByChapters c.at_end seats.items consumer) }
        ensures knew { IfOk result (λ _. KnewHandedOut consumer.handed_out seats.items) }
    {
        if consumer.tag() != self.tag
            || !are_all_tagged(&seats, self.tag)
            || !has_all(&seats, consumer.numbers().workers)
        {
            return Err(NotAll {
                ring: self,
                seats,
                consumer,
            });
        }
        let state = collect(rt, &self.lock, &self.batch, seats, consumer);
        Ok(Closing { ring: self, state })
    }
}
