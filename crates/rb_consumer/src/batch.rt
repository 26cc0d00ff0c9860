//! Batches: many records, taken under one acquisition of the lock.

ghost use Rattle.std.specs.Prelude.{◌≡◌, ◌≢◌, ◌+◌, ◌≤◌, ◌↔◌, [], IsErr, IfOk, IfSome, IfNone, OnOk, None, filter, length};
ghost use Rattle.std.specs.List.{list_any};
ghost use Rattle.rb_history.specs.ManyTakes.{TakesMany};
ghost use Rattle.rb_ledger.specs.Roles.Role.{Consumer};
ghost use Rattle.rb_ledger.specs.LockedCalls.{LockedCall};
ghost use Rattle.rb_ledger.specs.ManyTakes.{events_among, skips_among, span_among, AreTakenFrom, got_by_all};
ghost use Rattle.rb_ledger.specs.EntryRoom.{InRoomBehind};
ghost use Rattle.rb_ledger.specs.ChapterSeats.{entries_out};
ghost use Rattle.rb_shared_ring.specs.SharedSeats.{IsSameChapterConsumer};
ghost use Rattle.rb_history.specs.TapeBytes.{AreItemsFrom, end_of};
ghost use Rattle.rb_tape.specs.Items.{tape_items, AreRecords};
ghost use Rattle.rb_consumer.specs.Batches.{Recycles, is_event, is_longer_event};
ghost use Rattle.rb_consumer.specs.inner.LastEvents.{IsLastEvent};

use crate::batch_items::Events;
use rb_history::Taken;
use rb_lend::Sheet;
use rb_shared_ring::{ConsumerSeat, Foreign, SharedRing};
use rb_tape::Items;
use std::alloc::{AllocError, Global};
use std::marker::Model;
use std::sync::Wait;

/// A batch of records that a ring's consumer took, with their bytes. It can be filled repeatedly, and allocates only
/// when it is created.
///
/// Contracts see its capacity, and the results of `take` that are in it.
#[derive(Drop)]
pub struct Batch {
    taken: Vec<Taken>,
}

impl Model for Batch {
    ghost use Rattle.std.specs.Prelude.{vec_capacity};
    ghost use Rattle.rb_consumer.specs.Batches.{BatchValue, IsBatch};

    ghost Value = { BatchValue };

    ghost view = { λ b. record { capacity = vec_capacity b.taken; taken = b.taken.items } };

    ghost invariant = { λ b. IsBatch (record { capacity = vec_capacity b.taken; taken = b.taken.items }) };
}

impl Batch {
    /// Returns an empty batch with a capacity of `n` records. Fails if memory can't be allocated.
    pub fn with_capacity(alloc: Global, n: usize) -> Result<Batch, AllocError>
        ensures empty { IfOk result (λ b. b ≡ record { capacity = n; taken = [] }) }
    {
        let taken = Vec::with_capacity(alloc, n)?;
        Ok(Batch { taken })
    }

    /// Drops the contents of the batch, and takes records under one acquisition of the ring's lock until the batch is
    /// full, the front is busy or the ring is empty. Returns the number of records. (Linux
    /// Documentation/bpf/ringbuf.rst: records are consumed in the order of their reservation.)
    ///
    /// The call is one `take_many` of the ring with its whole history (`call`). Returns `Foreign` if the seat belongs
    /// to another ring: then nothing changed. Does not allocate.
    pub fn fill<R: Wait>(
        &mut self,
        rt: &R,
        ring: &SharedRing,
        seat: &mut ConsumerSeat,
    ) -> Result<usize, Foreign>
        requires ring { seat.old.tag ≡ ring.now.tag → seat.old.ring ≡ ring.now.ring }
        ensures foreign { IsErr result ↔ (seat.old.tag ≢ ring.now.tag) }
        ensures unchanged { seat.old.tag ≢ ring.now.tag → seat.new ≡ seat.old }
        ensures batch_unchanged { seat.old.tag ≢ ring.now.tag → self.new ≡ self.old }
        ensures capacity { self.new.capacity ≡ self.old.capacity }
        ensures seat { IsSameChapterConsumer seat.old seat.new }
        ensures chapters { seat.new.handed_out ≡ seat.old.handed_out }
        ensures released { (seat.old.out ≡ None) × (seat.new.out ≡ None) }
        ensures count { IfOk result (λ count. count ≡ length self.new.taken) }
        ensures call { OnOk result (LockedCall Consumer seat.old.seen seat.new.seen (InRoomBehind seat.old.room (entries_out seat.old) (TakesMany self.old.capacity self.new.taken))) }
        ensures setup { OnOk result (seat.new.seen.setup ≡ seat.old.seen.setup) }
        ensures place { OnOk result (AreTakenFrom seat.old.position self.new.taken) }
        ensures stand { OnOk result (AreItemsFrom seat.old.seen.setup.size seat.old.position (tape_items self.new.taken)) }
        ensures position { OnOk result (seat.new.position ≡ seat.old.position + span_among self.new.taken) }
        ensures end { OnOk result (seat.new.position ≡ end_of seat.old.position (tape_items self.new.taken)) }
        ensures consumed { OnOk result (seat.new.consumed ≡ seat.old.consumed + events_among self.new.taken) }
        ensures skipped { OnOk result (seat.new.skipped ≡ seat.old.skipped + skips_among self.new.taken) }
        ensures got { OnOk result (seat.new.got ≡ got_by_all seat.old.got self.new.taken) }
    {
        seat.facts();
        if seat.tag() != ring.tag() {
            return Err(Foreign);
        }
        self.taken.clear();
        let n = self.taken.capacity();
        ring.take_many(rt, seat, n, &mut self.taken)
    }

    /// States the invariant of a batch: it contains records only, and at most as many as its capacity.
    pub fn facts(&self)
        ensures records { AreRecords self.now.taken }
        ensures within { length self.now.taken ≤ self.now.capacity }
    {
        let _ = &self.taken;
    }

    /// Returns the submitted records in the batch, in the order in which they were taken.
    pub fn events(&self) -> Events<'_>
        ensures value { result ≡ filter is_event self.now.taken }
    {
        Events {
            rest: self.taken.as_slice(),
        }
    }

    /// Returns all records in the batch, including discarded ones, in the order in which they were taken.
    pub fn items(&self) -> Items<'_>
        ensures value { result ≡ self.now.taken }
    {
        Items::new(self.taken.as_slice())
    }

    /// Returns whether a submitted record in the batch has more than `n` bytes. Takes time linear in the number of
    /// records.
    pub fn has_longer(&self, n: u32) -> bool
        ensures found { result ≡ list_any (is_longer_event n) self.now.taken }
    {
        for answer in &self.taken {
            if is_longer(answer, n) {
                return true;
            }
        }
        false
    }

    /// Removes the last submitted record from the batch and returns its sheet for reuse, or `None` if there is none.
    /// Takes time linear in the number of discarded records after it.
    pub fn recycle(&mut self) -> Option<Sheet>
        ensures recycles { Recycles self.old.taken self.new.taken result }
        ensures capacity { self.new.capacity ≡ self.old.capacity }
    {
        let index = last_event(&self.taken)?;
        match self.taken.remove(index) {
            Taken::Event(_pos, _worker, _serial, sheet) => Some(sheet),
            _ => unreachable!(),
        }
    }
}

// Returns whether the result is a submitted record of more than `n` bytes.
fn is_longer(answer: &Taken, n: u32) -> bool
    ensures { result ≡ is_longer_event n answer.now }
{
    match answer {
        Taken::Event(_, _, _, sheet) => sheet.len() > n,
        _ => false,
    }
}

// Returns the index of the last submitted record, if there is one.
fn last_event(taken: &[Taken]) -> Option<usize>
    ensures last { IfSome result (IsLastEvent taken.now) }
    ensures none { IfNone result (filter is_event taken.now ≡ []) }
{
    let mut behind = taken.len();
    while behind > 0 {
        behind -= 1;
        if matches!(taken[behind], Taken::Event(_, _, _, _)) {
            return Some(behind);
        }
    }
    None
}
