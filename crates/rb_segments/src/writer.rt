//! A writer of a ring's tape in segments.

use crate::fault::SegmentFault;
use crate::plan::SegmentPlan;
use crate::rotation::{end, roll_and_delete};
use crate::store::SegmentStore;
use rb_io::{DeviceFault, Outgoing};
use rb_tape::{Item, TapeWriter};
use std::alloc::Global;
use std::collections::VecDeque;
use std::marker::Model;

/// A writer that writes the records of a ring as a tape in segments.
#[derive(Drop)]
pub struct SegmentWriter<S: SegmentStore<F>, F: Outgoing + Drop> {
    pub(crate) store: S,
    // Writes the open segment.
    pub(crate) tape: TapeWriter<F>,
    // The positions of the closed segments, the oldest first.
    pub(crate) closed: VecDeque<u64>,
    // The position of the open segment.
    pub(crate) opened: u64,
    pub(crate) size: u64,
    // The position of the oldest segment when the writer was made.
    pub(crate) first: u64,
    // The position of the next record.
    pub(crate) position: u64,
    pub(crate) plan: SegmentPlan,
    // The fault that ended the tape, if one did.
    pub(crate) fault: Option<SegmentFault>,
    // The number of records that were not completely written because of that fault.
    pub(crate) unwritten: u64,
}

impl<S: SegmentStore<F>, F: Outgoing + Drop> Model for SegmentWriter<S, F> {
    ghost use Rattle.std.specs.Prelude.{◌≡◌, ◌≤◌, ◌*◌, None};
    ghost use Rattle.rb_history.specs.RingModel.{IsRingSize};
    ghost use Rattle.rb_segments.specs.Known.{HavePositions, IsOnlyCreated};
    ghost use Rattle.rb_segments.specs.SegmentTape.{SegmentTape};

    ghost Value = { SegmentTape S F };

    ghost view = { λ t. record { store = t.store; writer = t.tape.writer; size = t.size; first = t.first; closed = t.closed.items; opened = t.opened; position = t.position; plan = t.plan; fault = t.fault; unwritten = t.unwritten } };

    ghost invariant = { λ t. IsRingSize t.size × (t.tape.size ≡ t.size) × HavePositions t.closed.items (S.segments t.store) × (8 * t.unwritten ≤ t.position) × (t.fault ≡ None → (t.tape.position ≡ t.position) × (t.tape.unfinished ≡ None) × IsOnlyCreated t.opened (S.created t.store)) };
}

impl<S: SegmentStore<F>, F: Outgoing + Drop> SegmentWriter<S, F> {
    ghost use Rattle.std.specs.Prelude.{◌≡◌, ◌≤◌, ◌<◌, ◌+◌, ◌^◌, ℕ, [], List, None, Some, IfNone, IfOk, IfSome, IsSome};
    ghost use Rattle.rb_history.specs.TapeBytes.{item_len, item_position, item_span, Item as TapeItem};
    ghost use Rattle.rb_history.specs.RingModel.{IsRingSize, IsStartPosition};
    ghost use Rattle.rb_tape.specs.Items.{item_of};
    ghost use Rattle.rb_segments.specs.SegmentTape.{closed_after, first_or, HasEnded, HasWritten, IsSetUp, kept, opened_after, WritesRecord};
    ghost use Rattle.rb_segments.specs.Segments.{Segment};

    /// Returns a writer that starts a tape in a store without segments: creates the segment with position `start`.
    pub fn new(
        alloc: Global,
        mut store: S,
        size: u64,
        start: u64,
        plan: SegmentPlan,
    ) -> Result<SegmentWriter<S, F>, DeviceFault>
    where
        S: Drop,
        requires size { IsRingSize size }
        requires start { IsStartPosition start }
        requires fresh { IfSome (S.segments store) (λ closed. closed ≡ []) }
        requires none_created { IfSome (S.created store) (λ created. created ≡ []) }
        ensures nothing_written { IfOk result (λ t. S.segments store ≡ Some [] → HasWritten S.segments F.contents start [] [] t) }
        ensures set_up { IfOk result (IsSetUp size plan) }
        ensures first { IfOk result (λ t. t.first ≡ start) }
        ensures position { IfOk result (λ t. t.position ≡ start) }
    {
        let file = store.create(start)?;
        Ok(SegmentWriter {
            store,
            tape: TapeWriter::new(file, size, start),
            closed: VecDeque::new(alloc),
            opened: start,
            size,
            first: start,
            position: start,
            plan,
            fault: None,
            unwritten: 0,
        })
    }

    /// Writes the next record. A fault ends the tape: later records are counted but not written.
    pub fn put(&mut self, item: &Item<'_>)
        requires next { item_position (item_of item.now) ≡ self.old.position }
        requires len { item_len (item_of item.now) < 2 ^ 32 }
        requires end { self.old.position + item_span (item_of item.now) ≤ 2 ^ 62 }
        ensures position { self.new.position ≡ self.old.position + item_span (item_of item.now) }
        ensures written { WritesRecord S.segments F.contents self.old (item_of item.now) self.new }
        ensures opened { IfNone self.new.fault (self.new.opened ≡ opened_after self.old.plan self.old.opened self.new.position) }
        ensures closed { IfNone self.new.fault (self.new.closed ≡ kept self.old.plan.keep self.new.position (closed_after self.old.plan self.old.closed self.old.opened self.new.position)) }
        ensures first_fault { IsSome self.old.fault → self.new.fault ≡ self.old.fault }
        ensures size { self.new.size ≡ self.old.size }
        ensures first { self.new.first ≡ self.old.first }
        ensures plan { self.new.plan ≡ self.old.plan }
    {
        let span = item.span();
        self.position += span;
        if self.fault.is_some() {
            self.unwritten += 1;
            return;
        }
        if span >= self.size {
            self.unwritten += 1;
            self.fault = Some(SegmentFault::TooLong);
            return;
        }
        if self.tape.put(item).is_err() {
            self.unwritten += 1;
            self.fault = Some(SegmentFault::Write);
            return;
        }
        self.fault = roll_and_delete(
            &mut self.store,
            &mut self.tape,
            &mut self.closed,
            &mut self.opened,
            self.size,
            self.plan,
        )
        .err();
    }

    /// Flushes the buffer of the open segment's file. A fault ends the tape.
    pub fn write_out(&mut self)
        ensures holds { (start : ℕ) (deleted : List Segment) (items : List TapeItem) → HasWritten S.segments F.contents start deleted items self.old → HasWritten S.segments F.contents start deleted items self.new }
        ensures nothing_waits { IfNone self.new.fault (F.waiting self.new.writer ≡ []) }
        ensures first_fault { IsSome self.old.fault → self.new.fault ≡ self.old.fault }
        ensures rest { self.new ≡ record self.old { writer = self.new.writer; fault = self.new.fault } }
    {
        if self.fault.is_none() && self.tape.write_out().is_err() {
            self.fault = Some(SegmentFault::Write);
        }
    }

    /// Ends the tape in order: flushes, syncs and closes the open segment. Returns the store, and the fault that ended
    /// the tape, if one did.
    pub fn finish(mut self) -> (S, Option<SegmentFault>)
        ensures whole { (start : ℕ) (deleted : List Segment) (items : List TapeItem) → HasWritten S.segments F.contents start deleted items self → result.1 ≡ None → HasEnded S.segments self.size start deleted items result.0 }
        ensures first_fault { IsSome self.fault → result.1 ≡ self.fault }
    {
        self.write_out();
        let SegmentWriter {
            mut store,
            tape,
            closed: _,
            opened,
            size: _,
            first: _,
            position: _,
            plan: _,
            fault,
            unwritten: _,
        } = self;
        if fault.is_some() {
            return (store, fault);
        }
        let fault = end(&mut store, tape.writer(), opened).err();
        (store, fault)
    }

    /// Returns the position of the next record.
    pub fn position(&self) -> u64
        ensures value { result ≡ self.now.position }
    {
        self.position
    }

    /// Returns the position of the oldest segment: all records before it were deleted.
    pub fn oldest(&self) -> u64
        ensures value { result ≡ first_or self.now.opened self.now.closed }
    {
        match self.closed.front() {
            Some(position) => *position,
            None => self.opened,
        }
    }

    /// Returns the position that the oldest segment had when the writer was made: `oldest() - first()` bytes were
    /// deleted since then.
    pub fn first(&self) -> u64
        ensures value { result ≡ self.now.first }
    {
        self.first
    }

    /// Returns the fault that ended the tape, if one did.
    pub fn fault(&self) -> Option<SegmentFault>
        ensures value { result ≡ self.now.fault }
    {
        self.fault
    }

    /// Returns how many records were not written, or not completely, because a fault ended the tape.
    pub fn unwritten(&self) -> u64
        ensures value { result ≡ self.now.unwritten }
    {
        self.unwritten
    }
}
