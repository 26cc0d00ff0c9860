//! Closing segments and deleting the oldest ones.

ghost use Rattle.std.specs.Prelude.{◌≡◌, [], ◌∷◌, ◌++◌, None, OnErr, OnOk};
ghost use Rattle.rb_history.specs.RingModel.{IsRingSize, IsStartPosition};
ghost use Rattle.rb_segments.specs.Known.{AddsSegment, HavePositions, IsOnlyCreated};
ghost use Rattle.rb_segments.specs.SegmentTape.{closed_after, directory_at, kept, opened_after};
ghost use Rattle.rb_segments.specs.inner.Rolling.{DeletesOldest, KeepsRecords};

use crate::fault::SegmentFault;
use crate::plan::SegmentPlan;
use crate::store::SegmentStore;
use rb_history::is_start;
use rb_io::Outgoing;
use rb_tape::TapeWriter;
use std::collections::VecDeque;

/// Rolls the open segment if it is full, and deletes the oldest segments beyond the plan's limit.
pub(crate) fn roll_and_delete<S: SegmentStore<F>, F: Outgoing + Drop>(
    store: &mut S,
    tape: &mut TapeWriter<F>,
    closed: &mut VecDeque<u64>,
    opened: &mut u64,
    size: u64,
    plan: SegmentPlan,
) -> Result<(), SegmentFault>
    requires finished { tape.old.unfinished ≡ None }
    requires size { IsRingSize size }
    requires same_size { tape.old.size ≡ size }
    requires created { IsOnlyCreated opened.old (S.created store.old) }
    requires positions { HavePositions closed.old.items (S.segments store.old) }
    ensures created { OnOk result (IsOnlyCreated opened.new (S.created store.new)) }
    ensures finished { tape.new.unfinished ≡ None }
    ensures same_size { tape.new.size ≡ size }
    ensures position { tape.new.position ≡ tape.old.position }
    ensures positions { HavePositions closed.new.items (S.segments store.new) }
    ensures opened { OnOk result (opened.new ≡ opened_after plan opened.old tape.old.position) }
    ensures closed { OnOk result (closed.new.items ≡ kept plan.keep tape.old.position (closed_after plan closed.old.items opened.old tape.old.position)) }
    ensures keeps { KeepsRecords (directory_at S.segments F.contents store.old tape.old.writer opened.old) tape.old.position (directory_at S.segments F.contents store.new tape.new.writer opened.new) }
{
    roll(store, tape, closed, opened, size, plan)?;
    delete_old(store, closed, plan.keep, tape.position())
}

// Closes the open segment if it is full, and creates the next one. If that fails, the open segment stays open.
fn roll<S: SegmentStore<F>, F: Outgoing + Drop>(
    store: &mut S,
    tape: &mut TapeWriter<F>,
    closed: &mut VecDeque<u64>,
    opened: &mut u64,
    size: u64,
    plan: SegmentPlan,
) -> Result<(), SegmentFault>
    requires finished { tape.old.unfinished ≡ None }
    requires size { IsRingSize size }
    requires same_size { tape.old.size ≡ size }
    requires created { IsOnlyCreated opened.old (S.created store.old) }
    requires positions { HavePositions closed.old.items (S.segments store.old) }
    ensures created { OnOk result (IsOnlyCreated opened.new (S.created store.new)) }
    ensures finished { tape.new.unfinished ≡ None }
    ensures same_size { tape.new.size ≡ size }
    ensures position { tape.new.position ≡ tape.old.position }
    ensures positions { HavePositions closed.new.items (S.segments store.new) }
    ensures opened { OnOk result (opened.new ≡ opened_after plan opened.old tape.old.position) }
    ensures closed { OnOk result (closed.new.items ≡ closed_after plan closed.old.items opened.old tape.old.position) }
    ensures still_open { OnErr result (opened.new ≡ opened.old) }
    ensures still_closed { OnErr result (closed.new.items ≡ closed.old.items) }
    ensures keeps { KeepsRecords (directory_at S.segments F.contents store.old tape.old.writer opened.old) tape.old.position (directory_at S.segments F.contents store.new tape.new.writer opened.new) }
{
    let position = tape.position();
    if position.saturating_sub(*opened) < plan.segment || !is_start(position) {
        return Ok(());
    }
    start_next(store, tape, closed, *opened, size)?;
    *opened = position;
    Ok(())
}

// Closes the open segment, which is already synced, and creates the next one.
fn start_next<S: SegmentStore<F>, F: Outgoing + Drop>(
    store: &mut S,
    tape: &mut TapeWriter<F>,
    closed: &mut VecDeque<u64>,
    opened: u64,
    size: u64,
) -> Result<(), SegmentFault>
    requires finished { tape.old.unfinished ≡ None }
    requires size { IsRingSize size }
    requires same_size { tape.old.size ≡ size }
    requires start { IsStartPosition tape.old.position }
    requires created { IsOnlyCreated opened (S.created store.old) }
    requires positions { HavePositions closed.old.items (S.segments store.old) }
    ensures created { OnOk result (IsOnlyCreated tape.old.position (S.created store.new)) }
    ensures finished { tape.new.unfinished ≡ None }
    ensures same_size { tape.new.size ≡ size }
    ensures position { tape.new.position ≡ tape.old.position }
    ensures positions { HavePositions closed.new.items (S.segments store.new) }
    ensures closed { OnOk result (closed.new.items ≡ closed.old.items ++ opened ∷ []) }
    ensures still_closed { OnErr result (closed.new.items ≡ closed.old.items) }
    ensures keeps_open { OnErr result (KeepsRecords (directory_at S.segments F.contents store.old tape.old.writer opened) tape.old.position (directory_at S.segments F.contents store.new tape.new.writer opened)) }
    ensures keeps { OnOk result (KeepsRecords (directory_at S.segments F.contents store.old tape.old.writer opened) tape.old.position (directory_at S.segments F.contents store.new tape.new.writer tape.old.position)) }
{
    if tape.write_out().is_err() {
        return Err(SegmentFault::Write);
    }
    if store.sync(tape.writer()).is_err() {
        return Err(SegmentFault::Sync);
    }
    if closed.reserve(1).is_err() {
        return Err(SegmentFault::Memory);
    }
    let position = tape.position();
    let Ok(file) = store.create(position) else {
        return Err(SegmentFault::Create);
    };
    if store.close(opened, tape.writer()).is_err() {
        return Err(SegmentFault::Close);
    }
    let Ok(()) = closed.push_back(opened) else {
        unreachable!()
    };
    *tape = TapeWriter::new(file, size, position);
    Ok(())
}

// Deletes the oldest closed segments until the rest, up to `position`, has at most `keep` bytes.
fn delete_old<S: SegmentStore<F>, F: Outgoing + Drop>(
    store: &mut S,
    closed: &mut VecDeque<u64>,
    keep: u64,
    position: u64,
) -> Result<(), SegmentFault>
    requires positions { HavePositions closed.old.items (S.segments store.old) }
    ensures created { S.created store.new ≡ S.created store.old }
    ensures positions { HavePositions closed.new.items (S.segments store.new) }
    ensures kept { OnOk result (closed.new.items ≡ kept keep position closed.old.items) }
    ensures deletes { DeletesOldest (S.segments store.old) (S.segments store.new) }
{
    'oldest: while let Some(&oldest) = closed.front() {
        if position.saturating_sub(oldest) <= keep {
            return Ok(());
        }
        if store.delete_oldest(oldest).is_err() {
            return Err(SegmentFault::Delete);
        }
        closed.pop_front();
    }
    Ok(())
}

/// Syncs and closes the open segment, whose buffer is empty.
pub(crate) fn end<S: SegmentStore<F>, F: Outgoing + Drop>(
    store: &mut S,
    file: &F,
    opened: u64,
) -> Result<(), SegmentFault>
    requires nothing_waits { F.waiting file.now ≡ [] }
    requires created { IsOnlyCreated opened (S.created store.old) }
    ensures closed { OnOk result (AddsSegment (S.segments store.old) opened (F.contents file.now) (S.segments store.new)) }
{
    if store.sync(file).is_err() {
        return Err(SegmentFault::Sync);
    }
    if store.close(opened, file).is_err() {
        return Err(SegmentFault::Close);
    }
    Ok(())
}
