//! Opens a store: starts a tape, or continues the stored one.

ghost use Rattle.std.specs.Prelude.{◌≡◌, [], ◌∷◌, ◌++◌, None, Some, IfOk, IfSome, OnOk, map};
ghost use Rattle.rb_history.specs.RingModel.{IsRingSize, IsStartPosition};
ghost use Rattle.rb_segments.specs.Known.{HavePositions};
ghost use Rattle.rb_segments.specs.SegmentTape.{HasWritten, IsSetUp};
ghost use Rattle.rb_segments.specs.Restart.{EndsAt, Resumes};

use crate::fault::OpeningFault;
use crate::plan::SegmentPlan;
use crate::store::SegmentStore;
use crate::stored_segment::StoredSegment;
use crate::writer::SegmentWriter;
use rb_history::is_start;
use rb_io::Outgoing;
use rb_tape::{TapeWriter, count_records};
use std::alloc::{AllocError, Global};
use std::collections::VecDeque;

impl<S: SegmentStore<F>, F: Outgoing + Drop> SegmentWriter<S, F> {
    /// Opens a store, and returns a writer for its tape.
    ///
    /// If the store has no segments, the tape starts at position `start`. Otherwise the newest segment is truncated
    /// after its last complete record, and the tape continues there. Reads the newest segment into memory.
    pub fn open(
        alloc: Global,
        mut store: S,
        size: u64,
        start: u64,
        plan: SegmentPlan,
    ) -> Result<SegmentWriter<S, F>, OpeningFault>
    where
        S: Drop,
        requires size { IsRingSize size }
        requires start { IsStartPosition start }
        requires none_created { IfSome (S.created store) (λ created. created ≡ []) }
        ensures fresh { IfOk result (λ t. S.segments store ≡ Some [] → HasWritten S.segments F.contents start [] [] t) }
        ensures resumed { IfOk result (λ t. Resumes S.segments F.contents size store t) }
        ensures set_up { IfOk result (IsSetUp size plan) }
        ensures may_start { IfOk result (λ t. IsStartPosition t.position) }
    {
        let Ok(list) = store.list(alloc) else {
            return Err(OpeningFault::Device);
        };
        match list.as_slice().split_last() {
            Some((newest, older)) => resume(alloc, store, size, plan, newest.position, older),
            None => match SegmentWriter::new(alloc, store, size, start, plan) {
                Ok(writer) => Ok(writer),
                Err(_) => Err(OpeningFault::Device),
            },
        }
    }
}

// Continues after the complete records of the newest segment.
fn resume<S: SegmentStore<F> + Drop, F: Outgoing + Drop>(
    alloc: Global,
    mut store: S,
    size: u64,
    plan: SegmentPlan,
    opened: u64,
    older: &[StoredSegment],
) -> Result<SegmentWriter<S, F>, OpeningFault>
    requires size { IsRingSize size }
    requires none_created { IfSome (S.created store) (λ created. created ≡ []) }
    requires positions { HavePositions (map (λ s. s.position) older.now ++ opened ∷ []) (S.segments store) }
    ensures resumed { IfOk result (λ t. Resumes S.segments F.contents size store t) }
    ensures set_up { IfOk result (IsSetUp size plan) }
    ensures may_start { IfOk result (λ t. IsStartPosition t.position) }
{
    let closed = positions(alloc, older)?;
    let Ok(bytes) = store.read_newest(alloc, opened) else {
        return Err(OpeningFault::Device);
    };
    let whole = whole_length(bytes.as_slice(), size, opened)?;
    let position = opened.saturating_add(whole);
    if !is_start(position) {
        return Err(OpeningFault::Position(opened));
    }
    let Ok(file) = store.reopen(opened, whole) else {
        return Err(OpeningFault::Device);
    };
    Ok(SegmentWriter {
        store,
        tape: TapeWriter::new(file, size, position),
        first: closed.front().copied().unwrap_or(opened),
        closed,
        opened,
        size,
        position,
        plan,
        fault: None,
        unwritten: 0,
    })
}

// Returns the positions of the segments.
fn positions(alloc: Global, list: &[StoredSegment]) -> Result<VecDeque<u64>, AllocError>
    ensures positions { IfOk result (λ p. p.items ≡ map (λ s. s.position) list.now) }
{
    let mut positions = VecDeque::new(alloc);
    for segment in list {
        positions.push_back(segment.position)?;
    }
    Ok(positions)
}

// Returns how many bytes the complete records of a segment take up.
fn whole_length(bytes: &[u8], size: u64, opened: u64) -> Result<u64, OpeningFault>
    requires size { IsRingSize size }
    ensures start { OnOk result (IsStartPosition opened) }
    ensures ends { IfOk result (λ whole. EndsAt size opened bytes.now whole) }
{
    match count_records(bytes, size, opened) {
        Ok((_, None)) => Ok(bytes.len() as u64),
        Ok((_, Some(fault))) => Ok(fault.offset),
        Err(_) => Err(OpeningFault::Position(opened)),
    }
}
