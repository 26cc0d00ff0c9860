//! The ring of one thread that keeps a chapter. Of its calls only `new` allocates; its callers allocate sheets and
//! chapters.

ghost use Rattle.std.specs.Prelude.{◌≡◌, IfOk};

use super::memory::{TRIES, tell_memory};
use super::sheets::renew;
use super::snapshot::{HasSnapshot, RingSnapshot, sheet_beside, tell};
use crate::fault::TrialFault;
use rb_chapter_ring::{Chapter, OpenFault, RingState};
use rb_history::{CONS_POS, PROD_POS, Taken};
use rb_lend::Sheet;
use std::alloc::Global;
use std::io::Print;

/// The room of the chapters.
pub(crate) const ROOM: u32 = 8;

impl HasSnapshot for RingState {
    fn snapshot(&self) -> RingSnapshot {
        RingSnapshot {
            chapters: self.chapter().number(),
            entries: u64::from(self.chapter().used()),
            producer: self.query(PROD_POS),
            consumer: self.query(CONS_POS),
            counts: self.counts(),
        }
    }
}

/// Outputs and takes a record, hands out the ring's chapter, and renews the record's sheet.
pub(crate) fn run<R: Print>(rt: &R, alloc: Global) -> Result<(), TrialFault> {
    let mut ring = opened(rt, alloc)?;
    pass_and_hand_out(rt, alloc, &mut ring)
}

fn pass_and_hand_out<R: Print>(
    rt: &R,
    alloc: Global,
    ring: &mut RingState,
) -> Result<(), TrialFault>
    requires { ring.old.state.ring.chapter.opening.setup.workers ≡ 1 }
{
    let sheet = output_and_take(rt, alloc, ring)?;
    hand_out(rt, alloc, ring)?;
    renew(rt, sheet)
}

// Returns a ring of 4,096 bytes with one worker.
fn opened<R: Print>(rt: &R, alloc: Global) -> Result<RingState, TrialFault>
    ensures { IfOk result (λ ring. ring.state.ring.chapter.opening.setup.workers ≡ 1) }
{
    for _ in 0..TRIES {
        match RingState::new(alloc, 0, 4096, 0, 1, ROOM) {
            Ok(ring) => return Ok(ring),
            Err(OpenFault::Memory) => tell_memory(rt, "open"),
            Err(_) => return Err(TrialFault::Otherwise("open")),
        }
    }
    Err(TrialFault::Twice("open"))
}

// Outputs a long sheet, and takes it again.
fn output_and_take<R: Print>(
    rt: &R,
    alloc: Global,
    ring: &mut RingState,
) -> Result<Sheet, TrialFault>
    requires { ring.old.state.ring.chapter.opening.setup.workers ≡ 1 }
{
    tell(rt, "open", ring);
    let sheet = sheet_beside(rt, alloc, ring)?;
    if ring.output(0, sheet, 0).is_err() {
        return Err(TrialFault::Otherwise("output"));
    }
    tell(rt, "output", ring);
    match ring.take() {
        Taken::Event(_, _, _, sheet) => {
            tell(rt, "take", ring);
            Ok(sheet)
        }
        _ => Err(TrialFault::Otherwise("take")),
    }
}

// Lets the ring continue in another chapter.
fn hand_out<R: Print>(rt: &R, alloc: Global, ring: &mut RingState) -> Result<(), TrialFault> {
    let empty = empty_chapter(rt, alloc, ring)?;
    if ring.hand_out(empty).is_err() {
        return Err(TrialFault::Otherwise("hand out"));
    }
    tell(rt, "hand out", ring);
    Ok(())
}

// Returns an empty chapter for one worker, allocated while the ring exists.
fn empty_chapter<R: Print>(rt: &R, alloc: Global, ring: &RingState) -> Result<Chapter, TrialFault> {
    for _ in 0..TRIES {
        if let Ok(chapter) = Chapter::new(alloc, ROOM, 1) {
            return Ok(chapter);
        }
        tell(rt, "chapter memory", ring);
    }
    Err(TrialFault::Twice("chapter"))
}
