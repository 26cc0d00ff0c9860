//! Switching to a spare chapter before the current one is full, so that a ring runs in the memory that it was opened
//! with.

ghost use Rattle.std.specs.Prelude.{ℕ, ◌≡◌, ◌<◌, ◌^◌, OnOk};
ghost use Rattle.rb_chapter_ring.specs.ChapterRoom.{MayGrant};
ghost use Rattle.rb_chapter_ring.specs.ChapterCalls.{AllTakenByChapter};
ghost use Rattle.rb_tape_commands.specs.ChapterTurns.{IsSpareOf, MakesChapterRoom};

use rb_chapter_ring::{Chapter, RingState};

#[inline]
/// Makes a ring in which every record was taken continue in the spare chapter, if its own chapter has no room for the
/// entries of one more record: its grant, its submit and its take. The old chapter is emptied and becomes the spare
/// one.
pub(crate) fn make_chapter_room(ring: &mut RingState, spare: &mut Option<Chapter>)
    requires all_taken { AllTakenByChapter ring.old.state.ring }
    requires number { ring.old.state.ring.chapter.number < 2 ^ 62 }
    requires spare { IsSpareOf ring.old.state.ring spare.old }
    ensures turned { MakesChapterRoom ring.old.state.ring ring.new.state.ring }
    ensures room { MayGrant ring.new.state.ring.chapter }
    ensures spare { IsSpareOf ring.new.state.ring spare.new }
{
    if !ring.chapter().may_grant() {
        turn_chapter(ring, spare);
    }
}

#[cold]
#[inline(never)]
// Hands out the ring's chapter in exchange for the spare one.
fn turn_chapter(ring: &mut RingState, spare: &mut Option<Chapter>)
    requires all_taken { AllTakenByChapter ring.old.state.ring }
    requires full { ¬ MayGrant ring.old.state.ring.chapter }
    requires number { ring.old.state.ring.chapter.number < 2 ^ 62 }
    requires spare { IsSpareOf ring.old.state.ring spare.old }
    ensures turned { MakesChapterRoom ring.old.state.ring ring.new.state.ring }
    ensures room { MayGrant ring.new.state.ring.chapter }
    ensures spare { IsSpareOf ring.new.state.ring spare.new }
{
    ring.facts();
    let Some(empty) = spare.take() else {
        unreachable!()
    };
    let Ok(mut full) = ring.hand_out(empty) else {
        unreachable!()
    };
    full.clear();
    *spare = Some(full);
}
