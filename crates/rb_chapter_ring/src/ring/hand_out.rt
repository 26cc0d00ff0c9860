//! The end of a chapter, which is handed out.

ghost use Rattle.std.specs.Prelude.{◌≡◌, ◌↔◌, IsTrue, IsOk, IfOk, IfErr, OnErr};
ghost use Rattle.rb_chapter_ring.specs.ChapterCalls.{HandsOut};
ghost use Rattle.rb_chapter_ring.specs.OpenedRing.{MayGoOnIn};

use crate::setup::is_fit;
use crate::{Chapter, RingState};
use std::mem;

impl RingState {
    /// Hands out the chapter as it is. The ring continues in `empty`, which becomes the next chapter; its opening is
    /// the summary of the old one at its end.
    ///
    /// Returns `empty` if it has entries, or another room or number of workers, or if the old chapter's number is 2^62.
    /// Takes time linear in the numbers of untaken records and of workers, and does not allocate.
    pub fn hand_out(&mut self, empty: Chapter) -> Result<Chapter, Chapter>
        ensures handed_out { IfOk result (λ out. HandsOut self.old.state.ring self.new.state.ring out) }
        ensures fit { IsOk result ↔ MayGoOnIn self.old.state.ring empty }
        ensures same_tag { self.new.tag ≡ self.old.tag }
        ensures same_hands { self.new.state.hands ≡ self.old.state.hands }
        ensures handed_back { IfErr result (λ back. back ≡ empty) }
        ensures unchanged { OnErr result (self.new ≡ self.old) }
    {
        if !self.may_go_on_in(&empty) {
            return Err(empty);
        }
        let mut next = empty;
        next.open_after(&self.chapter);
        Ok(mem::replace(&mut self.chapter, next))
    }

    // Returns whether the ring may continue in the chapter.
    fn may_go_on_in(&self, empty: &Chapter) -> bool
        ensures exact { IsTrue result ↔ MayGoOnIn self.now.state.ring empty.now }
    {
        is_fit(&self.chapter, empty)
    }
}
