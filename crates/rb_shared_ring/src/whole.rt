//! Binding a closed ring and its chapters to the whole history.

ghost use Rattle.std.specs.Prelude.{◌≡◌, ◌↔◌, ◌++◌, ◌∷◌, [], IfOk, IfErr};
ghost use Rattle.rb_history.specs.Legal.{IsLegal};
ghost use Rattle.rb_chapter_ring.specs.Chapters.{joined};
ghost use Rattle.rb_chapter_ring.specs.WholeHistory.{IsBound};
ghost use Rattle.rb_ledger.specs.ChapterClosing.{AreNumberedFrom, EachGoesOn};
ghost use Rattle.rb_shared_ring.specs.BoundSeats.{IsNotBound, TiesAllSeats, GathersAllSeats};

use crate::closed_ring::Closing;
use rb_chapter_ring::Chapter;
use rb_history::Entry;
use rb_ledger::{BindFault, bind_chapters};
use std::alloc::Global;
use std::marker::Model;

/// A closed ring with the chapters to which it was bound, and its whole history: the entries of all chapters,
/// concatenated.
#[derive(Drop)]
pub struct Whole {
    closing: Closing,
    chapters: Vec<Chapter>,
    history: Vec<Entry>,
}

impl Model for Whole {
    ghost use Rattle.std.specs.Coded.{codes};
    ghost use Rattle.atomic_table.specs.Seated.{table_id_coded};
    ghost use Rattle.rb_history.specs.RingModel.{contents_code};
    ghost use Rattle.rb_history.specs.contracts.entries.Entry as entry;
    ghost use Rattle.rb_history.specs.contracts.tally.Tally as tally_row;
    ghost use Rattle.rb_chapter_ring.specs.WholeHistory.{IsBound};
    ghost use Rattle.rb_ledger.specs.ChapterClosing.{BoundRing};

    ghost Value = { BoundRing };

    ghost coded = { Prim.hlevel (codes, contents_code, table_id_coded, entry.the_row.coded, tally_row.the_row.coded) };

    ghost view = { λ w. record { closed = w.closing; chapters = w.chapters.items; history = w.history.items } };

    ghost invariant = { λ w. IsBound w.chapters.items w.closing.at_end.chapter w.history.items };
}

impl Whole {
    /// States the invariant: the whole history consists of the entries of its chapters, followed by those of the last
    /// one; it is legal; and its summary is the one at the end of the last chapter.
    pub fn facts(&self)
        ensures bound { IsBound self.now.chapters self.now.closed.at_end.chapter self.now.history }
    {
        let _ = &self.history;
    }

    /// Returns the closed ring, with its last chapter.
    pub fn closing(&self) -> &Closing
        ensures closed { result.now ≡ self.now.closed }
    {
        &self.closing
    }

    /// Returns the chapters to which it was bound, the oldest first, without the last one, which the closed ring has.
    pub fn chapters(&self) -> &[Chapter]
        ensures chapters { result.now ≡ self.now.chapters }
    {
        self.chapters.as_slice()
    }

    /// Returns the whole history, the oldest entry first.
    pub fn history(&self) -> &[Entry]
        ensures entries { result.now ≡ self.now.history }
    {
        self.history.as_slice()
    }
}

impl Closing {
    /// Concatenates the entries of the chapters and of the ring's last chapter to one history, which is legal.
    ///
    /// Returns the first `BindFault` that applies, with everything that was passed in. Whatever chapters were bound,
    /// all seats with which the ring was closed agree with the history. If the chapters are those that the ring handed
    /// out, it is the ring's whole history, and all seats are gathered. Takes time linear in the number of entries, and
    /// in each chapter's untaken records and workers.
    pub fn bind(
        self,
        alloc: Global,
        chapters: Vec<Chapter>,
    ) -> Result<Whole, (BindFault, Closing, Vec<Chapter>)>
        ensures number { IsNotBound BindFault.Number result ↔ ¬ AreNumberedFrom 0 (chapters.items ++ self.at_end.chapter ∷ []) }
        ensures opening { IsNotBound BindFault.Opening result ↔ (AreNumberedFrom 0 (chapters.items ++ self.at_end.chapter ∷ []) × ¬ EachGoesOn self.at_end.chapter.opening.setup [] (chapters.items ++ self.at_end.chapter ∷ [])) }
        ensures handed_back { IfErr result (λ e. (e.1 ≡ self) × (e.2.items ≡ chapters.items)) }
        ensures closed { IfOk result (λ w. w.closed ≡ self) }
        ensures chapters { IfOk result (λ w. w.chapters ≡ chapters.items) }
        ensures history { IfOk result (λ w. w.history ≡ joined chapters.items ++ self.at_end.chapter.entries) }
        ensures legal { IfOk result (λ w. IsLegal self.at_end.chapter.opening.setup w.history) }
        ensures tied { IfOk result (λ w. TiesAllSeats self.at_end w.history) }
        ensures gathered { IfOk result (λ w. GathersAllSeats self.at_end chapters.items w.history) }
    {
        match bind_chapters(alloc, &chapters, self.chapter()) {
            Ok(history) => Ok(Whole {
                closing: self,
                chapters,
                history,
            }),
            Err(fault) => Err((fault, self, chapters)),
        }
    }
}
