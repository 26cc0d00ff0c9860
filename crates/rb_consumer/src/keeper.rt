//! Keepers, with which a ring's consumer hands out chapters.

ghost use Rattle.std.specs.Prelude.{◌≡◌, ◌≢◌, ◌<◌, ◌^◌, ◌↔◌, ◌++◌, false, IfOk, IfErr, IfSome, IsErr, IsErrOf, OnErr, IsTrue, None, length};
ghost use Rattle.rb_ledger.specs.ChapterSeats.{IsFitChapter};
ghost use Rattle.rb_shared_ring.specs.SharedSeats.{IsSameChapterConsumer, TakesNothing};
ghost use Rattle.rb_shared_ring.specs.declared.chapters.HandFault.TheVariants as HandFault;
ghost use Rattle.rb_consumer.specs.Turns.{IsTurnDue, IsOfRing, TurnsChapter, chapters_lent};
ghost use Rattle.rb_consumer.specs.inner.KeeperTurns.{chapters_handed};

use rb_chapter_ring::{COUNT_LIMIT, Chapter};
use rb_shared_ring::{ConsumerSeat, HandFault, SharedRing};
use std::marker::Model;
use std::sync::Wait;

/// A keeper hands out a ring's chapter (a bounded segment of its history) when it is nearly full. It has one empty
/// chapter, in which the ring continues; it lends the old one and then reuses it. So a ring that runs without end needs
/// the memory of two chapters.
#[derive(Drop)]
pub struct Keeper {
    // There is one except during a call. It has no entries, or those that the last turn lent.
    kept: Option<Chapter>,
    margin: u32,
    is_lent: bool,
}

impl Model for Keeper {
    ghost use Rattle.std.specs.Prelude.{◌≡◌, true, is_some};
    ghost use Rattle.std.specs.Coded.{codes};
    ghost use Rattle.rb_history.specs.contracts.entries.Entry as entry;
    ghost use Rattle.rb_history.specs.contracts.tally.Tally as tally_row;
    ghost use Rattle.rb_consumer.specs.Keepers.{KeeperValue};
    ghost use Rattle.rb_consumer.specs.inner.KeeperTurns.{kept_chapter};

    ghost Value = { KeeperValue };

    ghost coded = { Prim.hlevel (codes, entry.the_row.coded, tally_row.the_row.coded) };

    ghost view = { λ k. record { chapter = kept_chapter k.kept; margin = k.margin; is_lent = k.is_lent } };

    ghost invariant = { λ k. is_some k.kept ≡ true };
}

impl Keeper {
    ghost use Rattle.std.specs.Borrow.{sem};
    ghost use Rattle.std.specs.Io.BufRead.{Rests};
    ghost use Rattle.rb_consumer.specs.Keepers.{KeepsLent, handed_in};
    ghost use Rattle.rb_consumer.specs.contracts.keeper.Keeper.{the_row};

    /// Returns a keeper that uses this chapter. Its turns hand out a ring's chapter when it has no room for another
    /// grant.
    ///
    /// The keeper fits a ring if the chapter has no entries, and the same room and number of workers as the ring.
    pub fn new(chapter: Chapter) -> Keeper
        ensures keeper { result ≡ record { chapter = chapter; margin = 0; is_lent = false } }
    {
        Keeper::with_margin(chapter, 0)
    }

    /// Returns a keeper like that of `new`, whose turns hand out a ring's chapter `margin` entries earlier: as many as
    /// the workers may add until the consumer's next turn. `chapters_are_full_after_their_ring` states which margin is
    /// enough.
    pub fn with_margin(chapter: Chapter, margin: u32) -> Keeper
        ensures keeper { result ≡ record { chapter = chapter; margin = margin; is_lent = false } }
    {
        Keeper {
            kept: Some(chapter),
            margin,
            is_lent: false,
        }
    }

    /// Looks at the ring's chapter, under the lock, and hands it out if that is due. It is due if the chapter has
    /// entries, and these, the entries that its records will still log, three for another grant, and the margin exceed
    /// its room.
    ///
    /// A chapter that is due is replaced by the kept one, and is returned as it was under the lock. It is lent until
    /// the next call, which clears it and reuses it. Otherwise returns `None`, and the keeper does not change.
    ///
    /// Returns `Foreign` or else `Unfit` before looking at the chapter. A keeper that fits a ring once fits it from
    /// then on, until the last chapter number. Does not allocate. A turn that hands out takes time linear in the
    /// numbers of untaken records and of workers; any other turn takes constant time.
    pub fn turn<R: Wait>(
        &mut self,
        rt: &R,
        ring: &SharedRing,
        seat: &mut ConsumerSeat,
    ) -> Result<Option<&Chapter>, HandFault>
        requires ring { seat.old.tag ≡ ring.now.tag → seat.old.ring ≡ ring.now.ring }
        ensures* keeper { sem 𝓛 (Rests the_row self.entry (λ new. KeepsLent self.old new result)) }
        ensures foreign { IsErrOf result HandFault.Foreign ↔ (seat.old.tag ≢ ring.now.tag) }
        ensures unfit { IsErrOf result HandFault.Unfit ↔ ((seat.old.tag ≡ ring.now.tag) × ¬ IsFitChapter seat.old (handed_in self.old)) }
        ensures unchanged { OnErr result (seat.new ≡ seat.old) }
        ensures seat { IsSameChapterConsumer seat.old seat.new }
        ensures setup { seat.new.seen.setup ≡ seat.old.seen.setup }
        ensures numbers { TakesNothing seat.old seat.new }
        ensures released { (seat.old.out ≡ None) × (seat.new.out ≡ None) }
        ensures turn { IfOk result (λ lent. TurnsChapter self.old.margin seat.old seat.new (chapters_lent lent)) }
        ensures chapters { IfOk result (λ lent. seat.new.handed_out ≡ seat.old.handed_out ++ chapters_lent lent) }
        ensures number { IfOk result (λ lent. IfSome lent (λ c. c.now.number ≡ length seat.old.handed_out)) }
        ensures fits { IfOk result (λ lent. IfSome lent (λ c. IsOfRing seat.old c.now)) }
    {
        seat.facts();
        if seat.tag() != ring.tag() {
            return Err(HandFault::Foreign);
        }
        if !self.is_fit(seat) {
            return Err(HandFault::Unfit);
        }
        let kept = match self.kept.take() {
            Some(kept) => kept,
            None => unreachable!(),
        };
        match hand_out_due(rt, ring, seat, self.margin, kept) {
            Ok(chapter) => {
                self.kept = Some(chapter);
                self.is_lent = true;
                Ok(self.kept.as_ref())
            }
            Err(kept) => {
                self.kept = Some(kept);
                Ok(None)
            }
        }
    }

    /// Returns the keeper's chapter: the one that it was created with, or the last one that it lent.
    pub fn into_chapter(self) -> Chapter
        ensures chapter { result ≡ self.chapter }
    {
        match self.kept {
            Some(chapter) => chapter,
            None => unreachable!(),
        }
    }

    // Returns whether the ring may continue in the chapter that the next turn passes to it.
    fn is_fit(&self, seat: &ConsumerSeat) -> bool
        ensures exact { IsTrue result ↔ IsFitChapter seat.now (handed_in self.now) }
    {
        match &self.kept {
            Some(chapter) => {
                let ring = seat.numbers();
                (self.is_lent || chapter.used() == 0)
                    && chapter.room() == ring.room
                    && chapter.opening().numbers().workers == ring.workers
                    && seat.chapters() < COUNT_LIMIT
            }
            None => unreachable!(),
        }
    }
}

// Hands out the ring's chapter in exchange for the kept one if it is due. Otherwise returns the kept one.
fn hand_out_due<R: Wait>(
    rt: &R,
    ring: &SharedRing,
    seat: &mut ConsumerSeat,
    margin: u32,
    kept: Chapter,
) -> Result<Chapter, Chapter>
    requires tag { seat.old.tag ≡ ring.now.tag }
    requires ring { seat.old.ring ≡ ring.now.ring }
    requires room { kept.room ≡ seat.old.room }
    requires workers { kept.opening.setup.workers ≡ seat.old.seen.setup.workers }
    requires next_number { length seat.old.handed_out < 2 ^ 62 }
    ensures seat { IsSameChapterConsumer seat.old seat.new }
    ensures setup { seat.new.seen.setup ≡ seat.old.seen.setup }
    ensures numbers { TakesNothing seat.old seat.new }
    ensures released { (seat.old.out ≡ None) × (seat.new.out ≡ None) }
    ensures turn { TurnsChapter margin seat.old seat.new (chapters_handed result) }
    ensures chapters { seat.new.handed_out ≡ seat.old.handed_out ++ chapters_handed result }
    ensures same { IfErr result (λ c. c ≡ kept) }
    ensures number { IfOk result (λ c. c.number ≡ length seat.old.handed_out) }
    ensures fits { IfOk result (λ c. IsOfRing seat.old c) }
{
    seat.facts();
    let (entries, more) = match ring.used(rt, seat) {
        Ok(told) => told,
        Err(_) => unreachable!(),
    };
    if !is_due(margin, seat.numbers().room, entries, more) {
        return Err(kept);
    }
    let mut empty = kept;
    empty.clear();
    match ring.hand_out(rt, seat, empty) {
        Ok(chapter) => Ok(chapter),
        Err(_) => unreachable!(),
    }
}

// Returns whether a chapter of this room is due, with `entries` entries and `more` that it owes.
fn is_due(margin: u32, room: u32, entries: u32, more: u32) -> bool
    ensures exact { IsTrue result ↔ IsTurnDue margin room entries more }
{
    let wanted = u64::from(entries) + u64::from(more) + 3 + u64::from(margin);
    entries > 0 && wanted > u64::from(room)
}
