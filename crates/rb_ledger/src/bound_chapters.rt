//! Binding chapters: joining their entries to one history.

ghost use Rattle.std.specs.Prelude.{◌≡◌, ◌↔◌, ◌++◌, ◌∷◌, [], IfOk, IsErrOf, IsTrue, replicate, length};
ghost use Rattle.rb_chapter_ring.specs.Snapshot.{no_tally};
ghost use Rattle.rb_chapter_ring.specs.Chapters.{empty_ring, joined};
ghost use Rattle.rb_chapter_ring.specs.WholeHistory.{Binds, IsBound};
ghost use Rattle.rb_ledger.specs.ChapterClosing.{AreNumberedFrom, EachGoesOn};
ghost use Rattle.rb_ledger.specs.ChapterHeadline.{AllLegal};
ghost use Rattle.rb_ledger.specs.inner.BindingLoops.{numbered_from, EachMeets, AreOpenedInTurn};

use rb_chapter_ring::Chapter;
use rb_history::{Entry, Tally};
use std::alloc::{AllocError, Global};
use thiserror::Error;

/// Why chapters can't be bound: the first of these that applies, in this order.
#[derive(Clone, Copy, Debug, Error, PartialEq, Eq)]
pub enum BindFault {
    /// The chapters, followed by the last one, are not numbered consecutively from 0.
    #[error("the chapters are not numbered 0 upward")]
    Number,
    /// The first chapter does not open an empty ring, or a chapter does not begin where the previous one ends: its
    /// opening is not the summary of all entries before it.
    #[error("the chapters do not go on from an empty ring")]
    Opening,
    /// Memory for the history could not be allocated.
    #[error("out of memory")]
    Memory,
}

/// Joins the entries of the chapters and of the last one to the whole history. Returns the first `BindFault` that
/// applies. Takes time linear in the number of entries, and in each chapter's untaken records and workers.
pub fn bind_chapters(
    alloc: Global,
    chapters: &[Chapter],
    last: &Chapter,
) -> Result<Vec<Entry>, BindFault>
    ensures number { IsErrOf result BindFault.Number ↔ ¬ AreNumberedFrom 0 (chapters.now ++ last.now ∷ []) }
    ensures opening { IsErrOf result BindFault.Opening ↔ (AreNumberedFrom 0 (chapters.now ++ last.now ∷ []) × ¬ EachGoesOn last.now.opening.setup [] (chapters.now ++ last.now ∷ [])) }
    ensures binds { IfOk result (λ history. Binds chapters.now last.now) }
    ensures bound { IfOk result (λ history. IsBound chapters.now last.now history.items) }
{
    if !are_numbered(chapters, last) {
        return Err(BindFault::Number);
    }
    facts_of_chapters(chapters, last);
    if !go_on(chapters, last) {
        return Err(BindFault::Opening);
    }
    let Ok(history) = join_entries(alloc, chapters, last) else {
        return Err(BindFault::Memory);
    };
    Ok(history)
}

// Returns whether the chapters, followed by the last one, are numbered consecutively from 0.
fn are_numbered(chapters: &[Chapter], last: &Chapter) -> bool
    ensures exact { IsTrue result ↔ AreNumberedFrom 0 (chapters.now ++ last.now ∷ []) }
{
    are_numbered_upward(chapters) && last.number() == chapters.len() as u64
}

// Returns whether the chapters without the last one are.
fn are_numbered_upward(chapters: &[Chapter]) -> bool
    ensures numbered { result ≡ numbered_from 0 chapters.now }
{
    let mut next = 0u64;
    for chapter in chapters {
        if chapter.number() != next {
            return false;
        }
        next += 1;
    }
    true
}

// The fact that each chapter is legal. For the proofs of callers; it does nothing at run time.
fn facts_of_chapters(chapters: &[Chapter], last: &Chapter)
    ensures legal { AllLegal (chapters.now ++ last.now ∷ []) }
{
    for chapter in chapters {
        chapter.facts();
    }
    last.facts();
}

// Returns whether the opening of each chapter is the summary of all entries before it, beginning with the empty
// history, given that their numbers are right.
fn go_on(chapters: &[Chapter], last: &Chapter) -> bool
    requires numbered { AreNumberedFrom 0 (chapters.now ++ last.now ∷ []) }
    requires legal { AllLegal (chapters.now ++ last.now ∷ []) }
    ensures exact { IsTrue result ↔ EachGoesOn last.now.opening.setup [] (chapters.now ++ last.now ∷ []) }
{
    are_opened(chapters, last)
}

// Returns whether the first chapter opens an empty ring and each further one begins where the previous one ends, given
// that their numbers are right.
fn are_opened(chapters: &[Chapter], last: &Chapter) -> bool
    requires numbered { AreNumberedFrom 0 (chapters.now ++ last.now ∷ []) }
    ensures exact { IsTrue result ↔ AreOpenedInTurn (chapters.now ++ last.now ∷ []) }
{
    match chapters.split_first() {
        None => opens_empty_ring(last),
        Some((first, rest)) => opens_empty_ring(first) && each_meets(first, rest, last),
    }
}

// Returns whether each chapter after `first` meets the previous one, and `last` meets the last of them.
fn each_meets(first: &Chapter, rest: &[Chapter], last: &Chapter) -> bool
    ensures exact { IsTrue result ↔ EachMeets first.now (rest.now ++ last.now ∷ []) }
{
    let mut earlier = first;
    for next in rest {
        if !earlier.meets(next) {
            return false;
        }
        earlier = next;
    }
    earlier.meets(last)
}

// Returns whether the chapter opens the empty ring of its setup.
fn opens_empty_ring(chapter: &Chapter) -> bool
    ensures exact { IsTrue result ↔ (chapter.now.opening ≡ empty_ring chapter.now.opening.setup) }
{
    chapter.facts();
    let opening = chapter.opening();
    let numbers = opening.numbers();
    if numbers.producer != numbers.start {
        return false;
    }
    if numbers.consumer != numbers.start {
        return false;
    }
    if numbers.consumed != 0 {
        return false;
    }
    if numbers.skipped != 0 {
        return false;
    }
    if !opening.records().is_empty() {
        return false;
    }
    are_none(opening.tallies())
}

// Returns whether all totals are those of a worker without entries.
fn are_none(tallies: &[Tally]) -> bool
    ensures exact { IsTrue result ↔ (tallies.now ≡ replicate (length tallies.now) no_tally) }
{
    for tally in tallies {
        if *tally != Tally::none() {
            return false;
        }
    }
    true
}

// Returns all entries.
fn join_entries(
    alloc: Global,
    chapters: &[Chapter],
    last: &Chapter,
) -> Result<Vec<Entry>, AllocError>
    ensures entries { IfOk result (λ history. history.items ≡ joined chapters.now ++ last.now.entries) }
{
    let mut history = Vec::new(alloc);
    for chapter in chapters {
        chapter.entries().append_to(&mut history)?;
    }
    last.entries().append_to(&mut history)?;
    Ok(history)
}
