//! The entries of a chapter, which are read in full.

ghost use Rattle.std.specs.Prelude.{◌≡◌, ◌++◌, ◌↔◌, IfOk, IsTrue, length};

use crate::entry_words::{entry_at, producer_after};
use rb_history::{Entry, Tally};
use std::alloc::AllocError;
use std::marker::Model;

/// The entries of a chapter, the oldest first: an iterator over them, which contracts see as the list of those that are
/// left. A chapter stores eight bytes for each. Each step takes constant time and does not allocate; to read one in the
/// middle takes the steps before it.
#[derive(Drop)]
pub struct Entries<'a> {
    pub(crate) words: &'a [u64],
    pub(crate) tallies: &'a [Tally],
    // The producer position where they begin.
    pub(crate) producer: u64,
}

impl<'a> Model for Entries<'a> {
    ghost use Rattle.std.specs.Prelude.{List};
    ghost use Rattle.rb_history.specs.declared.entries.Entry.{Entry};
    ghost use Rattle.rb_chapter_ring.specs.inner.EntryWords.{entries_of, AreWithin};

    ghost Value = { List Entry };

    ghost view = { λ e. entries_of e.tallies.now e.producer e.words.now };

    ghost invariant = { λ e. AreWithin e.tallies.now e.producer e.words.now };
}

impl<'a> Entries<'a> {
    /// Returns how many are left. Takes constant time.
    pub fn len(&self) -> usize
        ensures many { result ≡ length self.now }
    {
        self.words.len()
    }

    /// Returns whether none is left. Takes constant time.
    pub fn is_empty(&self) -> bool
        ensures exact { IsTrue result ↔ (length self.now ≡ 0) }
    {
        self.len() == 0
    }

    /// Appends the entries that are left to a history.
    pub fn append_to(self, history: &mut Vec<Entry>) -> Result<(), AllocError>
        ensures appended { IfOk result (λ _. history.new.items ≡ history.old.items ++ self.entry) }
    {
        for entry in self {
            history.push(entry)?;
        }
        Ok(())
    }
}

impl<'a> Iterator for Entries<'a> {
    ghost use Rattle.std.specs.Prelude.{length};
    ghost use Rattle.std.specs.Iterator.{at_most};
    ghost use Rattle.rb_chapter_ring.specs.ChapterEntries.{GivesEntry};

    type Item = Entry;

    ghost next_gives = { λ old result new. GivesEntry old result new };

    ghost remaining = { λ s. at_most (length s) };

    /// Returns the next entry.
    fn next(&mut self) -> Option<Entry> {
        if self.words.is_empty() {
            return None;
        }
        let words = self.words;
        let entry = entry_at(words[0], self.producer, self.tallies);
        self.words = &words[1..];
        self.producer = producer_after(self.producer, entry);
        Some(entry)
    }
}
