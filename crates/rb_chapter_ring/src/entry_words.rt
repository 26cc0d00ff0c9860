//! An entry as a chapter stores it, in eight bytes.

ghost use Rattle.std.specs.Prelude.{ℕ, ◌≡◌, ◌+◌, ◌<◌, ◌^◌, List};
ghost use Rattle.rb_history.specs.declared.entries.Entry.TheVariants.{Res, Full, Take};
ghost use Rattle.rb_history.specs.declared.tally.Tally.{Tally};
ghost use Rattle.rb_history.specs.History.{granted_span};
ghost use Rattle.rb_chapter_ring.specs.RecordEnds.{entry_of_end};
ghost use Rattle.rb_chapter_ring.specs.inner.EntryWords.{entry_of, made_before, IsWithin};
ghost use Rattle.rb_chapter_ring.specs.inner.EntryWords as words;

use crate::record_end::RecordEnd;
use rb_history::{Entry, Tally, span};

// The kinds of entries that name a record by its position: the two lowest bits of their words. Both bits of any other
// word are 0, and its third bit is 1 for a grant.
const SUBMIT: u64 = 1;

const DISCARD: u64 = 2;

const TAKE: u64 = 3;

const GRANT: u64 = 4;

#[inline(always)]
/// Returns the word of a grant to the worker, of a record of `len` bytes; `later` is its serial, counted from the
/// opening on.
pub(crate) fn grant_word(worker: u32, later: u64, len: u32) -> u64
    requires worker { worker < 256 }
    requires later { later < 2 ^ 20 }
    ensures word { (tallies : List Tally) (p : ℕ) → entry_of tallies p result ≡ Res worker (made_before tallies worker + later) len p }
{
    GRANT + u64::from(len) * 8 + u64::from(worker) * 0x8_0000_0000 + later * 0x800_0000_0000
}

/// Returns the word of a refusal of the worker, which requested `len` bytes.
pub(crate) fn refusal_word(worker: u32, len: u32) -> u64
    requires worker { worker < 256 }
    ensures word { (tallies : List Tally) (p : ℕ) → entry_of tallies p result ≡ Full worker len }
{
    u64::from(len) * 8 + u64::from(worker) * 0x8_0000_0000
}

#[inline(always)]
/// Returns the word of the commit of the record at this position.
pub(crate) fn end_word(end: RecordEnd, pos: u64) -> u64
    requires limit { pos < 2 ^ 62 }
    ensures word { (tallies : List Tally) (p : ℕ) → entry_of tallies p result ≡ entry_of_end end pos }
{
    match end {
        RecordEnd::Submit => pos * 4 + SUBMIT,
        RecordEnd::Discard => pos * 4 + DISCARD,
    }
}

#[inline(always)]
/// Returns the word of the take of the record at this position.
pub(crate) fn take_word(pos: u64) -> u64
    requires limit { pos < 2 ^ 62 }
    ensures word { (tallies : List Tally) (p : ℕ) → entry_of tallies p result ≡ Take pos }
{
    pos * 4 + TAKE
}

/// Returns the entry of a word, at this producer position; `tallies` are the totals of the opening.
pub(crate) fn entry_at(word: u64, producer: u64, tallies: &[Tally]) -> Entry
    requires within { IsWithin tallies.now producer (entry_of tallies.now producer word) }
    ensures entry { result ≡ entry_of tallies.now producer word }
{
    match word % 4 {
        SUBMIT => Entry::Sub(word / 4),
        DISCARD => Entry::Dis(word / 4),
        TAKE => Entry::Take(word / 4),
        _ => grant_or_refusal(word, producer, tallies),
    }
}

// Returns the entry of a word that grants a record or refuses one.
fn grant_or_refusal(word: u64, producer: u64, tallies: &[Tally]) -> Entry
    requires within { IsWithin tallies.now producer (words.grant_or_refusal tallies.now producer word) }
    ensures entry { result ≡ words.grant_or_refusal tallies.now producer word }
{
    let worker = (word / 0x8_0000_0000 % 256) as u32;
    let len = (word / 8 % 0x1_0000_0000) as u32;
    if word % 8 != GRANT {
        return Entry::Full(worker, len);
    }
    let serial = tallies[worker as usize].made + word / 0x800_0000_0000;
    Entry::Res(worker, serial, len, producer)
}

/// Returns the producer position after an entry.
pub(crate) fn producer_after(producer: u64, entry: Entry) -> u64
    requires limit { producer + granted_span entry < 2 ^ 64 }
    ensures position { result ≡ producer + granted_span entry }
{
    match entry {
        Entry::Res(_, _, len, _) => producer + span(len),
        _ => producer,
    }
}
