//! The laws of tapes. A tape is the records that were taken from a ring, written one after the other: a submitted
//! record as its header, its bytes, and zeros up to a multiple of eight; a discarded one in the same way, with zeros
//! for its bytes.

ghost use Rattle.std.specs.Prelude.{◌≡◌, ℕ, List, length, ◌+◌, ◌++◌};
ghost use Rattle.rb_history.specs.TapeBytes.{Item, AreItemsFrom, tape, end_of};

/// States two facts about the tapes of a ring of any size and start. A sequence of bytes begins with the tape of at
/// most one list of a given number of items, so a tape can be read back in only one way. And a tape has as many bytes
/// as its items advance the positions.
///
/// The function does nothing; its contract is the law.
pub fn tapes_are_unique()
    ensures unique { (size start : ℕ) (items others : List Item) (rest more : List ℕ) →
        AreItemsFrom size start items → AreItemsFrom size start others → length items ≡ length others →
        tape size items ++ rest ≡ tape size others ++ more → items ≡ others }
    ensures covers { (size start : ℕ) (items : List Item) → start + length (tape size items) ≡ end_of start items }
{}
