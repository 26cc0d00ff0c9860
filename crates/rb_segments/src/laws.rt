//! The law of joined segments.

ghost use Rattle.std.specs.Prelude.{◌≡◌, ℕ, List};
ghost use Rattle.rb_history.specs.TapeBytes.{tape, Item};
ghost use Rattle.rb_segments.specs.Segments.{AreSegmentsOf, joined, Segment};

/// States that the concatenated bytes of segments which hold these records are the tape of the records.
///
/// The function does nothing; its contract is the law.
pub fn joined_segments_are_the_tape()
    ensures law { (size start : ℕ) (segments : List Segment) (items : List Item) → AreSegmentsOf size start segments items → joined segments ≡ tape size items }
{}
