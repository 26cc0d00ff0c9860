//! The room that a chapter needs between two looks at it, as the contract of a function that does nothing.

ghost use Rattle.rb_consumer.specs.BetweenLooks.{FullOnlyAfterTheRing};

/// States that no reservation and no output finds a chapter full before its ring was, if the chapter's room and its
/// keeper's margin are enough for the ring's size, and since the keeper's last look no more records were taken and no
/// more refusals logged than the two allow for.
///
/// The premises concern only the history: it is up to the keeper's caller to make it look that often. The function does
/// nothing; its contract is the law.
pub fn chapters_are_full_after_their_ring()
    ensures law { FullOnlyAfterTheRing }
{}
