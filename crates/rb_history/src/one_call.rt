//! Laws of histories, each the contract of a function that does nothing.

ghost use Rattle.rb_history.specs.OneCall.{EachEntryIsOneCall};

/// States that every legal history that extends a ring's history by one entry is the result of one call: a reserve, a
/// submit, a discard or a take. Since a ring's calls keep its history legal, the legal histories are exactly those that
/// calls can produce.
///
/// The function does nothing; its contract is the law.
pub fn each_entry_is_one_call()
    ensures law { EachEntryIsOneCall }
{}
