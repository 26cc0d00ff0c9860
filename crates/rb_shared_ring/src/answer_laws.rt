//! A law of the calls on a shared ring, as the contract of a function that does nothing.

ghost use Rattle.rb_shared_ring.specs.AnswersOverAll.{EachAnswerIsWhole};

/// States that a reservation and an output, each with its result, are the same calls on a ring that keeps its whole
/// history, so what is proved of `rb_ledger`'s ring holds of them. There, a lack of room for entries is a refusal that
/// changes nothing. The contracts of the other calls state this themselves.
///
/// The function does nothing; its contract is the law.
pub fn each_answer_is_whole()
    ensures law { EachAnswerIsWhole }
{}
