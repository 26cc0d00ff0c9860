//! The law of a tape as a whole. It is the contract of a function that does nothing.

ghost use Rattle.rb_tape.specs.TapeCalls.{CallsLeaveTape};

use std::io::Write;

/// States that `put`, `resume`, `put_all` and `write_out`, in any lawful order from a new writer on, leave a prefix of
/// the tape of the records that they began, and the whole tape if all of them returned Ok.
pub fn calls_leave_a_tape<W: Write>()
    ensures law { CallsLeaveTape W.contents }
{}
