//! The law that the sizes of reads do not matter.

ghost use Rattle.rb_source.specs.Agreement.{AgreeOnContexts};

use std::io::Read;

/// States that two new sources over readers of the same input, with the same framing and the same form, give the same
/// contexts in the same order until the end of the stream, and have equal counts, however the reads cut the input.
///
/// The function does nothing; its contract is the law.
pub fn sources_agree<A: Read, B: Read>()
    ensures law { AgreeOnContexts A.remaining B.remaining }
{}
