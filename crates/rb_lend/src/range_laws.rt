//! The law of bytes that are written in a range. It is the contract of a function that does nothing.

ghost use Rattle.rb_lend.specs.RangeLaws.{RangesAreAlone};

/// States that bytes which overwrite equally many others can be read back from their range, and that the bytes before
/// and after the range do not change.
///
/// The function does nothing; its contract is the law.
pub fn a_range_is_written_alone()
    ensures { RangesAreAlone }
{}
