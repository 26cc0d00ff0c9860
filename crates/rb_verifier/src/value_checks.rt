//! Checks on one abstract value. Each returns the first rule that is broken.

ghost use Rattle.std.specs.Prelude.{◌≡◌};
ghost use Rattle.rb_verifier.specs.ValueChecks.{check_writable, check_readable, check_number, check_tested, check_not_context, check_ring, check_part_pointer, check_known_size, check_record_size, check_record_start};

use crate::rule::Rule;
use crate::value::Abs;
use rb_insn::Reg;

/// The maximal length in bytes of a record that a program may reserve: the size of the largest ring. `MAX_RECORD_LEN` of
/// `rb_history` names the other limits of a record's length.
const MAX_RECORD: u64 = 1 << 26;

/// Checks that the register is not the frame pointer r10, which must not be written.
pub(crate) fn check_writable(register: Reg) -> Result<(), Rule>
    ensures { result ≡ check_writable register }
{
    if register.number == 10 {
        Err(Rule::FramePointerWritten)
    } else {
        Ok(())
    }
}

/// Checks that the register may be read.
pub(crate) fn check_readable(value: Abs) -> Result<(), Rule>
    ensures { result ≡ check_readable value }
{
    match value {
        Abs::Unreadable => Err(Rule::Unreadable),
        _ => Ok(()),
    }
}

/// Checks that the register may be read and holds a number. Returns `at_pointer` if it holds a pointer.
pub(crate) fn check_number(at_pointer: Rule, value: Abs) -> Result<(), Rule>
    ensures { result ≡ check_number at_pointer value }
{
    match value {
        Abs::Unreadable => Err(Rule::Unreadable),
        Abs::Number | Abs::Known(_) => Ok(()),
        _ => Err(at_pointer),
    }
}

/// Checks that the register may be read and is not a reservation that was not tested against null.
pub(crate) fn check_tested(value: Abs) -> Result<(), Rule>
    ensures { result ≡ check_tested value }
{
    match value {
        Abs::Unreadable => Err(Rule::Unreadable),
        Abs::Perhaps(_) => Err(Rule::NullNotTested),
        _ => Ok(()),
    }
}

/// Checks that the register may be read and does not point to the context, which must not be written.
pub(crate) fn check_not_context(value: Abs) -> Result<(), Rule>
    ensures { result ≡ check_not_context value }
{
    match value {
        Abs::Unreadable => Err(Rule::Unreadable),
        Abs::Ctx(_) => Err(Rule::ContextWritten),
        _ => Ok(()),
    }
}

/// Returns the number of the argument's ring.
pub(crate) fn check_ring(value: Abs) -> Result<u32, Rule>
    ensures { result ≡ check_ring value }
{
    match value {
        Abs::Unreadable => Err(Rule::Unreadable),
        Abs::Ring(ring) => Ok(ring),
        _ => Err(Rule::HelperArgument),
    }
}

/// Checks that the argument is a pointer into a part.
pub(crate) fn check_part_pointer(value: Abs) -> Result<(), Rule>
    ensures { result ≡ check_part_pointer value }
{
    match value {
        Abs::Ctx(_) | Abs::Stack(_) | Abs::Record(_, _) => Ok(()),
        _ => Err(Rule::HelperArgument),
    }
}

/// Returns the argument, which must be a known number.
pub(crate) fn check_known_size(value: Abs) -> Result<u64, Rule>
    ensures { result ≡ check_known_size value }
{
    match value {
        Abs::Unreadable => Err(Rule::Unreadable),
        Abs::Known(size) => Ok(size),
        _ => Err(Rule::SizeNotKnown),
    }
}

/// Returns the argument, which must be a known number and a valid length of a record.
pub(crate) fn check_record_size(value: Abs) -> Result<u32, Rule>
    ensures { result ≡ check_record_size value }
{
    match value {
        Abs::Unreadable => Err(Rule::Unreadable),
        Abs::Known(size) if size <= MAX_RECORD => Ok(size as u32),
        _ => Err(Rule::SizeNotKnown),
    }
}

/// Returns the id of the record whose first byte the argument points to.
pub(crate) fn check_record_start(value: Abs) -> Result<u32, Rule>
    ensures { result ≡ check_record_start value }
{
    match value {
        Abs::Unreadable => Err(Rule::Unreadable),
        Abs::Perhaps(_) => Err(Rule::NullNotTested),
        Abs::Record(id, 0) => Ok(id),
        _ => Err(Rule::HelperArgument),
    }
}
