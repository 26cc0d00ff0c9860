//! Loads and stores of pointers that the program spills to the stack.

ghost use Rattle.std.specs.Prelude.{◌≡◌, ◌+◌, ◌≤◌, ◌+ℤ◌, true, false, Some, Ok, Err, IfOk, IfErr};
ghost use Rattle.rb_verifier.specs.Extents.{contains_range, stack_extent};
ghost use Rattle.rb_verifier.specs.StackPlaces.{stack_byte};
ghost use Rattle.rb_verifier.specs.KeptPointers.{known_in, byte_behind, is_data, check_data, check_loaded, check_kept, check_stored};
ghost use Rattle.rb_verifier.specs.ValueChecks.{check_inside};
ghost use Rattle.rb_verifier.specs.inner.StackReach.{IsPlaceOrNone, IsPlaced, LiesInside};

use crate::extents::reaches;
use crate::limits::Limits;
use crate::places::{Places, whole_place};
use crate::references::Held;
use crate::rule::{Rule, StepFault};
use crate::value::Abs;
use crate::value_checks::{check_number, check_readable};

/// The length of the stack in bytes.
const STACK_LEN: i64 = 512;

#[tactic(auto, using(crate::proofs::Numbers::on_stack))]
/// Returns `offset + by`, where the `len` bytes from there on lie on the stack.
fn offset_plus(offset: i64, by: i64, len: u64) -> i64
    requires { contains_range stack_extent (offset +ℤ by) len ≡ true }
    ensures { result ≡ offset +ℤ by }
{
    let _ = len;
    offset + by
}

#[tactic(auto, using(crate::proofs::Numbers::on_stack, crate::proofs::Numbers::byte_on_stack))]
/// Returns the index of the stack byte at an offset, counted from the first byte of the stack. The `len` bytes from
/// there on lie on the stack.
fn stack_byte(offset: i64, len: u64) -> u64
    requires { contains_range stack_extent offset len ≡ true }
    ensures byte { stack_byte offset ≡ Some result }
    ensures inside { result + len ≤ 512 }
{
    let _ = len;
    (offset + STACK_LEN) as u64
}

/// Checks that the `len` bytes at `value + by` lie in the pointer's part.
///
/// Returns the index of the first byte if that part is the stack, and `None` for any other part.
pub(crate) fn check_reach(
    limits: Limits,
    held: &Held,
    value: Abs,
    by: i64,
    len: u64,
) -> Result<Option<u64>, Rule>
    ensures reach { IfOk result (λ _. check_inside limits held.now value by len ≡ Ok tt) }
    ensures byte { IfOk result (λ byte. byte ≡ byte_behind value by) }
    ensures inside { IfOk result (LiesInside len) }
    ensures refused { IfErr result (λ broken. check_inside limits held.now value by len ≡ Err broken) }
{
    if !reaches(limits, held, value, by, len) {
        return Err(Rule::OutsidePart);
    }
    match value {
        Abs::Stack(offset) => Ok(Some(stack_byte(offset_plus(offset, by, len), len))),
        _ => Ok(None),
    }
}

/// Checks that bytes that are read as data contain no part of a pointer.
pub(crate) fn check_data(byte: Option<u64>, len: u64, places: &Places) -> Result<(), Rule>
    requires { LiesInside len byte }
    ensures { result ≡ check_data byte len (known_in places.now) }
{
    match byte {
        Some(at) if places.may_keep(at, len) => Err(Rule::Unreadable),
        _ => Ok(()),
    }
}

/// Returns the abstract value that a load of `len` bytes produces, from a byte of the stack or from another part.
pub(crate) fn check_loaded(byte: Option<u64>, len: u64, places: &Places) -> Result<Abs, Rule>
    requires { LiesInside len byte }
    ensures { result ≡ check_loaded byte len (known_in places.now) }
{
    if let Some(at) = byte {
        if let Some(place) = whole_place(at, len) {
            return Ok(places.get(place));
        }
        check_data(byte, len, places)?;
    }
    Ok(Abs::Number)
}

/// Updates the places for a store of a pointer: the place that has exactly these bytes holds it, and no other store of
/// a pointer is allowed.
fn keep_at(place: Option<u64>, value: Abs, places: &mut Places) -> Result<(), StepFault>
    requires place { IsPlaceOrNone place }
    requires pointer { is_data value ≡ false }
    ensures placed { IsPlaced result places.new (check_kept place value (known_in places.old)) }
    ensures unchanged { IfErr result (λ _. places.new ≡ places.old) }
{
    check_readable(value)?;
    match place {
        Some(place) => {
            *places = places.with_place(place, value)?;
            Ok(())
        }
        None => Err(StepFault::Rule(Rule::PointerStored)),
    }
}

#[tactic(auto, using(crate::proofs::Numbers::whole_inside))]
/// Updates the places for a store of `len` bytes of a value, to a byte of the stack or to another part.
pub(crate) fn store_to(
    byte: Option<u64>,
    len: u64,
    value: Abs,
    places: &mut Places,
) -> Result<(), StepFault>
    requires { LiesInside len byte }
    ensures placed { IsPlaced result places.new (check_stored byte len value places.old) }
    ensures unchanged { IfErr result (λ _. places.new ≡ places.old) }
{
    let Some(at) = byte else {
        return Ok(check_number(Rule::PointerStored, value)?);
    };
    match value {
        Abs::Number | Abs::Known(_) => {
            *places = places.with_data(at, len)?;
            Ok(())
        }
        _ => keep_at(whole_place(at, len), value, places),
    }
}
