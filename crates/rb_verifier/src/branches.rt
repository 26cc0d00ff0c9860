//! Abstract conditional jumps: the states along both edges.

ghost use Rattle.std.specs.Prelude.{◌≡◌, IfErr};
ghost use Rattle.rb_verifier.specs.Branches.{null_test_of, check_branch};
ghost use Rattle.rb_verifier.specs.AbstractStates.{IsLeft};

use crate::rule::{Rule, StepFault};
use crate::state::AbsState;
use crate::value::Abs;
use crate::value_checks::{check_number, check_readable};
use rb_insn::{Condition, Operand, Width};

/// A comparison of a value with null.
#[derive(Clone, Copy)]
pub(crate) enum NullTest {
    /// Jumps if the value is null.
    JumpsIfNull,
    /// Jumps if the value is not null.
    JumpsIfThere,
}

/// Returns the null test that a conditional jump performs, if it performs one.
pub(crate) fn null_test_of(width: Width, condition: Condition, operand: Operand) -> Option<NullTest>
    ensures { result ≡ null_test_of width condition operand }
{
    match (width, condition, operand) {
        (Width::W64, Condition::Equal, Operand::Immediate(0)) => Some(NullTest::JumpsIfNull),
        (Width::W64, Condition::NotEqual, Operand::Immediate(0)) => Some(NullTest::JumpsIfThere),
        _ => None,
    }
}

/// Checks a conditional jump.
///
/// A null test of a reservation refines the state along each edge. Any other comparison needs two numbers.
pub(crate) fn check_branch(
    test: Option<NullTest>,
    dst: Abs,
    operand: Abs,
    state: &mut AbsState,
) -> Result<Option<AbsState>, StepFault>
    ensures effect { IsLeft result state.new (check_branch test dst operand state.old) }
    ensures unchanged { IfErr result (λ _. state.new ≡ state.old) }
{
    if let (Some(test), Abs::Perhaps(id)) = (test, dst) {
        let null = state.assuming_null(id)?;
        let there = state.assuming_record(id)?;
        return match test {
            NullTest::JumpsIfNull => {
                *state = there;
                Ok(Some(null))
            }
            NullTest::JumpsIfThere => {
                *state = null;
                Ok(Some(there))
            }
        };
    }
    check_readable(dst)?;
    check_readable(operand)?;
    check_number(Rule::PointerCompared, dst)?;
    check_number(Rule::PointerCompared, operand)?;
    Ok(None)
}
