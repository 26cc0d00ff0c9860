//! The rules of verification.

ghost use Rattle.std.specs.Prelude.{◌≡◌};
ghost use Rattle.rb_verifier.specs.Rules.{rule_number};
ghost use Rattle.rb_verifier.specs.declared.rule.StepFault.TheVariants as fault;

use std::alloc::AllocError;
use thiserror::Error;

/// A rule that a program can break (own profile).
#[derive(Clone, Copy, Debug, PartialEq, Eq, Error)]
pub enum Rule {
    /// V1: reads a register that holds nothing readable.
    #[error("V1: a register that holds nothing readable is read")]
    Unreadable,
    /// V2: writes the frame pointer r10.
    #[error("V2: the frame pointer r10 is written")]
    FramePointerWritten,
    /// V3: does arithmetic that is not allowed on a pointer.
    #[error("V3: arithmetic that is not allowed on a pointer")]
    PointerArithmetic,
    /// V4: accesses memory outside the context, the stack and the held records.
    #[error("V4: an access outside the context, the stack and the held records")]
    OutsidePart,
    /// V5: writes to the context.
    #[error("V5: a write to the context")]
    ContextWritten,
    /// V6: stores a pointer other than to a whole place of the stack.
    #[error("V6: a pointer is stored other than to a whole place of the stack")]
    PointerStored,
    /// V7: passes an argument that the helper does not accept.
    #[error("V7: an argument that the helper does not accept")]
    HelperArgument,
    /// V8: passes a size that is not known, or is too large.
    #[error("V8: a size that is not known or is too large")]
    SizeNotKnown,
    /// V9: holds more than four references.
    #[error("V9: more than four references are held")]
    TooManyReferences,
    /// V10: exits while it holds a reference.
    #[error("V10: a reference is held at the exit")]
    ReferenceLeft,
    /// V11: two edges arrive at the same unit with different references.
    #[error("V11: different references arrive along two edges")]
    ReferencesDiffer,
    /// V12: exits with a pointer as the result.
    #[error("V12: the result is a pointer")]
    ResultNotNumber,
    /// V13: compares a pointer.
    #[error("V13: a pointer is compared")]
    PointerCompared,
    /// V14: uses a reservation before it is tested against null.
    #[error("V14: a reservation is used before it is tested against null")]
    NullNotTested,
    /// V15: calls an unknown helper.
    #[error("V15: an unknown helper is called")]
    UnknownHelper,
}

/// Why an abstract step fails.
#[derive(Clone, Copy, Debug, PartialEq, Eq, Error)]
pub enum StepFault {
    /// The instruction breaks a rule.
    #[error("{0}")]
    Rule(Rule),
    /// Memory for the abstract stack could not be allocated; this says nothing about the instruction.
    #[error("out of memory")]
    Memory,
}

impl From<Rule> for StepFault {
    ghost from_gives = { λ broken e. e ≡ fault.Rule broken };

    fn from(broken: Rule) -> StepFault {
        StepFault::Rule(broken)
    }
}

impl From<AllocError> for StepFault {
    ghost from_gives = { λ _ e. e ≡ fault.Memory };

    fn from(_: AllocError) -> StepFault {
        StepFault::Memory
    }
}

impl Rule {
    /// Returns the rule's number, 1 to 15.
    pub fn number(self) -> u8
        ensures { result ≡ rule_number self }
    {
        match self {
            Rule::Unreadable => 1,
            Rule::FramePointerWritten => 2,
            Rule::PointerArithmetic => 3,
            Rule::OutsidePart => 4,
            Rule::ContextWritten => 5,
            Rule::PointerStored => 6,
            Rule::HelperArgument => 7,
            Rule::SizeNotKnown => 8,
            Rule::TooManyReferences => 9,
            Rule::ReferenceLeft => 10,
            Rule::ReferencesDiffer => 11,
            Rule::ResultNotNumber => 12,
            Rule::PointerCompared => 13,
            Rule::NullNotTested => 14,
            Rule::UnknownHelper => 15,
        }
    }
}
