//! The command `explain`: the explanation of a program, from its text.

ghost use Rattle.std.specs.Prelude.{◌≡◌, IfErr, IfOk, IfSome, OnOk, string_bytes};
ghost use Rattle.rb_verifier.specs.Subject.{Subject};
ghost use Rattle.rb_loader.specs.Acceptance.{IsAccepted};
ghost use Rattle.rb_loader.specs.Explained.{ExplainsRefusal, PrintsExplanation, fault_of_reason};
ghost use Rattle.rb_loader.specs.inner.ExplainedText.{ExplainsText};

use crate::input_text::read_text;
use crate::portable_findings::requested_findings;
use crate::program::{Bounds, ProgramFault, shape_fault};
use rb_explain::{Explanation, Reason};
use rb_io::write_whole;
use rb_json::LineForm;
use rb_program::DecodeFault;
use std::alloc::{AllocError, Global};
use std::io::{Read, Write};

/// Explains the program whose text is the input.
///
/// For an accepted program, prints each instruction with what the verifier knows before it, followed by the most that
/// the program can cost, as printed by `cost`; if `portable`, also a line for each unit at which Linux refuses the
/// program. For a refused one, prints the units around its first fault, and how to fix the program. The form is words
/// or JSON objects. A refusal is returned only after its explanation is printed. The text is read by `read_text`.
pub fn explain<R: Read, W: Write>(
    alloc: Global,
    input: &mut R,
    out: &mut W,
    bounds: Bounds,
    form: LineForm,
    portable: bool,
) -> Result<(), ProgramFault>
    ensures accepted { OnOk result (IfSome (R.remaining input.old) (λ text. (subject : Subject) × IsAccepted text bounds.ctx_len bounds.rings subject)) }
    ensures explained { OnOk result (IfSome (R.remaining input.old) (λ text. PrintsExplanation portable form text bounds.ctx_len bounds.rings (W.contents out.old) (W.contents out.new))) }
    ensures refused { IfErr result (λ fault. IfSome (R.remaining input.old) (λ text. ExplainsRefusal form text bounds.ctx_len bounds.rings (W.contents out.old) (W.contents out.new) fault)) }
{
    let text = read_text(alloc, input)?;
    let text = text.as_str();
    let Ok(explanation) = explanation_of(alloc, text, bounds, form, portable) else {
        return Err(ProgramFault::Memory);
    };
    let Ok(()) = write_whole(out, explanation.text.as_bytes()) else {
        return Err(ProgramFault::Device);
    };
    match explanation.reason {
        Some(reason) => Err(fault_of(reason)),
        None => Ok(()),
    }
}

// Returns the explanation of a text, with the requested lines of the units that Linux refuses.
fn explanation_of(
    alloc: Global,
    text: &str,
    bounds: Bounds,
    form: LineForm,
    portable: bool,
) -> Result<Explanation, AllocError>
    ensures explained { IfOk result (λ explanation. ExplainsText portable form text.now (record { ctx_len = bounds.ctx_len; rings = bounds.rings }) explanation.reason (string_bytes explanation.text)) }
{
    let mut explanation = rb_explain::explain(alloc, text, bounds.ctx_len, bounds.rings, form)?;
    if explanation.reason.is_none() {
        // A program that was explained as accepted is refused only if an allocation fails.
        let Ok(findings) = requested_findings(alloc, text, bounds, form, portable) else {
            return Err(AllocError);
        };
        explanation.text.push_str(findings.as_str())?;
    }
    Ok(explanation)
}

// Returns the reason for a refusal as a `ProgramFault`.
fn fault_of(reason: Reason) -> ProgramFault
    ensures { result ≡ fault_of_reason reason }
{
    match reason {
        Reason::Text => ProgramFault::Text,
        Reason::Decode(DecodeFault { unit, kind }) => ProgramFault::Decode { kind, unit },
        Reason::Shape(fault) => shape_fault(fault),
        Reason::Rule { unit, rule } => ProgramFault::Verify {
            rule: u32::from(rule.number()),
            unit,
        },
    }
}
