//! All findings of a program.

ghost use Rattle.std.specs.Prelude.{◌≡◌, ◌<◌, ◌++◌, IfOk, OnOk, length, string_bytes};
ghost use Rattle.std.specs.List.{flat_map};
ghost use Rattle.rb_program.specs.Program.{unit_count};
ghost use Rattle.rb_verifier.specs.Annotation.{state_at};
ghost use Rattle.rb_portable.specs.Findings.{AreFindings, TellsFindings, finding_text, found_at, found_below};

use crate::classes::class_of;
use crate::finding::{Finding, push_finding};
use rb_json::LineForm;
use rb_program::Program;
use rb_verifier::{AbsState, Verified};
use std::alloc::{AllocError, Global};

// Appends the finding of the instruction at `unit`, if it has one.
fn find_at(
    found: &mut Vec<Finding>,
    program: &Program,
    states: &[AbsState],
    unit: u32,
) -> Result<(), AllocError>
    requires { unit < length states.now }
    ensures added { OnOk result (found.new.items ≡ found.old.items ++ found_at program.now (state_at states.now) unit) }
{
    if let Some(insn) = program.at(unit)
        && let Some(class) = class_of(&states[unit as usize], insn)
    {
        found.push(Finding { class, unit })?;
    }
    Ok(())
}

#[tactic(auto, using(crate::proofs::Collecting::finds))]
// Returns the findings of a program, given the abstract states at its units.
fn findings_of(
    alloc: Global,
    program: &Program,
    states: &[AbsState],
) -> Result<Vec<Finding>, AllocError>
    requires { length states.now ≡ unit_count program.now }
    ensures found { IfOk result (λ found. found.items ≡ found_below program.now (state_at states.now) (unit_count program.now)) }
{
    let mut found = Vec::new(alloc);
    for unit in 0..program.units() {
        find_at(&mut found, program, states, unit)?;
    }
    Ok(found)
}

/// Returns each unit at which Linux refuses this accepted program, with the reason, in unit order.
///
/// The only error is a failed allocation. The time is linear in the number of units.
pub fn findings(alloc: Global, verified: &Verified) -> Result<Vec<Finding>, AllocError>
    ensures found { IfOk result (λ found. AreFindings verified.now found.items) }
{
    findings_of(alloc, verified.program(), verified.states())
}

#[tactic(auto, using(crate::proofs::Collecting::tells))]
// Returns the lines of these findings.
fn text_of(alloc: Global, form: LineForm, found: &[Finding]) -> Result<String, AllocError>
    ensures text { IfOk result (λ text. string_bytes text ≡ flat_map (finding_text form) found.now) }
{
    let mut text = String::new(alloc);
    for finding in found {
        push_finding(&mut text, form, *finding)?;
    }
    Ok(text)
}

/// Returns the lines of a program's findings, in words or as JSON objects.
pub fn findings_text(
    alloc: Global,
    verified: &Verified,
    form: LineForm,
) -> Result<String, AllocError>
    ensures told { IfOk result (λ text. TellsFindings form verified.now (string_bytes text)) }
{
    let found = findings(alloc, verified)?;
    text_of(alloc, form, found.as_slice())
}
