//! The listing of an accepted program, and the most that it can cost.

ghost use Rattle.std.specs.Prelude.{◌≡◌, ◌<◌, ◌++◌, IfOk, OnOk, length, string_bytes};
ghost use Rattle.rb_program.specs.Program.{unit_count};
ghost use Rattle.rb_verifier.specs.Annotation.{state_at};
ghost use Rattle.rb_verifier.specs.Subject.{limits_of};
ghost use Rattle.rb_explain.specs.Explanations.{known_line, known_text, listing, IsListing, IsListingWithCost};

use crate::lines::push_line;
use crate::objects::push_known_object;
use crate::state_lines::push_state;
use rb_cost::{cost_of, cost_text};
use rb_insn::Insn;
use rb_json::LineForm;
use rb_program::Program;
use rb_verifier::{AbsState, Verified};
use std::alloc::{AllocError, Global};

// Appends an instruction with the state before it.
fn push_known(
    alloc: Global,
    text: &mut String,
    form: LineForm,
    state: &AbsState,
    unit: u32,
    insn: &Insn,
) -> Result<(), AllocError>
    ensures added { OnOk result (string_bytes text.new ≡ string_bytes text.old ++ known_text form state.now unit insn.now) }
{
    match form {
        LineForm::Words => {
            push_state(text, state)?;
            push_line(alloc, text, unit, insn)
        }
        LineForm::Json => push_known_object(alloc, text, state, unit, insn),
    }
}

// Appends the instruction that begins at a unit, if one does, with the state before it.
fn push_known_at(
    alloc: Global,
    text: &mut String,
    form: LineForm,
    program: &Program,
    states: &[AbsState],
    unit: u32,
) -> Result<(), AllocError>
    requires { unit < length states.now }
    ensures added { OnOk result (string_bytes text.new ≡ string_bytes text.old ++ known_line form program.now (state_at states.now) unit) }
{
    match program.at(unit) {
        Some(insn) => push_known(alloc, text, form, &states[unit as usize], unit, insn),
        None => text.push_str(""),
    }
}

// Returns each instruction with the state before it.
#[tactic(auto, using(crate::proofs::Joining::joins))]
fn listing_of(
    alloc: Global,
    form: LineForm,
    program: &Program,
    states: &[AbsState],
) -> Result<String, AllocError>
    requires { length states.now ≡ unit_count program.now }
    ensures listed { IfOk result (λ text. string_bytes text ≡ listing form program.now (state_at states.now)) }
{
    let mut text = String::new(alloc);
    for unit in 0..program.units() {
        push_known_at(alloc, &mut text, form, program, states, unit)?;
    }
    Ok(text)
}

// Returns the listing of a verified program, by the annotation from its verification.
fn listing_text(alloc: Global, form: LineForm, verified: &Verified) -> Result<String, AllocError>
    ensures listed { IfOk result (λ text. IsListing form (limits_of verified.now) verified.now.program (string_bytes text)) }
{
    listing_of(alloc, form, verified.program(), verified.states())
}

/// Returns the listing of a verified program, followed by the lines of its cost.
pub(crate) fn listing_with_cost(
    alloc: Global,
    form: LineForm,
    verified: &Verified,
) -> Result<String, AllocError>
    ensures listed { IfOk result (λ text. IsListingWithCost form verified.now (string_bytes text)) }
{
    let mut text = listing_text(alloc, form, verified)?;
    let cost = cost_of(alloc, verified)?;
    let lines = cost_text(alloc, &cost, form, None)?;
    text.push_str(lines.as_str())?;
    Ok(text)
}
