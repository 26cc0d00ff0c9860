//! The lines that are printed about a cost.

ghost use Rattle.std.specs.Prelude.{◌≡◌, ◌++◌, IfOk, OnOk, string_bytes};
ghost use Rattle.rb_cost.specs.CostLines.{chosen_text, cost_text, front_text, ring_text, size_text};

use crate::cost::{Cost, RingCost};
use crate::ring_size::{JobsAtOnce, least_ring};
use rb_json::LineForm;
use std::alloc::{AllocError, Global};
use std::fmt::Write;

// Appends that the program was accepted, and the cost of its paths.
fn push_front(text: &mut String, form: LineForm, cost: &Cost) -> Result<(), AllocError>
    ensures added { OnOk result (string_bytes text.new ≡ string_bytes text.old ++ front_text form cost.now) }
{
    let (steps, calls) = (cost.steps, cost.calls);
    match form {
        LineForm::Words => write!(text, "accepted\nsteps {steps} calls {calls}\n"),
        LineForm::Json => write!(
            text,
            "{{\"accepted\":true,\"steps\":{steps},\"calls\":{calls}}}\n"
        ),
    }
}

// Appends what the paths request from a ring and hold there.
fn push_ring(
    text: &mut String,
    form: LineForm,
    ring: usize,
    cost: RingCost,
) -> Result<(), AllocError>
    ensures added { OnOk result (string_bytes text.new ≡ string_bytes text.old ++ ring_text form ring cost) }
{
    let (records, bytes, held) = (cost.records, cost.bytes, cost.held_bytes);
    match form {
        LineForm::Words => write!(
            text,
            "ring {ring} records {records} bytes {bytes} held {held}\n"
        ),
        LineForm::Json => write!(
            text,
            "{{\"ring\":{ring},\"records\":{records},\"bytes\":{bytes},\"held\":{held}}}\n"
        ),
    }
}

// Appends the size of a ring, or that none is large enough.
fn push_size(
    text: &mut String,
    form: LineForm,
    ring: usize,
    size: Option<u64>,
) -> Result<(), AllocError>
    ensures added { OnOk result (string_bytes text.new ≡ string_bytes text.old ++ size_text form ring size) }
{
    match (form, size) {
        (LineForm::Words, Some(size)) => write!(text, "ring {ring} size {size}\n"),
        (LineForm::Words, None) => write!(text, "ring {ring} size none\n"),
        (LineForm::Json, Some(size)) => write!(text, "{{\"ring\":{ring},\"size\":{size}}}\n"),
        (LineForm::Json, None) => write!(text, "{{\"ring\":{ring},\"size\":null}}\n"),
    }
}

// Appends the size of a ring that is large enough for concurrent jobs, if that is requested.
fn push_chosen(
    text: &mut String,
    form: LineForm,
    jobs: Option<JobsAtOnce>,
    ring: usize,
    cost: RingCost,
) -> Result<(), AllocError>
    ensures added { OnOk result (string_bytes text.new ≡ string_bytes text.old ++ chosen_text form jobs ring cost) }
{
    let Some(jobs) = jobs else {
        return Ok(());
    };
    let at_once = u128::from(jobs.behind) + u128::from(jobs.workers);
    let size = least_ring(at_once * u128::from(cost.bytes));
    push_size(text, form, ring, size)
}

/// Returns the lines of a cost, as text or as JSON objects: `accepted`, `steps S calls C`, and for each ring
/// `ring I records R bytes B held H`, where H is the maximal number of bytes held.
///
/// If `jobs` are given, each ring's line is followed by `ring I size N`, where N is the smallest ring size greater than
/// the number of bytes that those jobs request together, or by `ring I size none`. Returns `Err` if an allocation
/// fails.
pub fn cost_text(
    alloc: Global,
    cost: &Cost,
    form: LineForm,
    jobs: Option<JobsAtOnce>,
) -> Result<String, AllocError>
    ensures text { IfOk result (λ text. string_bytes text ≡ cost_text form jobs cost.now) }
{
    let mut text = String::new(alloc);
    push_front(&mut text, form, cost)?;
    for (ring, ring_cost) in cost.rings.iter().enumerate() {
        push_ring(&mut text, form, ring, *ring_cost)?;
        push_chosen(&mut text, form, jobs, ring, *ring_cost)?;
    }
    Ok(text)
}
