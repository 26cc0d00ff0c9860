//! The command `cost`, which also chooses sizes of rings.

ghost use Rattle.std.specs.Prelude.{◌≡◌, ◌≢◌, Some, IfErr, IfSome, OnOk};
ghost use Rattle.std.specs.Io.KnownBytes.{Keeps};
ghost use Rattle.rb_loader.specs.Acceptance.{IsRightFault};
ghost use Rattle.rb_command_line.specs.Commands.{PrintsCostWith};
ghost use Rattle.rb_command_line.specs.CostSizes.{PrintsTurnSizes};

use rb_cost::{JobsAtOnce, cost_of, cost_text};
use rb_io::write_whole;
use rb_json::LineForm;
use rb_loader::{Bounds, ProgramFault, cost, read_program};
use rb_waiting::turn_sizes_text;
use std::alloc::Global;
use std::io::{Read, Write};

/// What the sizes of rings are chosen for.
#[derive(Clone, Copy)]
pub enum SizesFor {
    /// Jobs that may have records in a ring at once.
    Jobs(JobsAtOnce),
    /// This number of workers that wait for room.
    Turns(u32),
}

/// Verifies the program whose text is the input and prints the most that it can cost. If requested, also prints sizes
/// of rings.
pub(crate) fn cost_with_sizes<R: Read, W: Write>(
    alloc: Global,
    input: &mut R,
    out: &mut W,
    bounds: Bounds,
    form: LineForm,
    sizes: Option<SizesFor>,
) -> Result<(), ProgramFault>
    ensures printed { OnOk result (IfSome (R.remaining input.old) (λ text. PrintsCostWith bounds form sizes text (W.contents out.old) (W.contents out.new))) }
{
    match sizes {
        None => cost(alloc, input, out, bounds, form, None),
        Some(sizes) => cost_for(alloc, input, out, bounds, form, sizes),
    }
}

// Prints the most that the program can cost and the sizes of rings.
fn cost_for<R: Read, W: Write>(
    alloc: Global,
    input: &mut R,
    out: &mut W,
    bounds: Bounds,
    form: LineForm,
    sizes: SizesFor,
) -> Result<(), ProgramFault>
    ensures printed { OnOk result (IfSome (R.remaining input.old) (λ text. PrintsCostWith bounds form (Some sizes) text (W.contents out.old) (W.contents out.new))) }
{
    match sizes {
        SizesFor::Jobs(jobs) => cost(alloc, input, out, bounds, form, Some(jobs)),
        SizesFor::Turns(workers) => cost_with_turns(alloc, input, out, bounds, form, workers),
    }
}

// Prints the most that the program can cost and the sizes of rings for workers that wait for room.
fn cost_with_turns<R: Read, W: Write>(
    alloc: Global,
    input: &mut R,
    out: &mut W,
    bounds: Bounds,
    form: LineForm,
    workers: u32,
) -> Result<(), ProgramFault>
    ensures printed { OnOk result (IfSome (R.remaining input.old) (λ text. PrintsTurnSizes form workers text bounds.ctx_len bounds.rings (W.contents out.old) (W.contents out.new))) }
    ensures refused { IfErr result (λ fault. IfSome (R.remaining input.old) (λ text. IsRightFault text bounds.ctx_len bounds.rings fault)) }
    ensures nothing_printed { IfErr result (λ fault. fault ≢ ProgramFault.Device → Keeps (W.contents out.old) (W.contents out.new)) }
{
    let verified = read_program(alloc, input, bounds)?;
    let cost = cost_of(alloc, &verified)?;
    let mut lines = cost_text(alloc, &cost, form, None)?;
    let sizes = turn_sizes_text(alloc, &cost, form, workers)?;
    lines.push_str(sizes.as_str())?;
    match write_whole(out, lines.as_bytes()) {
        Ok(()) => Ok(()),
        Err(_) => Err(ProgramFault::Device),
    }
}
