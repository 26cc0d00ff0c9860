//! The command `cost`: the most that a program can cost, from its text.

ghost use Rattle.std.specs.Prelude.{◌≡◌, ◌≢◌, IfErr, IfSome, OnOk};
ghost use Rattle.std.specs.Io.KnownBytes.{Keeps};
ghost use Rattle.rb_loader.specs.Acceptance.{IsRightFault};
ghost use Rattle.rb_loader.specs.CostCommand.{PrintsCost};

use crate::input_text::read_text;
use crate::program::{Bounds, ProgramFault, accept};
use rb_cost::{JobsAtOnce, cost_of, cost_text};
use rb_io::write_whole;
use rb_json::LineForm;
use std::alloc::Global;
use std::io::{Read, Write};

/// Verifies the program whose text is the input, and prints the most that it can cost.
///
/// Prints `accepted`, the numbers of steps and calls, and for each ring the records and bytes that it requests and the
/// bytes that it holds, in the given form. If `jobs` is given, it also prints the smallest ring with more bytes than
/// those jobs request together. The text is read by `read_text`. Runs nothing, and prints nothing if the program is
/// refused or an allocation fails.
pub fn cost<R: Read, W: Write>(
    alloc: Global,
    input: &mut R,
    out: &mut W,
    bounds: Bounds,
    form: LineForm,
    jobs: Option<JobsAtOnce>,
) -> Result<(), ProgramFault>
    ensures printed { OnOk result (IfSome (R.remaining input.old) (λ text. PrintsCost form jobs text bounds.ctx_len bounds.rings (W.contents out.old) (W.contents out.new))) }
    ensures refused { IfErr result (λ fault. IfSome (R.remaining input.old) (λ text. IsRightFault text bounds.ctx_len bounds.rings fault)) }
    ensures nothing_printed { IfErr result (λ fault. fault ≢ ProgramFault.Device → Keeps (W.contents out.old) (W.contents out.new)) }
{
    let text = read_text(alloc, input)?;
    let text = text.as_str();
    let verified = accept(alloc, text, bounds)?;
    let cost = cost_of(alloc, &verified)?;
    let lines = cost_text(alloc, &cost, form, jobs)?;
    match write_whole(out, lines.as_bytes()) {
        Ok(()) => Ok(()),
        Err(_) => Err(ProgramFault::Device),
    }
}
