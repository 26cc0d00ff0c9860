//! The units at which Linux refuses a program, which `check` and `explain` print on request.

ghost use Rattle.std.specs.Prelude.{◌≢◌, Err, IfErr, IfOk, string_bytes};
ghost use Rattle.rb_loader.specs.Acceptance.{IsRightFault};
ghost use Rattle.rb_loader.specs.RequestedFindings.{TellsRequested};

use crate::program::{Bounds, ProgramFault, accept};
use rb_json::LineForm;
use rb_portable::findings_text;
use std::alloc::Global;

/// Returns a line for each unit at which Linux refuses the program of this text if `portable`, and no line otherwise.
///
/// An error is that of `accept`, also for a program that was accepted before if an allocation fails.
pub fn requested_findings(
    alloc: Global,
    text: &str,
    bounds: Bounds,
    form: LineForm,
    portable: bool,
) -> Result<String, ProgramFault>
    ensures found { IfOk result (λ lines. TellsRequested portable form text.now bounds.ctx_len bounds.rings (string_bytes lines)) }
    ensures refused { IfErr result (IsRightFault text.now bounds.ctx_len bounds.rings) }
    ensures no_device { result ≢ Err ProgramFault.Device }
{
    if !portable {
        return Ok(String::new(alloc));
    }
    let verified = accept(alloc, text, bounds)?;
    Ok(findings_text(alloc, &verified, form)?)
}
