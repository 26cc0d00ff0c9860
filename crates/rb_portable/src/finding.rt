//! A place where Linux refuses a program.

ghost use Rattle.std.specs.Prelude.{◌≡◌, ◌++◌, OnOk, string_bytes};
ghost use Rattle.rb_portable.specs.Findings.{finding_text};

use crate::linux_class::LinuxClass;
use rb_json::LineForm;
use std::alloc::AllocError;
use std::fmt::Write;

/// A unit at which Linux refuses a program, and the reason.
#[derive(Clone, Copy, Debug, PartialEq, Eq)]
pub struct Finding {
    /// Why Linux refuses the instruction.
    pub class: LinuxClass,
    /// The unit at which the instruction begins.
    pub unit: u32,
}

/// Appends the line of a finding: `linux CLASS unit U`, or a JSON object with the members `linux` and `unit`.
pub fn push_finding(text: &mut String, form: LineForm, finding: Finding) -> Result<(), AllocError>
    ensures added { OnOk result (string_bytes text.new ≡ string_bytes text.old ++ finding_text form finding) }
{
    let (class, unit) = (finding.class.name(), finding.unit);
    match form {
        LineForm::Words => write!(text, "linux {class} unit {unit}\n"),
        LineForm::Json => write!(text, "{{\"linux\":\"{class}\",\"unit\":{unit}}}\n"),
    }
}
