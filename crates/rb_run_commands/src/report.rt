//! The output of `run` for its report, in the requested form.

ghost use Rattle.std.specs.Prelude.{◌≡◌, IfOk};
ghost use Rattle.rb_run_commands.specs.ReportLines.{report_lines};

use crate::report_json::objects_of_report;
use crate::report_lines::text_of_report;
use rb_json::LineForm;
use rb_workers::JobsReport;
use std::alloc::{AllocError, Global};

/// Returns the lines of a report, or `AllocError` if they cannot be allocated.
pub(crate) fn lines_of_report<S>(
    alloc: Global,
    report: &JobsReport<S>,
    form: LineForm,
) -> Result<Vec<u8>, AllocError>
    ensures lines { IfOk result (λ lines. lines.items ≡ report_lines form report.now) }
{
    match form {
        LineForm::Words => {
            let text = text_of_report(alloc, report)?;
            Ok(text.into_bytes())
        }
        LineForm::Json => objects_of_report(alloc, report),
    }
}
