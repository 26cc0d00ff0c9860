//! The output of `check` for a program's run, in the requested form.

ghost use Rattle.std.specs.Prelude.{◌≡◌, IfOk, map};
ghost use Rattle.rb_run_commands.specs.Printed.{check_lines};

use crate::record_json::objects_of_run;
use crate::record_lines::text_of_run;
use rb_history::Taken;
use rb_json::LineForm;
use std::alloc::{AllocError, Global};

/// Returns the lines of a run with this result and these records, ring by ring from ring 0.
pub(crate) fn lines_of_check(
    alloc: Global,
    value: u64,
    rings: &[Vec<Taken>],
    form: LineForm,
) -> Result<Vec<u8>, AllocError>
    ensures lines { IfOk result (λ lines. lines.items ≡ check_lines form value (map (λ records. records.items) rings.now)) }
{
    match form {
        LineForm::Words => {
            let text = text_of_run(alloc, value, rings)?;
            Ok(text.into_bytes())
        }
        LineForm::Json => objects_of_run(alloc, value, rings),
    }
}
