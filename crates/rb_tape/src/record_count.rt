//! Reads a whole tape.

ghost use Rattle.std.specs.Prelude.{◌↔◌, IfOk, IsErrOf, OnOk, ◌≢◌, Err};
ghost use Rattle.rb_history.specs.declared.bounds.SetupFault.TheVariants as SetupFault;
ghost use Rattle.rb_history.specs.RingModel.{IsRingSize, IsStartPosition};
ghost use Rattle.rb_tape.specs.LongestTape.{IsReadThrough};

use crate::fault::TapeFault;
use crate::tape::Tape;
use rb_history::SetupFault;

/// Returns the number of records of a tape, and the fault after them, or `None` if the bytes are a whole tape. The
/// errors are those of `Tape::new`.
///
/// Takes time linear in the bytes and does not allocate.
pub fn count_records(
    bytes: &[u8],
    size: u64,
    start: u64,
) -> Result<(usize, Option<TapeFault>), SetupFault>
    ensures counted { IfOk result (λ r. IsReadThrough size start bytes.now r.0 r.1) }
    ensures size { IsErrOf result SetupFault.Size ↔ ¬ IsRingSize size }
    ensures start { IsErrOf result SetupFault.Start ↔ (IsRingSize size × ¬ IsStartPosition start) }
    ensures workers { result ≢ Err SetupFault.Workers }
{
    let mut tape = Tape::new(bytes, size, start)?;
    let mut count = 0;
    while let Some(answer) = tape.next() {
        match answer {
            Ok(_) => count += 1,
            Err(fault) => return Ok((count, Some(fault))),
        }
    }
    Ok((count, None))
}
