//! Resuming a record after a failed write.

ghost use Rattle.std.specs.Prelude.{◌≡◌, ◌<◌, ◌≤◌, ◌+◌, [], None, Some, is_ok, if◌then◌else◌, take, OnOk, OnErr};
ghost use Rattle.std.specs.Io.KnownBytes.{Appends, Keeps};
ghost use Rattle.rb_history.specs.TapeBytes.{item_bytes, item_span, IsItemAt};
ghost use Rattle.rb_tape.specs.Items.{item_of};
ghost use Rattle.rb_tape_commands.specs.Retries.{LeadsByCalls, TriesToWriteOut};
ghost use Rattle.rb_tape_commands.specs.inner.WaitingTape.{IsSameTape};

use rb_io::{DeviceFault, Outgoing};
use rb_tape::{Item, TapeWriter};
use std::io::Write;

/// Writes the record as `TapeWriter::put` does. After a failed write, tries to write the rest of the record again and
/// decrements `retries`. Returns an error if a write fails when `retries` is 0.
pub(crate) fn put_with_retries<W: Write>(
    tape: &mut TapeWriter<W>,
    item: &Item<'_>,
    retries: &mut u32,
) -> Result<(), DeviceFault>
    requires finished { tape.old.unfinished ≡ None }
    requires stands { IsItemAt tape.old.size tape.old.position (item_of item.now) }
    ensures bytes { Appends (W.contents tape.old.writer) (W.contents tape.new.writer) (take tape.new.sent (item_bytes tape.old.size (item_of item.now))) }
    ensures all_sent { OnOk result (tape.new.sent ≡ item_span (item_of item.now)) }
    ensures not_all_sent { OnErr result (tape.new.sent < item_span (item_of item.now)) }
    ensures unfinished { tape.new.unfinished ≡ (if is_ok result then None else Some (item_of item.now)) }
    ensures size { tape.new.size ≡ tape.old.size }
    ensures position { tape.new.position ≡ (if is_ok result then tape.old.position + item_span (item_of item.now) else tape.old.position) }
    ensures fewer { retries.new ≤ retries.old }
    ensures none_left { OnErr result (retries.new ≡ 0) }
    ensures each_failure_takes_one { OnOk result (tape.new.failures + retries.new ≡ tape.old.failures + retries.old) }
    ensures all_failed { OnErr result (tape.new.failures ≡ tape.old.failures + retries.old + 1) }
    ensures calls { LeadsByCalls W.contents tape.old tape.new }
{
    if tape.put(item).is_ok() {
        return Ok(());
    }
    while *retries > 0 {
        *retries -= 1;
        if tape.resume(item).is_ok() {
            return Ok(());
        }
    }
    Err(DeviceFault)
}

/// Makes the tape's writer flush. After a failure, tries again and decrements `retries`. Returns an error if it fails
/// when `retries` is 0.
pub(crate) fn write_tape_out<W: Outgoing>(
    tape: &mut TapeWriter<W>,
    retries: &mut u32,
) -> Result<(), DeviceFault>
    requires finished { tape.old.unfinished ≡ None }
    ensures same { IsSameTape W.contents tape.old tape.new }
    ensures nothing_waits { OnOk result (W.waiting tape.new.writer ≡ []) }
    ensures each_failure_takes_one { OnOk result (tape.new.failures + retries.new ≡ tape.old.failures + retries.old) }
    ensures all_failed { OnErr result (tape.new.failures ≡ tape.old.failures + retries.old + 1) }
    ensures none_left { OnErr result (retries.new ≡ 0) }
{
    while tape.write_out().is_err() {
        if *retries == 0 {
            return Err(DeviceFault);
        }
        *retries -= 1;
    }
    Ok(())
}

/// Makes the writer flush, again after each failure, up to `retries` times.
pub(crate) fn write_out_with_retries<W: Outgoing>(
    writer: &mut W,
    retries: u32,
) -> Result<(), DeviceFault>
    ensures bytes { Keeps (W.contents writer.old) (W.contents writer.new) }
    ensures nothing_waits { OnOk result (W.waiting writer.new ≡ []) }
    ensures tried { TriesToWriteOut W.writes_out retries writer.old (is_ok result) writer.new }
{
    let mut left = retries;
    while writer.write_out().is_err() {
        if left == 0 {
            return Err(DeviceFault);
        }
        left -= 1;
    }
    Ok(())
}
