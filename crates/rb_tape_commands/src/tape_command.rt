//! The command `tape`: reads a tape and prints a line for each of its records.

ghost use Rattle.std.specs.Prelude.{◌≡◌, ◌≢◌, ◌↔◌, [], None, Err, IfSome, IsErrOf, List, OnOk};
ghost use Rattle.std.specs.Io.KnownBytes.{Appends, IsAtEnd, Keeps};
ghost use Rattle.rb_history.specs.RingModel.{IsRingSize, IsStartPosition};
ghost use Rattle.rb_history.specs.TapeBytes.{AreItemsFrom, Item, tape};
ghost use Rattle.rb_tape.specs.TapeReading.{reading_from};
ghost use Rattle.rb_tape_commands.specs.inner.TapePrinting.{EndsTape, PrintsWhole};
ghost use Rattle.rb_tape_commands.specs.TapeText.{TapeAnswer, tape_lines};

use crate::lines::Lines;
use crate::tape_lines::gather_lines;
use crate::tape_refusal::TapeRefusal;
use rb_history::SetupFault;
use rb_io::{DeviceFault, Incoming, Outgoing, write_out};
use rb_json::LineForm;
use rb_tape::Feed;
use std::alloc::Global;

/// The number of bytes that are read from the buffer at a time: a page.
const PIECE: usize = 4096;

/// Reads a tape of a ring of `size` bytes whose first record is at `start`, in pieces of at most 4,096 bytes, and
/// prints a line for each record: `pos P len N HEX`, with an empty payload as `-`, or `pos P len N discarded`, or the
/// same as a JSON object. The records are the longest list whose tape is a prefix of the input. If bytes are left after
/// them, returns `Record` with what is wrong there.
///
/// Whenever the input is read, the lines of all records that have arrived were flushed before, as `Incoming` requires.
///
/// `Size` and `Start` are returned before anything is read. Whatever is returned, the lines of the records before were
/// printed and flushed, unless the output itself failed. The output is called once for each piece that was read.
pub fn tape<R: Incoming, W: Outgoing>(
    alloc: Global,
    input: &mut R,
    out: &mut W,
    size: u64,
    start: u64,
    form: LineForm,
) -> Result<(), TapeRefusal>
    ensures answer { IfSome (R.remaining input.old) (λ bytes. TapeAnswer form size start bytes (W.contents out.old) (W.contents out.new) result) }
    // Also if the bytes of the input are unknown: with Ok, exactly the lines of the records of a whole tape were printed.
    ensures printed { OnOk result ((items : List Item) × AreItemsFrom size start items × IfSome (R.remaining input.old) (λ bytes. bytes ≡ tape size items) × Appends (W.contents out.old) (W.contents out.new) (tape_lines form items)) }
    ensures handed_on { W.waiting out.old ≡ [] → result ≢ Err TapeRefusal.Device → W.waiting out.new ≡ [] }
    ensures size { IsErrOf result TapeRefusal.Size ↔ ¬ IsRingSize size }
    ensures start { IsErrOf result TapeRefusal.Start ↔ (IsRingSize size × ¬ IsStartPosition start) }
    ensures bounds { OnOk result (IsRingSize size × IsStartPosition start) }
{
    let mut feed = match Feed::new(alloc, size, start) {
        Ok(feed) => feed,
        Err(SetupFault::Size) => return Err(TapeRefusal::Size),
        Err(SetupFault::Start) => return Err(TapeRefusal::Start),
        Err(SetupFault::Workers) => unreachable!(),
    };
    let mut lines = Lines::new(alloc);
    let printed = print_pieces(alloc, &mut feed, input, out, &mut lines, form);
    match out.write_out() {
        Ok(()) => printed,
        Err(_) => Err(TapeRefusal::Device),
    }
}

// Prints piece after piece, until the input ends or a record is refused.
fn print_pieces<R: Incoming, W: Outgoing>(
    alloc: Global,
    feed: &mut Feed,
    input: &mut R,
    out: &mut W,
    lines: &mut Lines,
    form: LineForm,
) -> Result<(), TapeRefusal>
    requires size { IsRingSize feed.old.size }
    requires fresh { feed.old ≡ reading_from feed.old.size feed.old.start [] }
    ensures answer { IfSome (R.remaining input.old) (λ bytes. TapeAnswer form feed.old.size feed.old.start bytes (W.contents out.old) (W.contents out.new) result) }
    ensures printed { OnOk result (PrintsWhole form feed.old.size feed.old.start (R.remaining input.old) (W.contents out.old) (W.contents out.new)) }
    ensures no_bounds { (result ≢ Err TapeRefusal.Size) × (result ≢ Err TapeRefusal.Start) }
{
    'pieces: for _ in 0..u64::MAX {
        let Ok(()) = await_more(input, out) else {
            return Err(TapeRefusal::Device);
        };
        let count = input.at_hand().len().min(PIECE);
        if count == 0 {
            return end_of_input(feed);
        }
        if feed.feed(&input.at_hand()[..count]).is_err() {
            return Err(TapeRefusal::Memory);
        }
        input.consume(count);
        let gathered = gather_lines(alloc, feed, lines, form);
        if write_out(out, lines.text()) < lines.text().len() {
            return Err(TapeRefusal::Device);
        }
        gathered?;
    }
    // No input has this many pieces.
    Err(TapeRefusal::Device)
}

// If the buffer is empty, flushes everything that was printed and reads more of the input. It stays empty only if the
// input ended.
fn await_more<R: Incoming, W: Outgoing>(input: &mut R, out: &mut W) -> Result<(), DeviceFault>
    ensures read { Keeps (R.remaining input.old) (R.remaining input.new) }
    ensures bytes { Keeps (W.contents out.old) (W.contents out.new) }
    ensures end { OnOk result (R.held input.new ≡ [] → IsAtEnd (R.remaining input.new)) }
{
    if !input.at_hand().is_empty() {
        return Ok(());
    }
    if out.write_out().is_err() || input.fill(out).is_err() {
        return Err(DeviceFault);
    }
    Ok(())
}

// Whether the tape may end where the input does.
fn end_of_input(feed: &Feed) -> Result<(), TapeRefusal>
    requires no_fault { feed.now.told ≡ None }
    ensures ends { EndsTape feed.now result }
{
    match feed.end() {
        Ok(()) => Ok(()),
        Err(fault) => Err(TapeRefusal::Record {
            kind: fault.kind,
            offset: fault.offset,
        }),
    }
}
