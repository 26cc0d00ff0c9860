//! Buffered `feed` and `tape`, from any reader to any writer.

ghost use Rattle.std.specs.Prelude.{◌≡◌, ◌≢◌, ℕ, Err, IfSome, List, OnOk, Option};
ghost use Rattle.std.specs.Io.KnownBytes.{Appends};
ghost use Rattle.rb_history.specs.RingModel.{IsRingSize, IsStartPosition};
ghost use Rattle.rb_history.specs.TapeBytes.{AreItemsFrom, Item, tape};
ghost use Rattle.rb_tape_commands.specs.Feed.{AnswersAlone, FeedAnswerMatches, FeedResult};
ghost use Rattle.rb_tape_commands.specs.TapeText.{TapeAnswer, tape_lines};

use crate::feed_command::feed;
use crate::feed_fault::FeedFault;
use crate::tape_command::tape;
use crate::tape_refusal::TapeRefusal;
use core::mem::replace_with;
use rb_io::{Buffered, Incoming, ReadAhead};
use rb_json::LineForm;
use std::alloc::Global;
use std::io::{Read, Write};

/// Writes the tape of the payloads, as `feed` does, with buffers. Failing to allocate the buffers is reported before
/// any other error.
///
/// Unless the result is `Device`, nothing is left in the buffer of the output.
pub fn feed_buffered<R: Read, W: Write>(
    alloc: Global,
    input: &mut R,
    out: &mut W,
    size: u64,
    start: u64,
    retries: u32,
) -> Result<(u64, u64), FeedFault>
    ensures fed { result ≢ Err FeedFault.Device → (left : Option (List ℕ)) × FeedResult (record { size = size; start = start; input_before = R.remaining input.old; input_after = left; output_before = W.contents out.old; output_after = W.contents out.new }) result }
    ensures bounds { OnOk result (IsRingSize size × IsStartPosition start) }
    ensures answer { FeedAnswerMatches size start (R.remaining input.old) result }
    ensures only_answer { AnswersAlone size start (R.remaining input.old) result }
{
    let Ok(reader) = ReadAhead::new(alloc, input) else {
        return Err(FeedFault::Memory);
    };
    // The buffer owns the writer meanwhile. If it borrowed the writer, the proof would lose what is written through it.
    replace_with(out, reader, |out, reader| {
        feed_through(alloc, reader, out, size, start, retries)
    })
}

// Feeds through a buffer over this writer. Returns the writer and the result.
fn feed_through<R: Incoming, W: Write>(
    alloc: Global,
    mut reader: R,
    out: W,
    size: u64,
    start: u64,
    retries: u32,
) -> (W, Result<(u64, u64), FeedFault>)
where
    R: Drop,
    ensures fed { result.1 ≢ Err FeedFault.Device → (left : Option (List ℕ)) × FeedResult (record { size = size; start = start; input_before = R.remaining reader; input_after = left; output_before = W.contents out; output_after = W.contents result.0 }) result.1 }
    ensures bounds { OnOk result.1 (IsRingSize size × IsStartPosition start) }
    ensures answer { FeedAnswerMatches size start (R.remaining reader) result.1 }
    ensures only_answer { AnswersAlone size start (R.remaining reader) result.1 }
{
    let writer = match Buffered::over(alloc, out) {
        Ok(writer) => writer,
        Err(out) => return (out, Err(FeedFault::Memory)),
    };
    let (answer, writer) = feed(alloc, &mut reader, writer, size, start, retries);
    (writer.into_writer(), answer)
}

/// Prints the records of the tape, as `tape` does, with buffers. Failing to allocate the buffers is reported before any
/// other error.
///
/// Unless the result is `Device`, nothing is left in the buffer of the output.
pub fn tape_buffered<R: Read, W: Write>(
    alloc: Global,
    input: &mut R,
    out: &mut W,
    size: u64,
    start: u64,
    form: LineForm,
) -> Result<(), TapeRefusal>
    ensures answer { result ≢ Err TapeRefusal.Device → IfSome (R.remaining input.old) (λ bytes. TapeAnswer form size start bytes (W.contents out.old) (W.contents out.new) result) }
    ensures printed { OnOk result ((items : List Item) × AreItemsFrom size start items × IfSome (R.remaining input.old) (λ bytes. bytes ≡ tape size items) × Appends (W.contents out.old) (W.contents out.new) (tape_lines form items)) }
    ensures bounds { OnOk result (IsRingSize size × IsStartPosition start) }
{
    let Ok(reader) = ReadAhead::new(alloc, input) else {
        return Err(TapeRefusal::Memory);
    };
    replace_with(out, reader, |out, reader| {
        tape_through(alloc, reader, out, size, start, form)
    })
}

// Prints through a buffer over this writer. Returns the writer and the result.
fn tape_through<R: Incoming, W: Write>(
    alloc: Global,
    mut reader: R,
    out: W,
    size: u64,
    start: u64,
    form: LineForm,
) -> (W, Result<(), TapeRefusal>)
where
    R: Drop,
    ensures answer { result.1 ≢ Err TapeRefusal.Device → IfSome (R.remaining reader) (λ bytes. TapeAnswer form size start bytes (W.contents out) (W.contents result.0) result.1) }
    ensures printed { OnOk result.1 ((items : List Item) × AreItemsFrom size start items × IfSome (R.remaining reader) (λ bytes. bytes ≡ tape size items) × Appends (W.contents out) (W.contents result.0) (tape_lines form items)) }
    ensures bounds { OnOk result.1 (IsRingSize size × IsStartPosition start) }
{
    let mut writer = match Buffered::over(alloc, out) {
        Ok(writer) => writer,
        Err(out) => return (out, Err(TapeRefusal::Memory)),
    };
    let printed = tape(alloc, &mut reader, &mut writer, size, start, form);
    (writer.into_writer(), printed)
}
