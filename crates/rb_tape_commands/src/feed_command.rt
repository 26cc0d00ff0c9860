//! The command `feed`: reads payloads and writes their tape.

ghost use Rattle.std.specs.Prelude.{◌≡◌, ◌≢◌, [], ◌+◌, ◌<◌, ◌≤◌, ◌⊎◌, ◌↔◌, List, ℕ, None, Some, Err, IsErrOf, IfOk, IfErr, IfSome, IsSome, OnOk, length};
ghost use Rattle.rb_history.specs.Span.{span};
ghost use Rattle.rb_history.specs.RingModel.{IsRingSize, IsStartPosition};
ghost use Rattle.rb_chapter_ring.specs.ChapterRoom.{MayGrant};
ghost use Rattle.rb_chapter_ring.specs.ChapterCalls.{AllTakenByChapter, producer_by_chapter};
ghost use Rattle.rb_tape_commands.specs.ChapterTurns.{IsSpareOf};
ghost use Rattle.rb_tape_commands.specs.inner.OpenedFeed.{IsOpenedFeed};
ghost use Rattle.rb_tape_commands.specs.Feed.{FeedResult, FeedAnswerMatches, AnswersAlone};
ghost use Rattle.rb_tape_commands.specs.inner.PayloadSteps.{FeedsOne, IsOpeningFault};
ghost use Rattle.rb_tape_commands.specs.Retries.{CountsRetries, LeadsByCalls, WritesOutAtEnd};
ghost use Rattle.rb_tape_commands.specs.Transfer.{MovesOn};

use crate::chapter_turns::make_chapter_room;
use crate::feed_fault::FeedFault;
use crate::payloads::next_payload;
use crate::retries::{put_with_retries, write_out_with_retries};
use crate::transfer::transfer_payload;
use rb_chapter_ring::{Chapter, OpenFault, RingState};
use rb_io::{Incoming, Outgoing};
use rb_lend::{Lent, Sheet};
use rb_tape::{Event, Item, TapeWriter};
use std::alloc::Global;
use std::io::Write;

// The room of the ring's chapters, in entries. A payload logs three, so the ring switches chapters before each 86th
// payload. The two chapters' entries take 4 KiB and stay in the processor's L1 cache.
const ROOM: u32 = 256;

// Passes a payload through the ring to the tape. Returns its sheet (the byte buffer of a record).
fn feed_one<W: Write>(
    ring: &mut RingState,
    tape: &mut TapeWriter<W>,
    payload: Sheet,
    number: u64,
    retries: &mut u32,
) -> Result<Sheet, FeedFault>
    requires all_taken { AllTakenByChapter ring.old.state.ring }
    requires chapter_room { MayGrant ring.old.state.ring.chapter }
    requires worker { 0 < ring.old.state.ring.chapter.opening.setup.workers }
    requires size { IsRingSize ring.old.state.ring.chapter.opening.setup.size }
    requires tape_size { tape.old.size ≡ ring.old.state.ring.chapter.opening.setup.size }
    requires position { tape.old.position ≡ producer_by_chapter ring.old.state.ring }
    requires finished { tape.old.unfinished ≡ None }
    requires room { span (length payload) < ring.old.state.ring.chapter.opening.setup.size }
    ensures fed { FeedsOne tape.old.size tape.old.position number payload (W.contents tape.old.writer) (W.contents tape.new.writer) result }
    ensures moves_on { OnOk result (MovesOn ring.old.state.ring ring.new.state.ring (length payload)) }
    ensures size { tape.new.size ≡ tape.old.size }
    ensures position { OnOk result (tape.new.position ≡ tape.old.position + span (length payload)) }
    ensures finished { result ≢ Err FeedFault.Device → tape.new.unfinished ≡ None }
    ensures unfinished { result ≡ Err FeedFault.Device → IsSome tape.new.unfinished }
    ensures calls { LeadsByCalls W.contents tape.old tape.new }
    ensures each_failure_takes_one { result ≢ Err FeedFault.Device → tape.new.failures + retries.new ≡ tape.old.failures + retries.old }
    ensures all_failed { result ≡ Err FeedFault.Device → (tape.new.failures ≡ tape.old.failures + retries.old + 1) × (retries.new ≡ 0) }
{
    let (position, payload) = transfer_payload(ring, payload, number)?;
    let item = Item::Event(Event {
        pos: position,
        worker: 0,
        serial: number,
        bytes: payload.bytes(),
    });
    let Ok(()) = put_with_retries(tape, &item, retries) else {
        return Err(FeedFault::Device);
    };
    Ok(payload)
}

// Feeds payloads until the input ends or one is refused, and returns the producer and consumer positions. Before each
// payload, the ring continues in the spare chapter if its own has no room for it.
fn feed_all<R: Incoming, W: Outgoing>(
    ring: &mut RingState,
    spare_chapter: &mut Option<Chapter>,
    reader: &mut R,
    tape: &mut TapeWriter<W>,
    mut spare: Sheet,
    size: u64,
    retries: &mut u32,
) -> Result<(u64, u64), FeedFault>
    requires size { IsRingSize size }
    requires start { IsStartPosition tape.old.position }
    requires opened { IsOpenedFeed ROOM size tape.old.position ring.old.state.ring spare_chapter.old }
    requires tape_size { tape.old.size ≡ size }
    requires finished { tape.old.unfinished ≡ None }
    ensures fed { FeedResult (record { size = size; start = tape.old.position; input_before = R.remaining reader.old; input_after = R.remaining reader.new; output_before = W.contents tape.old.writer; output_after = W.contents tape.new.writer }) result }
    ensures no_bounds { (result ≢ Err FeedFault.Size) × (result ≢ Err FeedFault.Start) }
    ensures calls { LeadsByCalls W.contents tape.old tape.new }
    ensures counted { CountsRetries (tape.old.failures + retries.old) retries.new tape.new }
    ensures unfinished { IfSome tape.new.unfinished (λ item. tape.new.failures ≡ tape.old.failures + retries.old + 1) }
    ensures gave_up { tape.new.failures ≡ tape.old.failures + retries.old + 1 → result ≡ Err FeedFault.Device }
{
    let mut number = 0;
    while let Some(payload) = next_payload(reader, tape, retries, spare, size, number)? {
        make_chapter_room(ring, spare_chapter);
        spare = feed_one(ring, tape, payload, number, retries)?;
        number += 1;
    }
    Ok((ring.query(3), ring.query(2)))
}

/// Reads payloads, each as a length in four bytes, little-endian, followed by that many bytes. Puts each through a ring
/// of `size` bytes that starts at `start`, and writes the tape of their records, from the start on. Returns the final
/// producer and consumer positions, and the writer.
///
/// Whenever the input is read, the whole tape of all payloads that have arrived was flushed before, as `Incoming`
/// requires.
///
/// `Size` and `Start` are returned before anything is read. A payload whose record is too long for the ring is refused
/// from its length alone. After a write or flush that failed, writing resumes where it stopped, `retries` times in the
/// whole run; the next failure returns `Device`. Whatever is returned, the whole tape of the payloads before was
/// written and flushed, unless the writer itself failed.
///
/// The writer is called a few times for each payload, so use a buffered one. No memory is allocated after the ring was
/// opened, except for a payload that is longer than all before it.
pub fn feed<R: Incoming, W: Outgoing>(
    alloc: Global,
    reader: &mut R,
    writer: W,
    size: u64,
    start: u64,
    retries: u32,
) -> (Result<(u64, u64), FeedFault>, W)
    // What was read and written, by the result, however often a write was retried.
    ensures fed { FeedResult (record { size = size; start = start; input_before = R.remaining reader.old; input_after = R.remaining reader.new; output_before = W.contents writer; output_after = W.contents result.1 }) result.0 }

    // The writer holds nothing back, if it held nothing back before and no device failed.
    ensures handed_on { W.waiting writer ≡ [] → result.0 ≢ Err FeedFault.Device → W.waiting result.1 ≡ [] }

    // A writer is returned unchanged, or was finally called to flush. Each failure used one retry, and there were no
    // other failures.
    ensures handed_out { (result.1 ≡ writer) ⊎ WritesOutAtEnd W.contents W.writes_out writer size start retries result.0 result.1 }

    // The conditions of each result.
    ensures size { IsErrOf result.0 FeedFault.Size ↔ ¬ IsRingSize size }
    ensures start { IsErrOf result.0 FeedFault.Start ↔ (IsRingSize size × ¬ IsStartPosition start) }
    ensures bounds { OnOk result.0 (IsRingSize size × IsStartPosition start) }
    ensures answer { FeedAnswerMatches size start (R.remaining reader.old) result.0 }
    ensures only_answer { AnswersAlone size start (R.remaining reader.old) result.0 }
{
    match open(alloc, size, start) {
        Ok(opened) => feed_ring(opened, reader, writer, size, start, retries),
        Err(fault) => (Err(fault), writer),
    }
}

// Opens the ring that the payloads go through, with a spare chapter and a sheet for the payloads.
fn open(
    alloc: Global,
    size: u64,
    start: u64,
) -> Result<(RingState, Option<Chapter>, Sheet), FeedFault>
    ensures opened { IfOk result (λ opened. IsOpenedFeed ROOM size start opened.0.state.ring opened.1) }
    ensures bounds { OnOk result (IsRingSize size × IsStartPosition start) }
    ensures size { IsErrOf result FeedFault.Size ↔ ¬ IsRingSize size }
    ensures start { IsErrOf result FeedFault.Start ↔ (IsRingSize size × ¬ IsStartPosition start) }
    ensures memory { IfErr result IsOpeningFault }
{
    let ring = match RingState::new(alloc, 0, size, start, 1, ROOM) {
        Ok(ring) => ring,
        Err(OpenFault::Size) => return Err(FeedFault::Size),
        Err(OpenFault::Start) => return Err(FeedFault::Start),
        Err(OpenFault::Workers | OpenFault::Chapter) => unreachable!(),
        Err(OpenFault::Memory) => return Err(FeedFault::Memory),
    };
    let Ok(spare_chapter) = Chapter::new(alloc, ROOM, 1) else {
        return Err(FeedFault::Memory);
    };
    match Sheet::new(alloc, 0) {
        Ok(spare) => Ok((ring, Some(spare_chapter), spare)),
        Err(_) => Err(FeedFault::Memory),
    }
}

// Passes the payloads through the ring to the writer, which flushes all of them.
fn feed_ring<R: Incoming, W: Outgoing>(
    opened: (RingState, Option<Chapter>, Sheet),
    reader: &mut R,
    writer: W,
    size: u64,
    start: u64,
    mut retries: u32,
) -> (Result<(u64, u64), FeedFault>, W)
    requires size { IsRingSize size }
    requires start { IsStartPosition start }
    requires opened { IsOpenedFeed ROOM size start opened.0.state.ring opened.1 }
    ensures fed { FeedResult (record { size = size; start = start; input_before = R.remaining reader.old; input_after = R.remaining reader.new; output_before = W.contents writer; output_after = W.contents result.1 }) result.0 }
    ensures handed_on { result.0 ≢ Err FeedFault.Device → W.waiting result.1 ≡ [] }
    ensures handed_out { WritesOutAtEnd W.contents W.writes_out writer size start retries result.0 result.1 }
    ensures no_bounds { (result.0 ≢ Err FeedFault.Size) × (result.0 ≢ Err FeedFault.Start) }
{
    let (mut ring, mut spare_chapter, spare) = opened;
    let mut tape = TapeWriter::new(writer, size, start);
    let fed = feed_all(
        &mut ring,
        &mut spare_chapter,
        reader,
        &mut tape,
        spare,
        size,
        &mut retries,
    );
    let mut writer = tape.into_writer();
    match write_out_with_retries(&mut writer, retries) {
        Ok(()) => (fed, writer),
        Err(_) => (Err(FeedFault::Device), writer),
    }
}
