//! An output of lines in memory: the lines are those that `tape --json` prints of the tape of the same records.

use super::given::same;
use rb_io::Buffered;
use rb_json::LineForm;
use rb_outputs::{LineSink, OutputEnd, RingOutput, StreamOutput};
use rb_run_commands::TapeSink;
use rb_segments::{MemoryFile, MemoryStore};
use rb_tape::{Event, Item};
use rb_tape_commands::tape_buffered;
use rb_workers::{OpenGate, Sink};
use std::alloc::Global;
use std::io::Write;
use std::test::Fail;

type Output<'w, W> = RingOutput<'w, Buffered<W>, Buffered<Vec<u8>>, MemoryStore, MemoryFile>;

const LINES: &[u8] =
    b"{\"pos\":0,\"len\":8,\"discarded\":false,\"hex\":\"7361792022686922\",\"text\":\"say \\\"hi\\\"\"}
{\"pos\":16,\"len\":9,\"discarded\":true}
{\"pos\":40,\"len\":2,\"discarded\":false,\"hex\":\"ff00\"}
{\"pos\":56,\"len\":0,\"discarded\":false,\"hex\":\"\",\"text\":\"\"}
";

// Gives the next record to an output, a submitted one with these bytes.
fn give_event<W: Write>(output: &mut Output<'_, W>, bytes: &[u8]) {
    let pos = output.position();
    if pos > 1000 || bytes.len() > 1000 {
        return;
    }
    output.record(&Item::Event(Event {
        pos,
        worker: 0,
        serial: 0,
        bytes,
    }));
}

// Gives the next record to an output, a discarded one.
fn give_discarded<W: Write>(output: &mut Output<'_, W>, len: u32) {
    let pos = output.position();
    if pos > 1000 || len > 1000 {
        return;
    }
    output.record(&Item::Skip(pos, len));
}

// Gives four records to an output, and then that the consumer has caught up.
fn give_all<W: Write>(output: &mut Output<'_, W>) {
    give_event(output, b"say \"hi\"");
    give_discarded(output, 9);
    give_event(output, &[0xff, 0]);
    give_event(output, b"");
    output.caught_up();
}

// Returns an output of lines on this writer.
fn lines_on<W: Write + Drop>(alloc: Global, writer: W) -> Result<Output<'static, W>, Fail> {
    let lines = LineSink::new(alloc, Buffered::new(alloc, writer)?, 0);
    Ok(RingOutput::Stream(StreamOutput::Lines(lines)))
}

#[test]
fn lines_are_those_of_the_tape(rt: HostRuntime) -> Result<(), Fail> {
    let alloc = rt.alloc();
    let mut lines = Vec::new(alloc);
    let mut output = lines_on(alloc, &mut lines)?;
    give_all(&mut output);
    same(&rt, &output.finish(), &OutputEnd::Whole);
    same(&rt, &lines.as_slice(), &LINES);
    let mut tape = Vec::new(alloc);
    let sink = TapeSink::new(Buffered::new(alloc, &mut tape)?, 4096, 0, &OpenGate);
    let mut output: Output<'_, &mut Vec<u8>> = RingOutput::Stream(StreamOutput::Tape(sink));
    give_all(&mut output);
    same(&rt, &output.finish(), &OutputEnd::Whole);
    let mut printed = Vec::new(alloc);
    tape_buffered(
        alloc,
        &mut tape.as_slice(),
        &mut printed,
        4096,
        0,
        LineForm::Json,
    )?;
    same(&rt, &printed.as_slice(), &LINES);
    Ok(())
}

#[test]
fn lines_that_do_not_fit_are_reported(rt: HostRuntime) -> Result<(), Fail> {
    let mut room = [b'.'; 100];
    let mut output = lines_on(rt.alloc(), room.as_mut_slice())?;
    give_all(&mut output);
    same(&rt, &output.finish(), &OutputEnd::Failed);
    same(&rt, &room.as_slice(), &&LINES[..100]);
    Ok(())
}
