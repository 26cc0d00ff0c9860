//! The command `stream`.

ghost use Rattle.std.specs.Prelude.{◌≡◌, ◌≤◌, is_ok, true};
ghost use Rattle.rb_command_line.specs.Commands.{Streamed};

use rb_io::{DeviceFault, write_whole};
use rb_service::{Host, StreamMetrics, StreamOptions, StreamRefusal, stream};
use rb_workers::OpenGate;
use std::alloc::{AllocError, Global};
use std::fs::File;
use std::io::{Read, Write};
use std::rt::Files;
use std::sync::Wait;
use std::thread::Threads;

/// Runs a stream, prints its counters on `err`, and returns the status: 0 for success; 1 if the stream was refused,
/// with a line on `err` that begins with `refused `, or if the counters could not be printed.
pub(crate) fn carry_out_stream<'x, T, R: Read + Send, W: Write + Send, E: Write>(
    rt: &'x T,
    alloc: Global,
    options: &StreamOptions<'x>,
    input: &mut R,
    out: &mut W,
    err: &mut E,
) -> u8
where
    T: Threads + Wait + Sync + Files<File = File> + Host,
    ensures status { result ≤ 1 }
    ensures streamed { result ≡ 0 → Streamed options.now (record { input = R.remaining input.old; out_before = W.contents out.old; out_after = W.contents out.new; err_before = E.contents err.old; err_after = E.contents err.new }) }
{
    match StreamMetrics::new(rt.host(), alloc, options) {
        Ok(metrics) => measured_stream(rt, alloc, options, &metrics, input, out, err),
        Err(AllocError) => print_refusal(StreamRefusal::Memory, err),
    }
}

// Runs a stream of which these metrics receive the totals.
fn measured_stream<'m, 'x: 'm, T, R: Read + Send, W: Write + Send, E: Write>(
    rt: &T,
    alloc: Global,
    options: &StreamOptions<'x>,
    metrics: &'m StreamMetrics<'x>,
    input: &mut R,
    out: &mut W,
    err: &mut E,
) -> u8
where
    T: Threads + Wait + Sync + Files<File = File>,
    ensures status { result ≤ 1 }
    ensures streamed { result ≡ 0 → Streamed options.now (record { input = R.remaining input.old; out_before = W.contents out.old; out_after = W.contents out.new; err_before = E.contents err.old; err_after = E.contents err.new }) }
{
    let mut counters = Vec::new(alloc);
    let answer = stream(
        rt,
        alloc,
        options,
        &OpenGate,
        metrics,
        input,
        out,
        &mut counters,
    );
    let printed = write_whole(err, counters.as_slice());
    match answer {
        Ok(()) => status_of(printed),
        Err(refusal) => print_refusal(refusal, err),
    }
}

// Returns the status of a stream whose counters were printed, or could not be.
fn status_of(printed: Result<(), DeviceFault>) -> u8
    ensures status { result ≤ 1 }
    ensures printed { result ≡ 0 → is_ok printed ≡ true }
{
    match printed {
        Ok(()) => 0,
        Err(_) => 1,
    }
}

// Prints the line of a refusal, and returns its status.
fn print_refusal<E: Write>(refusal: StreamRefusal<'_>, err: &mut E) -> u8
    ensures { result ≡ 1 }
{
    let _ = writeln!(err, "refused {refusal}");
    1
}
