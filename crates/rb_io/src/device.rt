//! Reading and writing whole pieces, over any reader and any writer.

ghost use Rattle.std.specs.Prelude.{◌≡◌, ◌<◌, ◌≤◌, ℕ, [], List, length, take, IfOk, OnErr, OnOk};
ghost use Rattle.std.specs.Io.{ReadsAtMost};
ghost use Rattle.std.specs.Io.KnownBytes.{Appends, Consumes, IsAtEnd, Keeps, ReadConsumes};

use crate::incoming::Incoming;
use crate::outgoing::Outgoing;
use std::io;
use std::io::Write;
use thiserror::Error;

/// A read or a write failed, or a write accepted nothing. An interrupted call counts as failed.
#[derive(Clone, Copy, Debug, Error, PartialEq, Eq)]
#[error("a read or a write failed, or a write accepted nothing")]
pub struct DeviceFault;

/// Reads until the buffer is full or the input ends, and returns the number of bytes read.
///
/// If it fails, the bytes that were read before the error are lost.
pub fn read_full<R: Incoming, W: Outgoing>(
    reader: &mut R,
    out: &W,
    buf: &mut [u8],
) -> Result<usize, DeviceFault>
    requires nothing_waits { W.waiting out.now ≡ [] }
    ensures bound { IfOk result (λ n. n ≤ length buf.new) }
    ensures bytes { IfOk result (λ n. Consumes (R.remaining reader.old) (R.remaining reader.new) (take n buf.new)) }
    ensures end { IfOk result (λ n. n < length buf.new → IsAtEnd (R.remaining reader.new)) }
    ensures lost { OnErr result ((bytes : List ℕ) × Consumes (R.remaining reader.old) (R.remaining reader.new) bytes) }
{
    let mut at = 0;
    while at < buf.len() {
        match read_some(reader, out, &mut buf[at..]) {
            Ok(0) => return Ok(at),
            Ok(n) => at += n,
            Err(_) => return Err(DeviceFault),
        }
    }
    Ok(at)
}

// Reads once if nothing is buffered.
fn fill_if_empty<R: Incoming, W: Outgoing>(reader: &mut R, out: &W) -> io::Result<()>
    requires nothing_waits { W.waiting out.now ≡ [] }
    ensures bytes { Keeps (R.remaining reader.old) (R.remaining reader.new) }
    ensures end { OnOk result (R.held reader.new ≡ [] → IsAtEnd (R.remaining reader.new)) }
{
    if reader.at_hand().is_empty() {
        return reader.fill(out);
    }
    Ok(())
}

// Reads if nothing is buffered, and then copies as many of the buffered bytes as fit into `buf`.
fn read_some<R: Incoming, W: Outgoing>(reader: &mut R, out: &W, buf: &mut [u8]) -> io::Result<usize>
    requires nothing_waits { W.waiting out.now ≡ [] }
    ensures bound { ReadsAtMost result buf.new }
    ensures bytes { ReadConsumes (R.remaining reader.old) (R.remaining reader.new) result buf.new }
{
    fill_if_empty(reader, out)?;
    let seen = reader.at_hand();
    if seen.is_empty() {
        return Ok(0);
    }
    let count = seen.len().min(buf.len());
    buf[..count].copy_from_slice(&seen[..count]);
    reader.consume(count);
    Ok(count)
}

#[inline(always)]
/// Writes the piece, and returns how many of its bytes were written: all of them, unless a write failed or accepted
/// nothing.
pub fn write_out<W: Write>(writer: &mut W, piece: &[u8]) -> usize
    ensures bound { result ≤ length piece.now }
    ensures bytes { Appends (W.contents writer.old) (W.contents writer.new) (take result piece.now) }
{
    if piece.is_empty() {
        return 0;
    }
    let Ok(sent) = writer.write(piece) else {
        return 0;
    };
    if sent == piece.len() || sent == 0 {
        return sent;
    }
    sent + write_in_parts(writer, &piece[sent..])
}

// Continues `write_out` after a first write that did not accept the whole piece.
#[cold]
#[inline(never)]
fn write_in_parts<W: Write>(writer: &mut W, piece: &[u8]) -> usize
    ensures bound { result ≤ length piece.now }
    ensures bytes { Appends (W.contents writer.old) (W.contents writer.new) (take result piece.now) }
{
    let mut sent = 0;
    while sent < piece.len() {
        match writer.write(&piece[sent..]) {
            Ok(0) | Err(_) => break,
            Ok(n) => sent += n,
        }
    }
    sent
}

/// Writes the whole piece, and flushes the writer.
pub fn write_whole<W: Write>(writer: &mut W, piece: &[u8]) -> Result<(), DeviceFault>
    ensures whole { OnOk result (Appends (W.contents writer.old) (W.contents writer.new) piece.now) }
{
    if write_out(writer, piece) < piece.len() {
        return Err(DeviceFault);
    }
    match writer.flush() {
        Ok(()) => Ok(()),
        Err(_) => Err(DeviceFault),
    }
}
