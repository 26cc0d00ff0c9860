//! A reader of a tape that arrives in pieces.

ghost use Rattle.std.specs.Prelude.{◌≡◌, ◌≤◌, drop, length};

use crate::fault::{TapeFault, TapeKind};
use crate::record::Record;
use crate::record_parser::{parse_front, record_at_front};
use rb_history::{SetupFault, is_size, is_start, span};
use std::alloc::Global;
use std::marker::Model;

/// A reader of a tape that arrives in pieces; it returns the records in order. For a tape that is in memory as a whole
/// there is `Tape`.
///
/// Pass each piece to `feed`, then call `next` until it returns `None`. After the last piece, `end` reports whether the
/// tape may end there. The reader keeps the bytes of the records that were not read yet; once `next` has returned
/// `None`, these are the bytes of one incomplete record. After its first fault it returns that fault from then on.
#[derive(Drop)]
pub struct Feed {
    // The bytes that arrived and are kept. Those before `at` were read.
    bytes: Vec<u8>,
    at: usize,
    size: u64,
    start: u64,
    position: u64,
    // The fault that was reported, if any.
    told: Option<TapeKind>,
}

impl Model for Feed {
    ghost use Rattle.std.specs.Prelude.{drop, length, ◌≤◌};
    ghost use Rattle.rb_tape.specs.TapeReading.{Reading, IsReading};

    ghost Value = { Reading };

    ghost view = { λ f. record { size = f.size; start = f.start; position = f.position; rest = drop f.at f.bytes.items; told = f.told } };

    ghost invariant = { λ f. (f.at ≤ length f.bytes.items) × IsReading (record { size = f.size; start = f.start; position = f.position; rest = drop f.at f.bytes.items; told = f.told }) };
}

// Removes the first `count` bytes. Moves nothing if `count` is 0.
fn drop_front(bytes: &mut Vec<u8>, count: usize)
    requires { count ≤ length bytes.old.items }
    ensures { bytes.new.items ≡ drop count bytes.old.items }
{
    if count > 0 {
        bytes.copy_within(count.., 0);
        bytes.truncate(bytes.len() - count);
    }
}

impl Feed {
    ghost use Rattle.std.specs.Prelude.{◌≡◌, ◌≢◌, ◌↔◌, [], IsErrOf, IfOk, OnOk, Err};
    ghost use Rattle.std.specs.Borrow.{sem};
    ghost use Rattle.std.specs.Io.BufRead.{Rests};
    ghost use Rattle.rb_history.specs.declared.bounds.SetupFault.TheVariants as SetupFault;
    ghost use Rattle.rb_history.specs.RingModel.{IsRingSize, IsStartPosition};
    ghost use Rattle.rb_tape.specs.TapeReading.{reading_from, AddsPiece, ReadsSoFar, EndsInput};
    ghost use Rattle.rb_tape.specs.contracts.feed.Feed.{the_row};

    /// Returns a reader for the tape of a ring of `size` bytes whose first record is at `start`; or `SetupFault::Size`
    /// or `SetupFault::Start` if no ring has these parameters.
    ///
    /// Takes constant time and does not allocate.
    pub fn new(alloc: Global, size: u64, start: u64) -> Result<Feed, SetupFault>
        ensures opened { IfOk result (λ f. f ≡ reading_from size start []) }
        ensures size { IsErrOf result SetupFault.Size ↔ ¬ IsRingSize size }
        ensures start { IsErrOf result SetupFault.Start ↔ (IsRingSize size × ¬ IsStartPosition start) }
        ensures allowed { OnOk result (IsRingSize size × IsStartPosition start) }
        ensures workers { result ≢ Err SetupFault.Workers }
    {
        if !is_size(size) {
            return Err(SetupFault::Size);
        }
        if !is_start(start) {
            return Err(SetupFault::Start);
        }
        Ok(Feed {
            bytes: Vec::new(alloc),
            at: 0,
            size,
            start,
            position: start,
            told: None,
        })
    }

    /// Appends the next piece of the tape to the bytes that were not read yet. Takes time linear in the piece,
    /// amortised.
    ///
    /// Returns `Memory` if memory can't be allocated: nothing changed, and the piece may be passed again. After a fault
    /// of `next` it returns that fault.
    pub fn feed(&mut self, piece: &[u8]) -> Result<(), TapeFault>
        ensures adds { AddsPiece self.old self.new piece.now result }
    {
        let offset = self.position - self.start;
        match self.told {
            Some(kind) => return Err(TapeFault { kind, offset }),
            None => {}
        }
        // The unread bytes are moved only if at least as many bytes were read, so each byte read pays for at most one
        // move.
        if self.at >= self.bytes.len() - self.at {
            drop_front(&mut self.bytes, self.at);
            self.at = 0;
        }
        if self.bytes.extend_from_slice(piece).is_err() {
            return Err(TapeFault {
                kind: TapeKind::Memory,
                offset,
            });
        }
        Ok(())
    }

    /// Returns the next record, or the first fault that the bytes show, or `None` if they show neither yet. After a
    /// fault it returns that fault again. The record borrows its bytes until the next call.
    ///
    /// Takes time linear in the record, amortised.
    pub fn next(&mut self) -> Option<Result<Record<'_>, TapeFault>>
        ensures* reads { sem 𝓛 (Rests the_row self.entry (λ new. ReadsSoFar self.old new result)) }
    {
        let offset = self.position - self.start;
        match self.told {
            Some(kind) => return Some(Err(TapeFault { kind, offset })),
            None => {}
        }
        let rest = &self.bytes[self.at..];
        let header = match parse_front(rest, self.size, self.position) {
            Ok(Some(header)) => header,
            Ok(None) => {
                drop_front(&mut self.bytes, self.at);
                self.at = 0;
                return None;
            }
            Err(kind) => {
                self.told = Some(kind);
                return Some(Err(TapeFault { kind, offset }));
            }
        };
        let (at, position) = (self.at, self.position);
        let span = span(header.len);
        self.at += span as usize;
        self.position += span;
        Some(Ok(record_at_front(&self.bytes[at..], position, header)))
    }

    /// Returns whether the tape may end here, to be called once `next` has returned `None`: `Truncated` if bytes are
    /// left. After a fault of `next` it returns that fault.
    ///
    /// Takes constant time.
    pub fn end(&self) -> Result<(), TapeFault>
        ensures ends { EndsInput self.now result }
    {
        let offset = self.position - self.start;
        match self.told {
            Some(kind) => return Err(TapeFault { kind, offset }),
            None => {}
        }
        if self.at < self.bytes.len() {
            return Err(TapeFault {
                kind: TapeKind::Truncated,
                offset,
            });
        }
        Ok(())
    }
}
