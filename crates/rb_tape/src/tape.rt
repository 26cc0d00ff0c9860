//! A reader of a tape that is in memory as a whole.

use crate::fault::{TapeFault, TapeKind};
use crate::record::Record;
use crate::record_parser::{parse_front, record_at_front};
use rb_history::{SetupFault, is_size, is_start, span};
use std::marker::Model;

/// An iterator over the records of a tape, followed by the fault after them, if any. After a fault it returns `None`.
/// It does not allocate, and the records borrow their bytes from the input. For a tape that arrives in pieces there is
/// `Feed`.
#[derive(Drop)]
pub struct Tape<'a> {
    rest: &'a [u8],
    size: u64,
    start: u64,
    position: u64,
    // The fault that was reported, if any.
    told: Option<TapeKind>,
}

impl<'a> Model for Tape<'a> {
    ghost use Rattle.rb_tape.specs.TapeReading.{Reading, IsReading};

    ghost Value = { Reading };

    ghost view = { λ t. record { size = t.size; start = t.start; position = t.position; rest = t.rest.now; told = t.told } };

    ghost invariant = { λ t. IsReading (record { size = t.size; start = t.start; position = t.position; rest = t.rest.now; told = t.told }) };
}

impl<'a> Tape<'a> {
    ghost use Rattle.std.specs.Prelude.{◌≡◌, ◌≢◌, ◌↔◌, IsErrOf, IfOk, OnOk, Err};
    ghost use Rattle.rb_history.specs.declared.bounds.SetupFault.TheVariants as SetupFault;
    ghost use Rattle.rb_history.specs.RingModel.{IsRingSize, IsStartPosition};
    ghost use Rattle.rb_tape.specs.TapeReading.{reading_from};

    /// Returns a reader of these bytes as the tape of a ring of `size` bytes whose first record is at `start`; or
    /// `SetupFault::Size` or `SetupFault::Start` if no ring has these parameters.
    ///
    /// Takes constant time.
    pub fn new(bytes: &'a [u8], size: u64, start: u64) -> Result<Tape<'a>, SetupFault>
        ensures opened { IfOk result (λ t. t ≡ reading_from size start bytes.now) }
        ensures size { IsErrOf result SetupFault.Size ↔ ¬ IsRingSize size }
        ensures start { IsErrOf result SetupFault.Start ↔ (IsRingSize size × ¬ IsStartPosition start) }
        ensures allowed { OnOk result (IsRingSize size × IsStartPosition start) }
        ensures workers { result ≢ Err SetupFault.Workers }
    {
        if !is_size(size) {
            return Err(SetupFault::Size);
        }
        if !is_start(start) {
            return Err(SetupFault::Start);
        }
        Ok(Tape {
            rest: bytes,
            size,
            start,
            position: start,
            told: None,
        })
    }
}

impl<'a> Iterator for Tape<'a> {
    ghost use Rattle.std.specs.Iterator.{at_most};
    ghost use Rattle.rb_tape.specs.TapeReading.{ReadsToEnd, bytes_to_read};

    type Item = Result<Record<'a>, TapeFault>;

    ghost next_gives = { λ old result new. ReadsToEnd old new result };

    ghost remaining = { λ s. at_most (bytes_to_read s) };

    /// Returns the next record, or its fault; `None` at the end of the bytes and after a fault. Takes time linear in
    /// the record.
    fn next(&mut self) -> Option<Result<Record<'a>, TapeFault>> {
        match self.told {
            Some(_) => return None,
            None => {}
        }
        if self.rest.is_empty() {
            return None;
        }
        let offset = self.position - self.start;
        let bytes = self.rest;
        let header = match parse_front(bytes, self.size, self.position) {
            Ok(Some(header)) => header,
            Ok(None) => {
                self.told = Some(TapeKind::Truncated);
                return Some(Err(TapeFault {
                    kind: TapeKind::Truncated,
                    offset,
                }));
            }
            Err(kind) => {
                self.told = Some(kind);
                return Some(Err(TapeFault { kind, offset }));
            }
        };
        let position = self.position;
        let span = span(header.len);
        self.rest = &bytes[span as usize..];
        self.position += span;
        Some(Ok(record_at_front(bytes, position, header)))
    }
}
