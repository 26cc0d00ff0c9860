//! A worker's reservation of a record that the plain ring granted.

ghost use Rattle.std.specs.Prelude.{◌≡◌, length};
ghost use Rattle.rb_history.specs.ReservationModel.{Granted};

use rb_lend::{Lent, Sheet};
use std::marker::Model;

/// A granted record and its bytes. It is submitted or discarded once, and cannot be cloned. If it is dropped without
/// either, its record stays busy.
#[derive(Drop)]
pub struct PlainReservation {
    pos: u64,
    worker: u32,
    serial: u64,
    sheet: Sheet,
}

impl Model for PlainReservation {
    ghost use Rattle.rb_history.specs.ReservationModel.{Granted};

    ghost Value = { Granted };

    ghost view = { λ r. record { pos = r.pos; worker = r.worker; serial = r.serial; bytes = r.sheet } };
}

impl PlainReservation {
    /// Returns the reservation of a record with this position, worker and serial, as long as the sheet. The ring hands
    /// it back as `Stray`, unless a busy record has its four numbers.
    pub fn new(pos: u64, worker: u32, serial: u64, sheet: Sheet) -> PlainReservation
        ensures parts { result ≡ record { pos = pos; worker = worker; serial = serial; bytes = sheet } }
    {
        PlainReservation {
            pos,
            worker,
            serial,
            sheet,
        }
    }

    /// Returns the record's position, in bytes.
    pub fn pos(&self) -> u64
        ensures value { result ≡ self.now.pos }
    {
        self.pos
    }

    /// Returns the number of the worker that the record was granted to.
    pub fn worker(&self) -> u32
        ensures value { result ≡ self.now.worker }
    {
        self.worker
    }

    /// Returns how many records this ring granted to that worker before.
    pub fn serial(&self) -> u64
        ensures value { result ≡ self.now.serial }
    {
        self.serial
    }

    /// Returns the record's length in bytes.
    pub fn len(&self) -> u32
        ensures value { result ≡ length self.now.bytes }
    {
        self.sheet.len()
    }

    // Returns the reservation's sheet, with the bytes that were written.
    pub(crate) fn into_sheet(self) -> Sheet
        ensures value { result ≡ self.bytes }
    {
        let PlainReservation { sheet, .. } = self;
        sheet
    }
}

impl Lent for PlainReservation {
    ghost use Rattle.rb_lend.specs.Ranges.{in_place_of};
    ghost use Rattle.rb_lend.specs.Rewritten.{rewritten_in_place};

    ghost bytes_of = { λ r. r.bytes };

    ghost with_bytes = { λ r w. record r { bytes = in_place_of r.bytes w } };

    fn bytes(&self) -> &[u8] {
        self.sheet.bytes()
    }

    fn bytes_mut(&mut self) -> &mut [u8] {
        self.sheet.bytes_mut()
    }

    fn range_mut(&mut self, at: usize, len: usize) -> &mut [u8] {
        self.sheet.range_mut(at, len)
    }

    ghost rewritten = { λ s w e. rewritten_in_place s.bytes w e };
}
