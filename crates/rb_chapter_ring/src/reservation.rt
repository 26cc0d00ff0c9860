//! What a worker holds for a record that was granted to it.

ghost use Rattle.std.specs.Prelude.{◌≡◌, ◌↔◌, IsSome, IfSome, Some, length};
ghost use Rattle.rb_chapter_ring.specs.Hands.{in_hand, out_record};

use crate::OutRecord;
use rb_lend::{Lent, Sheet};
use std::marker::Model;

/// The right to write a record's bytes, and to submit or discard it, at the ring with this tag and from this hand of
/// its worker. Only rings create reservations, when they grant a record. (Linux Documentation/bpf/ringbuf.rst: a
/// reserved record is committed or discarded.)
///
/// If it is dropped without a submit or a discard, its record remains busy and its hand occupied.
#[derive(Drop)]
pub struct Reservation {
    pub(crate) tag: u64,
    pub(crate) hand: u32,
    pub(crate) pos: u64,
    pub(crate) worker: u32,
    pub(crate) serial: u64,
    pub(crate) sheet: Sheet,
}

impl Model for Reservation {
    ghost use Rattle.rb_chapter_ring.specs.HandGranted.{HandGranted};

    ghost Value = { HandGranted };

    ghost view = { λ r. record { tag = r.tag; hand = r.hand; granted = record { pos = r.pos; worker = r.worker; serial = r.serial; bytes = r.sheet } } };
}

impl Reservation {
    #[inline(always)]
    /// Returns the tag of the ring that granted the record.
    pub fn tag(&self) -> u64
        ensures tag { result ≡ self.now.tag }
    {
        self.tag
    }

    #[inline(always)]
    /// Returns the hand of its worker that holds the record, 0 to 3.
    pub fn hand(&self) -> u32
        ensures hand { result ≡ self.now.hand }
    {
        self.hand
    }

    #[inline(always)]
    /// Returns the record's position, in bytes.
    pub fn pos(&self) -> u64
        ensures pos { result ≡ self.now.granted.pos }
    {
        self.pos
    }

    #[inline(always)]
    /// Returns the number of the worker to which the record was granted.
    pub fn worker(&self) -> u32
        ensures worker { result ≡ self.now.granted.worker }
    {
        self.worker
    }

    #[inline(always)]
    /// Returns the number of records that this ring had granted to that worker before.
    pub fn serial(&self) -> u64
        ensures serial { result ≡ self.now.granted.serial }
    {
        self.serial
    }

    #[inline(always)]
    /// Returns the record's length in bytes.
    pub fn len(&self) -> u32
        ensures len { result ≡ length self.now.granted.bytes }
    {
        self.sheet.len()
    }

    #[inline(always)]
    /// Returns what a worker's hand holds for the record if its length is `len` bytes: its position, serial and length.
    pub fn out_record(&self, len: u32) -> OutRecord
        ensures record { result ≡ out_record self.now.granted.pos self.now.granted.serial len }
    {
        OutRecord {
            pos: self.pos,
            serial: self.serial,
            len,
        }
    }

    #[inline(always)]
    /// Returns the reservation's hand if its tag and its worker are these and, of the worker's four hands, that one
    /// holds a record with its position, serial and length.
    pub fn held_hand(&self, tag: u64, worker: u32, hands: &[Option<OutRecord>]) -> Option<u32>
        requires four { length hands.now ≡ 4 }
        ensures exact { IsSome result ↔ ((self.now.tag ≡ tag) × (self.now.granted.worker ≡ worker) × (in_hand hands.now self.now.hand ≡ Some (out_record self.now.granted.pos self.now.granted.serial (length self.now.granted.bytes)))) }
        ensures hand { IfSome result (λ hand. hand ≡ self.now.hand) }
    {
        let hand = self.hand;
        if self.tag != tag || self.worker != worker || hand >= 4 {
            return None;
        }
        let out = hands[hand as usize]?;
        if out.pos == self.pos && out.serial == self.serial && out.len == self.sheet.len() {
            Some(hand)
        } else {
            None
        }
    }
}

impl Lent for Reservation {
    ghost use Rattle.rb_lend.specs.Ranges.{in_place_of};
    ghost use Rattle.rb_lend.specs.Rewritten.{rewritten_in_place};

    ghost bytes_of = { λ r. r.granted.bytes };

    ghost with_bytes = { λ r w. record r { granted = record r.granted { bytes = in_place_of r.granted.bytes w } } };

    #[inline(always)]
    fn bytes(&self) -> &[u8] {
        self.sheet.bytes()
    }

    #[inline(always)]
    fn bytes_mut(&mut self) -> &mut [u8] {
        self.sheet.bytes_mut()
    }

    #[inline(always)]
    fn range_mut(&mut self, at: usize, len: usize) -> &mut [u8] {
        self.sheet.range_mut(at, len)
    }

    ghost rewritten = { λ s w e. rewritten_in_place s.granted.bytes w e };
}
