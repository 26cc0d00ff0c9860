//! A record that one of several rings granted.

use crate::reservation::Reservation;
use rb_lend::Lent;

/// A record that one of several rings granted: the number of its ring, and the reservation.
#[derive(Drop)]
pub struct RingRecord {
    /// The number of the ring.
    pub ring: u32,
    /// The reservation at that ring.
    pub reservation: Reservation,
}

impl Lent for RingRecord {
    ghost use Rattle.rb_lend.specs.Rewritten.{rewritten_in_place};
    ghost use Rattle.rb_chapter_ring.specs.RingRecords.{reserved_bytes, with_record_bytes};

    ghost bytes_of = { reserved_bytes };

    ghost with_bytes = { with_record_bytes };

    fn bytes(&self) -> &[u8] {
        self.reservation.bytes()
    }

    fn bytes_mut(&mut self) -> &mut [u8] {
        self.reservation.bytes_mut()
    }

    fn range_mut(&mut self, at: usize, len: usize) -> &mut [u8] {
        self.reservation.range_mut(at, len)
    }

    ghost rewritten = { λ s w e. rewritten_in_place s.reservation.granted.bytes w e };
}
