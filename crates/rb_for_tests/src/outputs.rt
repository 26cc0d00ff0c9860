//! Records that a producer outputs, however long it takes.

ghost use Rattle.std.specs.Prelude.{◌≡◌, ◌≤◌, ◌+◌, replicate};
ghost use Rattle.rb_ledger.specs.Seats.{IsSameSeat};

use crate::producer::Producer;
use rb_lend::{Lent, Sheet};
use rb_shared_ring::{Seat, SharedRing, WaitBackoff};
use std::alloc::Global;
use std::sync::Wait;
use std::thread;

/// A producer that outputs this many records, all of the same length. A record's bytes are its index, modulo 256.
#[derive(Clone, Copy)]
pub struct Outputs {
    /// The allocator of the records' bytes.
    pub alloc: Global,
    /// The number of records that each worker outputs.
    pub records: u32,
    /// The length of a record in bytes.
    pub len: u32,
}

impl Producer for Outputs {
    ghost is_done = { λ o seat. o.records ≤ seat.tally.submitted };

    fn produce<R: Wait>(&self, rt: &R, ring: &SharedRing, seat: &mut Seat) {
        for number in 0..self.records {
            let mut record = sheet(rt, self.alloc, self.len);
            record.bytes_mut().fill((number % 256) as u8);
            output(rt, ring, seat, record, 0);
        }
    }
}

/// Outputs one record, retrying while it is refused, with a longer wait each time. Never returns for flags above 3, or
/// at a ring with another tag.
pub fn output<R: Wait>(rt: &R, ring: &SharedRing, seat: &mut Seat, sheet: Sheet, flags: u64)
    requires ring { seat.old.ring ≡ ring.now.ring }
    ensures seat { IsSameSeat seat.old seat.new }
    ensures made { seat.new.tally.made ≡ seat.old.tally.made + 1 }
    ensures submitted { seat.new.tally.submitted ≡ seat.old.tally.submitted + 1 }
    ensures discarded { seat.new.tally.discarded ≡ seat.old.tally.discarded }
{
    let mut sheet = sheet;
    let mut backoff = WaitBackoff::new();
    for _ in rt.forever() {
        match ring.output(rt, seat, sheet, flags) {
            Ok(_) => return,
            Err((_, back)) => sheet = back,
        }
        backoff.wait();
    }
    unreachable!()
}

/// Returns a sheet of `len` zeros, once it can be allocated.
pub fn sheet<R: Wait>(rt: &R, alloc: Global, len: u32) -> Sheet
    ensures zeros { result ≡ replicate len 0 }
{
    for _ in rt.forever() {
        if let Ok(sheet) = Sheet::new(alloc, len) {
            return sheet;
        }
        thread::yield_now();
    }
    unreachable!()
}
