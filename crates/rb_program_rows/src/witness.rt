//! Helpers that record the bytes that pass through them.

ghost use Rattle.std.specs.Prelude.{◌≡◌, length, false, refl, true};

use rb_interp::{Done, Helpers, Listed};
use rb_lend::{Lent, Sheet};
use std::alloc::{AllocError, Global};

/// Helpers that answer as others do, and record the bytes of each record that is submitted or discarded, in order.
#[derive(Drop)]
pub(crate) struct Witness {
    listed: Listed,
    bytes: Vec<u8>,
}

impl Witness {
    /// Helpers that answer as these.
    pub(crate) fn new(alloc: Global, listed: Listed) -> Witness {
        let bytes = Vec::new(alloc);
        Witness { listed, bytes }
    }

    /// Returns the bytes of all records that were submitted or discarded.
    pub(crate) fn bytes(&self) -> &[u8] {
        self.bytes.as_slice()
    }

    // Records some bytes, if there is memory for them.
    fn keep(&mut self, bytes: &[u8])
        ensures { self.new.listed ≡ self.old.listed }
    {
        let _kept = self.bytes.extend_from_slice(bytes);
    }
}

impl Helpers for Witness {
    type Record = Sheet;

    ghost trace_of = { λ h. h.listed.trace };

    ghost room_of = { λ h. length h.listed.left };

    ghost has_ring = { λ h ring. true };

    ghost leads = { λ first calls last. Unit {0} };

    ghost keeps_records = { false };

    ghost keeps = { λ h r. ⊥ };

    ghost name_of = { λ r. (0, 0) };

    ghost kept_written = { λ h r w kept. kept };

    ghost name_stays = { λ r w. refl };

    ghost leads_by_none = { λ h. tt };

    ghost leads_on = { λ a b c first more ab bc. tt };

    fn reserve(&mut self, ring: u32, n: u32, flags: u64) -> Option<Sheet> {
        self.listed.reserve(ring, n, flags)
    }

    fn submit(&mut self, owned: Sheet, flags: u64) -> Result<(), Sheet> {
        self.keep(owned.bytes());
        self.listed.submit(owned, flags)
    }

    fn discard(&mut self, owned: Sheet, flags: u64) -> Result<(), Sheet> {
        self.keep(owned.bytes());
        self.listed.discard(owned, flags)
    }

    fn output(&mut self, ring: u32, bytes: &[u8], flags: u64) -> i64 {
        self.listed.output(ring, bytes, flags)
    }

    fn query(&mut self, ring: u32, what: u64) -> u64 {
        self.listed.query(ring, what)
    }

    fn trace(&self) -> &[Done] {
        self.listed.trace()
    }

    fn room(&self) -> usize {
        self.listed.room()
    }
}
