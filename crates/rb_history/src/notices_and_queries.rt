//! The numbers that programs pass to the ring's helpers (Linux include/uapi/linux/bpf.h, bpf-helpers(7)), and the rule
//! for notifications.

ghost use Rattle.std.specs.Prelude.{◌≡◌, ◌↔◌};
ghost use Rattle.rb_history.specs.NoticesAndQueries.{IsDue};

use crate::answers::Notice;

/// The flag that suppresses the notification of the consumer (BPF_RB_NO_WAKEUP).
pub const NO_WAKEUP: u64 = 1;

/// The flag that forces a notification of the consumer (BPF_RB_FORCE_WAKEUP).
pub const FORCE_WAKEUP: u64 = 2;

/// Both flags. A greater number has a flag that `output` does not know.
pub const KNOWN_FLAGS: u64 = NO_WAKEUP | FORCE_WAKEUP;

/// The query for the number of bytes between the two positions (BPF_RB_AVAIL_DATA).
pub const AVAIL_DATA: u64 = 0;

/// The query for the size of the ring (BPF_RB_RING_SIZE).
pub const RING_SIZE: u64 = 1;

/// The query for the consumer position (BPF_RB_CONS_POS).
pub const CONS_POS: u64 = 2;

/// The query for the producer position (BPF_RB_PROD_POS).
pub const PROD_POS: u64 = 3;

/// Returns whether the consumer, at position `consumer`, is to be notified of the record at position `pos`.
/// (bpf-helpers(7), bpf_ringbuf_output.)
///
/// A notification is always due under `FORCE_WAKEUP`, otherwise never under `NO_WAKEUP`, and otherwise if and only if
/// `pos` equals `consumer`. Other flags are ignored. Takes constant time.
pub fn notice_for(consumer: u64, pos: u64, flags: u64) -> Notice
    ensures due { (result ≡ Notice.Due) ↔ IsDue consumer pos flags }
{
    if flags & FORCE_WAKEUP != 0 || (flags & NO_WAKEUP == 0 && pos == consumer) {
        Notice::Due
    } else {
        Notice::NotDue
    }
}
