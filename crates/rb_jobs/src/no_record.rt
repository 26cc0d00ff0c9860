//! Why a helper call made no record.

use rb_shared_ring::{ReserveFault, WaitBackoff};

/// Why a call of `reserve` or `output` made no record.
#[derive(Clone, Copy, PartialEq, Eq)]
pub(crate) enum NoRecord {
    /// The flags are unknown. Nothing was tried.
    BadFlags,
    /// The record's sheet could not be allocated, or a sheet can't have that many bytes. The ring was not called.
    NoSheet,
    /// The ring refused it.
    Refused(ReserveFault),
}

#[cold]
#[inline(never)]
/// If the ring is full, waits for a few microseconds and yields the processor: the ring's consumer is late, perhaps
/// because it has no processor. The next calls would find no room either, and would finish much sooner than calls that
/// find some. If the ring's chapter was full, the worker has waited already.
pub(crate) fn give_way(fault: ReserveFault) {
    if matches!(fault, ReserveFault::Full) {
        WaitBackoff::new().wait();
    }
}

#[cold]
#[inline(never)]
/// Waits after the ring's chapter was full at `calls` + 1 calls, and yields the processor. It waits for a few
/// microseconds after the first call, twice as long after each of the next three, and from then on as long as after the
/// fourth.
pub(crate) fn wait_for_keeper(calls: u32) {
    let times = match calls {
        0 => 1,
        1 => 2,
        2 => 4,
        _ => 8,
    };
    let WaitBackoff { backoffs } = WaitBackoff::new();
    let mut backoff = WaitBackoff {
        backoffs: backoffs.saturating_mul(times),
    };
    backoff.wait();
}
