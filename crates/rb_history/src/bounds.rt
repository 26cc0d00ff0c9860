//! The checks of a ring's parameters, which every implementation of a ring makes.

ghost use Rattle.std.specs.Prelude.{◌↔◌, IsTrue, IsErrOf, OnOk};
ghost use Rattle.rb_history.specs.RingModel.{IsRingSize, IsStartPosition, IsWorkerCount};

use thiserror::Error;

/// The highest position of a ring, in bytes: 2^62. (Own; the kernel's positions wrap.)
///
/// Positions only grow. A record advances them by at most 2^32 + 8, and the room rule adds a size of at most 2^26, so
/// with positions up to 2^62 no sum comes near 2^64. From the highest start, 2^61, there are 2^61 bytes left to grant:
/// 73 years at a gigabyte a second.
pub const POSITION_LIMIT: u64 = 1 << 62;

/// Why a ring can't be created with the given parameters: the first of these that applies, in this order.
#[derive(Clone, Copy, Debug, Error, PartialEq, Eq)]
pub enum SetupFault {
    /// The size in bytes is not a power of two from 4,096 to 67,108,864.
    #[error("the size is not a power of two from 4096 to 67108864")]
    Size,
    /// The start is not a multiple of 8, or is greater than 2^61.
    #[error("the start is not a multiple of 8 up to 2^61")]
    Start,
    /// The number of workers is not in 1 to 256.
    #[error("the number of workers is not in 1 to 256")]
    Workers,
}

/// Returns whether `size` is a valid ring size in bytes: a power of two from 4,096 to 67,108,864. (Linux
/// Documentation/bpf/ringbuf.rst requires a power of two; the bounds are own.)
///
/// Takes constant time.
pub fn is_size(size: u64) -> bool
    ensures test { IsTrue result ↔ IsRingSize size }
{
    if size < 4096 || size > 67_108_864 {
        return false;
    }
    size.next_power_of_two() == size
}

/// Returns whether a ring's positions may start at `start`: a multiple of 8, at most 2^61. Takes constant time.
pub fn is_start(start: u64) -> bool
    ensures test { IsTrue result ↔ IsStartPosition start }
{
    start % 8 == 0 && start <= 1 << 61
}

/// Returns whether a ring may have this number of workers: 1 to 256. Takes constant time.
pub fn is_worker_count(workers: u32) -> bool
    ensures test { IsTrue result ↔ IsWorkerCount workers }
{
    1 <= workers && workers <= 256
}

/// Checks the parameters of a ring, and returns the first `SetupFault` that applies. Takes constant time.
pub fn check_setup(size: u64, start: u64, workers: u32) -> Result<(), SetupFault>
    ensures size { IsErrOf result SetupFault.Size ↔ ¬ IsRingSize size }
    ensures start { IsErrOf result SetupFault.Start ↔ (IsRingSize size × ¬ IsStartPosition start) }
    ensures workers { IsErrOf result SetupFault.Workers ↔ (IsRingSize size × IsStartPosition start × ¬ IsWorkerCount workers) }
    ensures allowed { OnOk result (IsRingSize size × IsStartPosition start × IsWorkerCount workers) }
{
    if !is_size(size) {
        return Err(SetupFault::Size);
    }
    if !is_start(start) {
        return Err(SetupFault::Start);
    }
    if !is_worker_count(workers) {
        return Err(SetupFault::Workers);
    }
    Ok(())
}
