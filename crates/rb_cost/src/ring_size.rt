//! The required size of a ring.

ghost use Rattle.std.specs.Prelude.{◌≡◌};
ghost use Rattle.rb_cost.specs.RingSize.{LeastRingsAreLeast, least_ring};

/// The number of jobs that may have records in a ring at once: those that workers run, and finished ones whose records
/// the consumer has not all taken.
#[derive(Clone, Copy, Debug, PartialEq, Eq)]
pub struct JobsAtOnce {
    /// The number of workers, each of which runs one job at a time.
    pub workers: u32,
    /// The maximal number of finished jobs by which the consumer lags behind.
    pub behind: u32,
}

// The possible sizes of a ring: the powers of two from a page, 4,096 bytes, to 67,108,864.
const RING_SIZES: [u64; 15] = [
    4096, 8192, 16_384, 32_768, 65_536, 131_072, 262_144, 524_288, 1_048_576, 2_097_152, 4_194_304,
    8_388_608, 16_777_216, 33_554_432, 67_108_864,
];

/// Returns the smallest ring size greater than `n` bytes, a power of two from 4,096 to 67,108,864, or `None` if none of
/// them is greater. Takes constant time.
pub fn least_ring(n: u128) -> Option<u64>
    ensures { result ≡ least_ring n }
{
    RING_SIZES
        .iter()
        .copied()
        .find(|size| n < u128::from(*size))
}

/// States that the smallest ring is the smallest of all possible ring sizes.
///
/// The function does nothing; its contract is the law.
pub fn least_rings_are_least()
    ensures { LeastRingsAreLeast }
{}
