//! The number of contexts that a worker may run in a turn.

ghost use Rattle.std.specs.Prelude.{◌≡◌, ◌*◌, ◌<◌, ◌^◌, find, nat_lt};
ghost use Rattle.rb_cost.specs.TurnSize.{LeastRingsHaveTurns, TurnsFit, contexts_at_once, turn_lengths};

// The numbers of contexts from which a turn is chosen, if more than one fits.
const TURN_LENGTHS: [u16; 4] = [16, 8, 4, 2];

// Returns the longest turn of more than one context for which the turns of all workers leave more than half of the
// ring.
fn longer_turn(size: u128, one_each: u128) -> Option<u16>
    requires { one_each < 2 ^ 96 }
    ensures { result ≡ find (λ n. nat_lt (2 * n * one_each) size) turn_lengths }
{
    TURN_LENGTHS
        .iter()
        .copied()
        .find(|n| 2 * u128::from(*n) * one_each < size)
}

/// Returns how many contexts each worker may run in a turn, or `None` if a ring of `size` bytes is too small for one
/// context of every worker.
///
/// Each context requests at most `cost` bytes from the ring: the sum of `RingCost::bytes` over the programs that run on
/// it. The result is 16, 8, 4 or 2 if the turns of all workers leave more than half of the ring, and otherwise 1. A
/// worker that begins a turn only when there is room for a turn of every worker is then never refused a record
/// (`rb_admission`). The smallest ring with a result is `least_ring(workers * cost)`. Takes constant time.
pub fn contexts_at_once(size: u64, workers: u32, cost: u64) -> Option<u32>
    ensures { result ≡ contexts_at_once size workers cost }
{
    let one_each = u128::from(workers) * u128::from(cost);
    if one_each >= u128::from(size) {
        return None;
    }
    match longer_turn(u128::from(size), one_each) {
        Some(n) => Some(u32::from(n)),
        None => Some(1),
    }
}

/// States that turns fit the empty ring, and that the smallest ring larger than what one context of every worker
/// requests is the smallest in which turns are possible.
///
/// The function does nothing; its contract is the law.
pub fn turns_fit_their_ring()
    ensures fit { TurnsFit }
    ensures least { LeastRingsHaveTurns }
{}
