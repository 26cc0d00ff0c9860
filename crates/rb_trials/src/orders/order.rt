//! Orders of actors, as words in lexicographic order.

ghost use Rattle.std.specs.Prelude.{◌<◌, IfSome, length};

use super::plan::OrdersPlan;
use std::alloc::{AllocError, Global};

/// Returns the first order: each worker once for each of its steps, then the consumer, whose letter follows those of
/// the workers.
pub(crate) fn first_order(alloc: Global, plan: &OrdersPlan) -> Result<Vec<u32>, AllocError> {
    let mut order = Vec::new(alloc);
    push_first(&mut order, plan)?;
    Ok(order)
}

fn push_first(order: &mut Vec<u32>, plan: &OrdersPlan) -> Result<(), AllocError> {
    let mut letter: u32 = 0;
    for worker in &plan.workers {
        for _ in 0..worker.steps.len() {
            order.push(letter)?;
        }
        letter = letter.wrapping_add(1);
    }
    for _ in 0..plan.takes {
        order.push(letter)?;
    }
    Ok(())
}

/// Advances an order to the lexicographically next one. Returns false if it was the last.
pub(crate) fn advance(order: &mut [u32]) -> bool {
    let Some(end) = last_rise(order) else {
        return false;
    };
    let Some(other) = last_above(order, order[end - 1]) else {
        return false;
    };
    order.swap(end - 1, other);
    order[end..].reverse();
    true
}

// Returns the last index whose letter is greater than the one before it.
fn last_rise(order: &[u32]) -> Option<usize>
    ensures within { IfSome result (λ place. place < length order.now) }
    ensures not_first { IfSome result (λ place. 0 < place) }
{
    for place in (1..order.len()).rev() {
        if order[place - 1] < order[place] {
            return Some(place);
        }
    }
    None
}

// Returns the last index whose letter is greater than this one.
fn last_above(order: &[u32], letter: u32) -> Option<usize>
    ensures within { IfSome result (λ place. place < length order.now) }
{
    for place in (0..order.len()).rev() {
        if order[place] > letter {
            return Some(place);
        }
    }
    None
}
