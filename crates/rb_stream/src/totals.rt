//! The counts of all workers together.

ghost use Rattle.std.specs.Prelude.{◌≡◌, ◌∷◌, [], length};
ghost use Rattle.rb_stream.specs.inner.Counts.{AddsCounts, AddsResults, SameTables};

use rb_stream_worker::{ResultCounts, StreamCounts};

// Adds one table to another with the same bound.
fn add_results(total: &mut ResultCounts, own: &ResultCounts)
    requires bound { length own.now.below.items ≡ length total.old.below.items }
    ensures added { AddsResults own.now total.old total.new }
{
    for at in 0..total.below.len() {
        total.below[at] = total.below[at].saturating_add(own.below[at]);
    }
    total.other = total.other.saturating_add(own.other);
}

/// Adds the counts of one worker.
pub(crate) fn add_counts(total: &mut StreamCounts, own: &StreamCounts)
    requires tables { SameTables own.now total.old }
    ensures added { AddsCounts (own.now ∷ []) total.old total.new }
{
    for at in 0..total.results.len() {
        add_results(&mut total.results[at], &own.results[at]);
    }
    total.contexts = total.contexts.saturating_add(own.contexts);
    total.left = total.left.saturating_add(own.left);
    total.unlogged = total.unlogged.saturating_add(own.unlogged);
    total.stopped = total.stopped || own.stopped;
}
