//! Waiting.

use crate::expected::same;
use rb_shared_ring::WaitBackoff;

#[test]
fn waits_grow_up_to_a_limit(rt: HostRuntime) {
    let mut backoff = WaitBackoff::new();
    for backoffs in &[11, 22, 44, 88, 88] {
        same(&rt, &backoff.backoffs, backoffs);
        backoff.wait();
    }
}
