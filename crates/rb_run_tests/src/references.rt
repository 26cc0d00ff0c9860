//! The references that a state of the verifier holds.

ghost use Rattle.std.specs.Prelude.{◌≡◌, ◌<◌};

use super::expected::same;
use rb_verifier::{Held, Reference};
use std::alloc::Global;

/// A reference to a record of 8 bytes.
fn reference(id: u32, sure: bool) -> Reference
    ensures { result.id ≡ id }
{
    Reference {
        id,
        ring: 0,
        size: 8,
        sure,
    }
}

// Returns references to three records, the first two of which are sure.
fn three(alloc: Global, is_third_sure: bool) -> Held {
    Held::new(alloc)
        .added(reference(1, true))
        .added(reference(2, true))
        .added(reference(3, is_third_sure))
}

#[test]
fn references_are_held(rt: HostRuntime) {
    let none = Held::new(rt.alloc());
    let held = three(rt.alloc(), false);
    let counts = (none.as_slice().len(), held.as_slice().len());
    same(&rt, &counts, &(0, 3));
    let likenesses = [
        held.as_slice() == three(rt.alloc(), false).as_slice(),
        held.as_slice() == none.as_slice(),
        held.as_slice() == three(rt.alloc(), true).as_slice(),
    ];
    same(&rt, &likenesses, &[true, false, false]);
    let found = (held.get(2), held.get(4));
    same(&rt, &found, &(Some(reference(2, true)), None));
}
