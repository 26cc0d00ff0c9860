//! The number of failed calls of a writer. Only contracts read it.

ghost use Rattle.std.specs.Prelude.{◌≡◌, ◌+◌, ℕ};
ghost use Rattle.std.specs.Borrow.{ftrue};

use std::marker::Model;

/// The number of failed calls. A value of this type has no bytes and does nothing when the program runs: only contracts
/// read it.
#[derive(Drop)]
pub(crate) struct Failures {
    ghost count: { ℕ },
}

impl Model for Failures {
    ghost also_owns = { λ _. ftrue };
}

// It owns nothing.
unsafe impl Send for Failures {}

unsafe impl Sync for Failures {}

impl Failures {
    /// Returns the count of 0.
    pub(crate) fn none() -> Failures
        ensures count { result.count ≡ 0 }
    {
        Failures {}
    }

    /// Returns the count plus one.
    pub(crate) fn and_one(_before: &Failures) -> Failures
        ensures count { result.count ≡ _before.now.count + 1 }
    {
        Failures {}
    }
}
