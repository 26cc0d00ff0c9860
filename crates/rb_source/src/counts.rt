//! Counts of contexts.

ghost use Rattle.std.specs.Prelude.{◌≡◌, not};
ghost use Rattle.rb_source.specs.inner.Counted.{saturated_by};

/// The numbers of contexts that have arrived. Each count saturates at `u64::MAX`.
#[derive(Clone, Copy, Debug, Default, PartialEq, Eq)]
pub struct ContextCounts {
    /// Contexts that were given, including those that were cut.
    pub given: u64,
    /// Contexts that were skipped because of their length.
    pub skipped: u64,
    /// Contexts that were given and were cut.
    pub cut: u64,
}

impl ContextCounts {
    // Counts one more context.
    pub(crate) fn add(&mut self, given: bool, cut: bool)
        ensures { self.new ≡ record { given = saturated_by self.old.given given; skipped = saturated_by self.old.skipped (not given); cut = saturated_by self.old.cut cut } }
    {
        self.given = self.given.saturating_add(u64::from(given));
        self.skipped = self.skipped.saturating_add(u64::from(!given));
        self.cut = self.cut.saturating_add(u64::from(cut));
    }
}
