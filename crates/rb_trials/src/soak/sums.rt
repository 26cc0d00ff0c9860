//! What seats and closed rings counted.

/// What the seats and the consumers of some rings counted, and the number of errors.
#[derive(Clone, Copy)]
pub(crate) struct SoakSums {
    pub(crate) made: u64,
    pub(crate) refused: u64,
    pub(crate) submitted: u64,
    pub(crate) discarded: u64,
    pub(crate) consumed: u64,
    pub(crate) skipped: u64,
    /// How many chapters were handed out.
    pub(crate) chapters: u64,
    /// How many entries the bound chapters had.
    pub(crate) bound: u64,
    pub(crate) wrong: u64,
}

impl SoakSums {
    /// Returns the sums of no ring.
    pub(crate) fn none() -> SoakSums {
        SoakSums {
            made: 0,
            refused: 0,
            submitted: 0,
            discarded: 0,
            consumed: 0,
            skipped: 0,
            chapters: 0,
            bound: 0,
            wrong: 0,
        }
    }

    /// Adds the sums of other rings.
    pub(crate) fn add(&mut self, other: &SoakSums) {
        self.made = self.made.wrapping_add(other.made);
        self.refused = self.refused.wrapping_add(other.refused);
        self.submitted = self.submitted.wrapping_add(other.submitted);
        self.discarded = self.discarded.wrapping_add(other.discarded);
        self.consumed = self.consumed.wrapping_add(other.consumed);
        self.skipped = self.skipped.wrapping_add(other.skipped);
        self.chapters = self.chapters.wrapping_add(other.chapters);
        self.bound = self.bound.wrapping_add(other.bound);
        self.wrong = self.wrong.saturating_add(other.wrong);
    }

    /// Counts an error unless the condition holds.
    pub(crate) fn expect(&mut self, holds: bool) {
        if !holds {
            self.wrong = self.wrong.saturating_add(1);
        }
    }
}
