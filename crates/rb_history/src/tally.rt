//! A worker's counts.

ghost use Rattle.std.specs.Prelude.{◌≡◌};

/// The number of entries of one worker in a ring's history, by kind.
#[derive(Clone, Copy, Debug, PartialEq, Eq)]
pub struct Tally {
    /// Records that were granted to the worker.
    pub made: u64,
    /// Reservations of the worker that were refused for lack of room.
    pub refused: u64,
    /// Records of the worker that were submitted.
    pub submitted: u64,
    /// Records of the worker that were discarded.
    pub discarded: u64,
}

impl Tally {
    /// Returns the counts of a worker without entries: four zeros.
    pub fn none() -> Tally
        ensures zeros { result ≡ record { made = 0; refused = 0; submitted = 0; discarded = 0 } }
    {
        Tally {
            made: 0,
            refused: 0,
            submitted: 0,
            discarded: 0,
        }
    }
}
