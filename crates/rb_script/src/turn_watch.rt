//! An observer of a script's progress.

/// Observes the progress of a script.
pub trait TurnWatch {
    /// Called after each turn, once its lines were appended, with the total number of turns. Nothing is promised about
    /// what it does.
    fn turned(&self, all: usize);
}

/// A watch that does nothing.
pub struct NoWatch;

impl TurnWatch for NoWatch {
    fn turned(&self, _all: usize) {}
}
