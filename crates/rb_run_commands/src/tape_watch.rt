//! An observer of a tape being written.

use rb_workers::OpenGate;

/// An observer that a tape's sink calls each time all records up to a position have been flushed below its buffer.
pub trait TapeWatch {
    /// Called on the consumer's thread with the position up to which the tape of a ring of `size` bytes is written,
    /// which is the consumer position. `caught_up` is whether the consumer had just taken everything that it could.
    /// Nothing is promised about what a watch does.
    fn written_out(&self, position: u64, size: u64, caught_up: bool);
}

impl TapeWatch for OpenGate {
    fn written_out(&self, _position: u64, _size: u64, _caught_up: bool) {}
}
