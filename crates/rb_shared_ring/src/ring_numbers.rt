//! The parameters of a shared ring, which never change.

/// The parameters with which a shared ring was opened.
#[derive(Clone, Copy)]
pub struct RingNumbers {
    /// The size of the ring in bytes.
    pub size: u64,
    /// The number of workers.
    pub workers: u32,
    /// The room of each chapter, in entries.
    pub room: u32,
}
