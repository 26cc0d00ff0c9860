//! Results of turns.

/// What a turn did.
#[derive(Clone, Copy, Debug, PartialEq, Eq)]
pub enum TurnDone {
    /// The worker executed an instruction. If it was a helper call, the call was answered.
    Went,
    /// The worker's program ended with this result.
    Finished(u64),
    /// The worker's program had ended before. Nothing changed.
    Idle,
    /// The consumer took an event.
    Took,
    /// The consumer skipped a discarded record.
    Skipped,
    /// The record at the consumer position is busy. Nothing changed.
    BusyFront,
    /// The ring has no record. Nothing changed.
    Empty,
    /// The keeper handed out the ring's chapter, which has this number. The world keeps it.
    Chapter(u64),
    /// The list of taken records, or the next chapter, could not be allocated. Nothing changed.
    Memory,
}
