//! The records that were granted and not taken yet, as an implementation keeps them in a list.

ghost use Rattle.rb_history.specs.StoredRecords.{IsTakenOf};

use crate::answers::Taken;
use rb_lend::Sheet;

/// The state of a record that was not taken yet (Linux Documentation/bpf/ringbuf.rst: reserved, then committed or
/// discarded).
#[derive(Drop)]
pub enum RecordState {
    /// The record is busy: it was neither submitted nor discarded yet. Its worker holds its bytes.
    Reserved,
    /// The record was submitted and waits for the consumer, with its bytes.
    Submitted(Sheet),
    /// The record was discarded, and a take will skip it.
    Discarded,
}

/// A record that was granted and not taken yet.
#[derive(Drop)]
pub struct StoredRecord {
    /// The position, in bytes.
    pub pos: u64,
    /// The length in bytes.
    pub len: u32,
    /// The number of the worker to which the record was granted.
    pub worker: u32,
    /// The number of records that were granted to that worker before.
    pub serial: u64,
    /// The state.
    pub state: RecordState,
}

impl StoredRecord {
    /// Returns what a take of this record returns: the event with its bytes if it was submitted, otherwise a skip with
    /// its position and length. No ring takes a busy record.
    ///
    /// Takes constant time and does not allocate.
    pub fn taken(self) -> Taken
        ensures taken { IsTakenOf self result }
    {
        let StoredRecord {
            pos,
            len,
            worker,
            serial,
            state,
        } = self;
        match state {
            RecordState::Submitted(sheet) => Taken::Event(pos, worker, serial, sheet),
            _ => Taken::Skipped(pos, len),
        }
    }
}
