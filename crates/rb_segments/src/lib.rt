//! Writes the tape of a ring in segments: files of a directory, each a complete tape that is named by the position of
//! its first record (`specs/Segments.antt`).
//!
//! A `SegmentWriter` writes segments, rolls them and deletes old ones by a `SegmentPlan`; `SegmentWriter::open`
//! continues a tape after a restart. A `SegmentStore` keeps the segments: a `DirectoryStore` as files, a `MemoryStore`
//! in memory.
//!
//! Proved, for a store whose segments are known to contracts: the segments, preceded by the deleted ones, hold exactly
//! the records that were put, unless a fault ended the tape. A restart loses no complete record. Concatenated segments
//! are the tape of their records (`joined_segments_are_the_tape`).
#![tactic(auto)]

mod directory_store;
mod fault;
mod laws;
mod memory_store;
mod names;
mod plan;
mod restart;
mod ring_files;
mod rotation;
mod segment_file;
mod store;
mod stored_segment;
mod writer;

pub use directory_store::DirectoryStore;
pub use fault::{OpeningFault, SegmentFault};
pub use laws::joined_segments_are_the_tape;
pub use memory_store::{MemoryFile, MemorySegment, MemoryStore};
pub use names::segment_path;
pub use plan::SegmentPlan;
pub use ring_files::{
    DirectoryFault, SegmentedRing, enter_ring, lock_folder, mark_end, marked_end, ring_numbers,
};
pub use segment_file::SegmentFile;
pub use store::SegmentStore;
pub use stored_segment::StoredSegment;
pub use writer::SegmentWriter;
