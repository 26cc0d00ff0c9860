//! The segments of a ring's tape, and what comes after one of them.

use rb_segments::{DirectoryStore, SegmentStore, StoredSegment, marked_end};
use std::alloc::Global;
use std::io;
use std::io::{Error, ErrorKind};
use std::rt::Files;

/// What comes after the bytes that were read.
#[derive(Clone, Copy, Debug, PartialEq, Eq)]
pub(crate) enum NextSegment {
    /// More may be there already.
    More,
    /// Nothing yet.
    Waiting,
    /// Nothing: the tape ended there in order.
    Ended,
    /// The next segments were deleted; this one is the oldest.
    Deleted(u64),
}

/// Lists the ring's segments, the oldest first.
pub(crate) fn segments<R: Files>(
    rt: &R,
    alloc: Global,
    folder: &str,
    ring: &str,
) -> io::Result<Vec<StoredSegment>> {
    let mut store = DirectoryStore::new(rt, alloc, folder, ring);
    match store.list(alloc) {
        Ok(list) => Ok(list),
        Err(_) => Err(store.error.unwrap_or(Error::from(ErrorKind::Other))),
    }
}

/// Returns what comes after this position, for which there is no segment.
pub(crate) fn next_place<R: Files>(
    rt: &R,
    alloc: Global,
    folder: &str,
    ring: &str,
    position: u64,
) -> io::Result<NextSegment> {
    if marked_end(rt, alloc, folder, ring)? == Some(position) {
        return Ok(NextSegment::Ended);
    }
    let list = segments(rt, alloc, folder, ring)?;
    match list.first() {
        Some(oldest) if oldest.position > position => Ok(NextSegment::Deleted(oldest.position)),
        _ => Ok(NextSegment::Waiting),
    }
}
