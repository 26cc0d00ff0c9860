//! The directory of segments.

ghost use Rattle.std.specs.Prelude.{IfErr, IfOk};
ghost use Rattle.rb_history.specs.RingModel.{IsRingSize, IsStartPosition};
ghost use Rattle.rb_service.specs.Command.{IsLater};

use crate::options::{NamedRing, SegmentFolder};
use crate::refusal::StreamRefusal;
use rb_history::is_start;
use rb_segments::{
    DirectoryFault, DirectoryStore, OpeningFault, SegmentFile, SegmentWriter, SegmentedRing,
    enter_ring, lock_folder, ring_numbers,
};
use std::alloc::Global;
use std::fs::{self, File};
use std::rt::Files;

/// Creates the directory if there is none, and locks it until the file is dropped.
pub(crate) fn lock<'a, T: Files<File = File>>(
    rt: &T,
    alloc: Global,
    folder: SegmentFolder<'a>,
) -> Result<File, StreamRefusal<'a>>
    ensures later { IfErr result IsLater }
{
    if fs::create_dir_all(rt, folder.path).is_err() {
        return Err(StreamRefusal::Folder(folder.path));
    }
    match lock_folder(rt, alloc, folder.path) {
        Ok(lock) => Ok(lock),
        Err(DirectoryFault::Locked) => Err(StreamRefusal::Locked(folder.path)),
        Err(_) => Err(StreamRefusal::Folder(folder.path)),
    }
}

/// Refuses the first ring that the directory has with another size, or whose file is damaged. Changes nothing.
pub(crate) fn check_rings<'a, T: Files<File = File>>(
    rt: &T,
    alloc: Global,
    folder: SegmentFolder<'a>,
    rings: &[NamedRing<'a>],
) -> Result<(), StreamRefusal<'a>>
    ensures later { IfErr result IsLater }
{
    for at in 0..rings.len() {
        let ring = rings[at];
        if ring.out.is_none() {
            check_ring(rt, alloc, folder, ring)?;
        }
    }
    Ok(())
}

// Refuses a ring that the directory has with another size, or whose file is damaged.
fn check_ring<'a, T: Files<File = File>>(
    rt: &T,
    alloc: Global,
    folder: SegmentFolder<'a>,
    ring: NamedRing<'a>,
) -> Result<(), StreamRefusal<'a>>
    ensures later { IfErr result IsLater }
{
    match ring_numbers(rt, alloc, folder.path, ring.name) {
        Ok(None) => Ok(()),
        Ok(Some(found)) if found.size == ring.size => Ok(()),
        Ok(Some(found)) => Err(StreamRefusal::OtherSize(ring.name, found.size)),
        Err(_) => Err(StreamRefusal::Segments(ring.name)),
    }
}

/// Opens the tape of a ring in the directory. A new one starts at position 0. Otherwise the newest segment is truncated to its
/// longest list of whole records, and the tape continues after them.
pub(crate) fn open_segments<'a, T: Files<File = File>>(
    rt: &'a T,
    alloc: Global,
    folder: SegmentFolder<'a>,
    ring: NamedRing<'a>,
) -> Result<SegmentWriter<DirectoryStore<'a, T>, SegmentFile<File>>, StreamRefusal<'a>>
    requires size { IsRingSize ring.size }
    ensures begins { IfOk result (λ tape. IsStartPosition tape.position) }
    ensures later { IfErr result IsLater }
{
    let asked = SegmentedRing {
        size: ring.size,
        start: 0,
    };
    let found = match enter_ring(rt, alloc, folder.path, ring.name, asked) {
        Ok(found) => found,
        Err(DirectoryFault::Size(size)) => return Err(StreamRefusal::OtherSize(ring.name, size)),
        Err(_) => return Err(StreamRefusal::Segments(ring.name)),
    };
    if !is_start(found.start) {
        return Err(StreamRefusal::Segments(ring.name));
    }
    let store = DirectoryStore::new(rt, alloc, folder.path, ring.name);
    match SegmentWriter::open(alloc, store, ring.size, found.start, folder.plan) {
        Ok(tape) => Ok(tape),
        Err(OpeningFault::Memory) => Err(StreamRefusal::Memory),
        Err(_) => Err(StreamRefusal::Segments(ring.name)),
    }
}
