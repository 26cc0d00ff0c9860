//! Segments in memory.

ghost use Rattle.std.specs.Prelude.{◌≡◌, [], ◌∷◌, ◌++◌, map, IfOk, OnErr, OnOk};
ghost use Rattle.rb_segments.specs.Known.{stored};
ghost use Rattle.rb_segments.specs.MemorySegments.{memory_segment};

use crate::store::SegmentStore;
use crate::stored_segment::StoredSegment;
use rb_io::{DeviceFault, Outgoing};
use std::alloc::{AllocError, Global};
use std::collections::VecDeque;
use std::io;
use std::io::Write;

/// A segment in memory.
#[derive(Drop)]
pub struct MemorySegment {
    /// The position that names it.
    pub position: u64,
    /// Its bytes.
    pub bytes: Vec<u8>,
}

/// A file in memory, to which a segment is written.
#[derive(Drop)]
pub struct MemoryFile {
    /// The bytes that were written.
    pub bytes: Vec<u8>,
}

impl Write for MemoryFile {
    ghost use Rattle.std.specs.Prelude.{Some};

    ghost contents = { λ file. Some file.bytes.items };

    fn write(&mut self, piece: &[u8]) -> io::Result<usize> {
        self.bytes.write(piece)
    }

    fn flush(&mut self) -> io::Result<()> {
        Ok(())
    }
}

impl Outgoing for MemoryFile {
    ghost use Rattle.std.specs.Prelude.{[], Some, ◌≡◌};
    ghost use Rattle.std.proofs.Common.{sym, ap, append-nil};

    ghost went = { λ file. Some file.bytes.items };

    ghost waiting = { λ file. [] };

    ghost writes_out = { λ old ok new. new ≡ old };

    ghost contents_are = { λ file. ap Some (sym (append-nil file.bytes.items)) };

    fn write_out(&mut self) -> io::Result<()> {
        Ok(())
    }
}

/// A store that keeps segments in memory, the oldest first. Contracts know all of its bytes.
#[derive(Drop)]
pub struct MemoryStore {
    /// The closed segments.
    pub closed: VecDeque<MemorySegment>,
    /// The positions of the segments that were created and not closed.
    pub created: VecDeque<u64>,
    /// The allocator.
    pub alloc: Global,
}

impl MemoryStore {
    ghost use Rattle.std.specs.Prelude.{◌≡◌, []};

    /// Returns a store without segments.
    pub fn new(alloc: Global) -> MemoryStore
        ensures empty { result.closed.items ≡ [] }
        ensures none_created { result.created.items ≡ [] }
    {
        MemoryStore {
            closed: VecDeque::new(alloc),
            created: VecDeque::new(alloc),
            alloc,
        }
    }
}

impl SegmentStore<MemoryFile> for MemoryStore {
    ghost use Rattle.std.specs.Prelude.{⊤, Some, map};
    ghost use Rattle.rb_segments.specs.MemorySegments.{memory_segment};

    ghost segments = { λ store. Some (map memory_segment store.closed.items) };

    ghost created = { λ store. Some store.created.items };

    ghost is_synced = { λ store file. ⊤ };

    fn create(&mut self, position: u64) -> Result<MemoryFile, DeviceFault> {
        if self.created.push_back(position).is_err() {
            return Err(DeviceFault);
        }
        Ok(MemoryFile {
            bytes: Vec::new(self.alloc),
        })
    }

    fn sync(&mut self, _file: &MemoryFile) -> Result<(), DeviceFault> {
        Ok(())
    }

    fn close(&mut self, position: u64, file: &MemoryFile) -> Result<(), DeviceFault> {
        if add(
            self.alloc,
            &mut self.closed,
            position,
            file.bytes.as_slice(),
        )
        .is_err()
        {
            return Err(DeviceFault);
        }
        self.created.pop_front();
        Ok(())
    }

    fn delete_oldest(&mut self, _position: u64) -> Result<(), DeviceFault> {
        match self.closed.pop_front() {
            Some(_) => Ok(()),
            None => Err(DeviceFault),
        }
    }

    fn list(&mut self, alloc: Global) -> Result<Vec<StoredSegment>, DeviceFault> {
        match listed(alloc, &self.closed) {
            Ok(list) => Ok(list),
            Err(AllocError) => Err(DeviceFault),
        }
    }

    fn read_newest(&mut self, alloc: Global, _position: u64) -> Result<Vec<u8>, DeviceFault> {
        let Some(newest) = self.closed.back() else {
            return Err(DeviceFault);
        };
        match copied(alloc, newest.bytes.as_slice()) {
            Ok(bytes) => Ok(bytes),
            Err(AllocError) => Err(DeviceFault),
        }
    }

    fn reopen(&mut self, position: u64, length: u64) -> Result<MemoryFile, DeviceFault> {
        if self.created.push_back(position).is_err() {
            return Err(DeviceFault);
        }
        let Some(newest) = self.closed.pop_back() else {
            return Err(DeviceFault);
        };
        let MemorySegment {
            position: _,
            mut bytes,
        } = newest;
        bytes.truncate(length as usize);
        Ok(MemoryFile { bytes })
    }
}

// Returns a listing of these segments.
fn listed(alloc: Global, closed: &VecDeque<MemorySegment>) -> Result<Vec<StoredSegment>, AllocError>
    ensures listed { IfOk result (λ list. list.items ≡ map stored (map memory_segment closed.now.items)) }
{
    let mut list = Vec::new(alloc);
    for at in 0..closed.len() {
        let segment = &closed[at];
        list.push(StoredSegment {
            position: segment.position,
            length: segment.bytes.len() as u64,
        })?;
    }
    Ok(list)
}

// Adds a copy of the bytes as the newest segment.
fn add(
    alloc: Global,
    closed: &mut VecDeque<MemorySegment>,
    position: u64,
    bytes: &[u8],
) -> Result<(), AllocError>
    ensures added { OnOk result (map memory_segment closed.new.items ≡ map memory_segment closed.old.items ++ record { position = position; bytes = bytes.now } ∷ []) }
    ensures kept { OnErr result (closed.new.items ≡ closed.old.items) }
{
    let bytes = copied(alloc, bytes)?;
    closed.push_back(MemorySegment { position, bytes })?;
    Ok(())
}

// Returns a copy of the bytes.
fn copied(alloc: Global, bytes: &[u8]) -> Result<Vec<u8>, AllocError>
    ensures { IfOk result (λ copy. copy.items ≡ bytes.now) }
{
    bytes.to_vec(alloc)
}
