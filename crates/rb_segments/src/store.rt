//! The trait of stores that keep segments.

ghost use Rattle.std.specs.Prelude.{◌≡◌, [], ℕ, List, Option, None, Some, IfOk, IfSome, OnErr, OnOk, map};
ghost use Rattle.rb_segments.specs.Segments.{Segment};
ghost use Rattle.rb_segments.specs.Known.{AddsSegment, ClosesFirst, Creates, IsFirstCreated, IsNewest, IsOldest, RemovesOldest, Reopens, stored};

use crate::stored_segment::StoredSegment;
use rb_io::{DeviceFault, Outgoing};
use std::alloc::Global;

/// A store of segments. `F` is the type of a file to which a segment is being written.
pub trait SegmentStore<F: Outgoing> {
    /// The closed segments, the oldest first, if they are known.
    ghost segments: { Self → Option (List Segment) };

    /// The positions of the segments that were created and not closed, the oldest first, if they are known.
    ghost created: { Self → Option (List ℕ) };

    /// The segment of this file was synced.
    ghost is_synced: { Self → F → Type 0 };

    /// Creates an empty segment with this position, and returns its file.
    fn create(&mut self, position: u64) -> Result<F, DeviceFault>
        ensures segments { segments self.new ≡ segments self.old }
        ensures created { OnOk result (Creates (created self.old) position (created self.new)) }
        ensures not_created { OnErr result (created self.new ≡ created self.old) }
        ensures empty { IfOk result (λ file. IfSome (segments self.old) (λ _. F.contents file ≡ Some [])) }
        ensures synced { (file : F) → is_synced self.old file → is_synced self.new file };

    /// Syncs the file to the disk. No bytes may wait in its buffer.
    fn sync(&mut self, file: &F) -> Result<(), DeviceFault>
        requires nothing_waits { F.waiting file.now ≡ [] }
        ensures segments { segments self.new ≡ segments self.old }
        ensures created { created self.new ≡ created self.old }
        ensures synced { OnOk result (is_synced self.new file.now) };

    /// Closes the segment with this position, which was synced and is the oldest one that is not closed. Nothing may be
    /// written to its file afterwards.
    fn close(&mut self, position: u64, file: &F) -> Result<(), DeviceFault>
        requires synced { is_synced self.old file.now }
        requires first { IsFirstCreated position (created self.old) }
        ensures created { OnOk result (ClosesFirst (created self.old) (created self.new)) }
        ensures closed { OnOk result (AddsSegment (segments self.old) position (F.contents file.now) (segments self.new)) }
        ensures kept { OnErr result (segments self.new ≡ segments self.old) };

    /// Deletes the oldest closed segment, which has this position. If that fails, nothing changes.
    fn delete_oldest(&mut self, position: u64) -> Result<(), DeviceFault>
        requires oldest { IsOldest position (segments self.old) }
        ensures created { created self.new ≡ created self.old }
        ensures deleted { OnOk result (RemovesOldest (segments self.old) (segments self.new)) }
        ensures kept { OnErr result (segments self.new ≡ segments self.old) };

    /// Returns a listing of the closed segments, the oldest first.
    fn list(&mut self, alloc: Global) -> Result<Vec<StoredSegment>, DeviceFault>
        ensures segments { segments self.new ≡ segments self.old }
        ensures created { created self.new ≡ created self.old }
        ensures listed { IfOk result (λ list. IfSome (segments self.old) (λ closed. list.items ≡ map stored closed)) };

    /// Returns the bytes of the newest closed segment, which has this position.
    fn read_newest(&mut self, alloc: Global, position: u64) -> Result<Vec<u8>, DeviceFault>
        ensures segments { segments self.new ≡ segments self.old }
        ensures created { created self.new ≡ created self.old }
        ensures bytes { IfOk result (λ bytes. IfSome (segments self.old) (IsNewest bytes.items)) };

    /// Reopens the newest closed segment, which has this position, for appending, truncates it to `length` bytes, and
    /// returns its file.
    fn reopen(&mut self, position: u64, length: u64) -> Result<F, DeviceFault>
        ensures created { OnOk result (Creates (created self.old) position (created self.new)) }
        ensures reopened { IfOk result (λ file. Reopens (segments self.old) length (F.contents file) (segments self.new)) };
}
