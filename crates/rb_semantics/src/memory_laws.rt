//! The laws of a program's memory.

ghost use Rattle.rb_semantics.specs.MemoryLaws.{BytesWrittenAreRead, PointersAreNotRead, PointersStoredAreFound, PointersStoredLeaveZeros, WritesTakePointersOut};

/// States that a read returns the bytes that were written, even if they overwrote pointers.
pub fn bytes_written_are_read()
    ensures { BytesWrittenAreRead }
{}

/// States that a write to the stack removes the pointer from each place that it overlaps, and keeps the pointers of all
/// other places.
pub fn writes_take_pointers_out()
    ensures { WritesTakePointersOut }
{}

/// States that a load finds the pointer that was stored at a place of the stack.
pub fn pointers_stored_are_found()
    ensures { PointersStoredAreFound }
{}

/// States that a place has zero bytes after a pointer was stored there.
pub fn pointers_stored_leave_zeros()
    ensures { PointersStoredLeaveZeros }
{}

/// States that no read returns bytes of a place that holds a pointer.
pub fn pointers_are_not_read()
    ensures { PointersAreNotRead }
{}
