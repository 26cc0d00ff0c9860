//! The values that registers hold.

/// A part of the memory that a program can access.
#[derive(Clone, Copy, Debug, PartialEq, Eq)]
pub enum MemoryRegion {
    /// The stack: 512 bytes, at offsets -512 to -1.
    Stack,
    /// The context, from offset 0 on.
    Context,
    /// The record that the CALL at this unit reserved, from offset 0 on.
    Record(u32),
}

/// The value of a register.
#[derive(Clone, Copy, Debug, PartialEq, Eq)]
pub enum Value {
    /// No value; the register can't be read.
    Nothing,
    /// A 64-bit number.
    Number(u64),
    /// A pointer to an offset of a part, in bytes. The offset may be outside the part.
    Pointer(MemoryRegion, i64),
    /// The ring with this number.
    Ring(u32),
}
