//! Abstract values.

/// The abstract value of a register (own profile). Offsets count bytes, and ids are units.
#[derive(Clone, Copy, Debug, PartialEq, Eq)]
pub enum Abs {
    /// Anything; the register must not be read.
    Unreadable,
    /// A number.
    Number,
    /// This number.
    Known(u64),
    /// A pointer to this offset of the context.
    Ctx(i64),
    /// A pointer to this offset of the stack, whose last byte has offset -1.
    Stack(i64),
    /// The ring with this number.
    Ring(u32),
    /// The result of the `reserve` call at this unit: null, or a pointer to the record's first byte.
    Perhaps(u32),
    /// A pointer to this offset of the record that the call at this unit returned.
    Record(u32, i64),
}
