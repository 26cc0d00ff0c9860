//! The statuses that calls return.

/// The call succeeded.
pub const DONE: u32 = 0;

/// The program was refused. Only its verdict, or its explanation with the length, was written.
pub const REFUSED: u32 = 1;

/// A length, a size, a position or a number is out of bounds, a flag is unknown, or the handle of an engine is closed
/// (for `heskavo_engine_open`: is not closed). Nothing was written.
pub const ARGUMENT: u32 = 2;

/// Memory could not be allocated. This says nothing about the program, and nothing was written.
pub const MEMORY: u32 = 3;

/// The output does not fit. Only its length was written.
pub const ROOM: u32 = 4;

/// The bytes show neither a whole record nor a fault yet, or the next record is busy. Nothing was written.
pub const MORE: u32 = 5;

/// The bytes have a fault, whose number was written.
pub const FAULT: u32 = 6;

/// Never returned: a run always leaves whole tapes, and all of them are written. The number stays reserved.
pub const BROKEN: u32 = 7;

/// The ring has no record. Nothing was written.
pub const EMPTY: u32 = 8;

/// The ring or its chapter has no room for the record. The ring counts the refusal, unless its chapter has no room for
/// that either. Nothing was written.
pub const FULL: u32 = 9;
