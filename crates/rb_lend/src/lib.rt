//! Byte buffers that lend their bytes, for rings and for those who write into their records. A `Sheet` is the byte
//! buffer of one record, `Lent` the trait of values that lend their bytes for reading and writing, and `Block` an array
//! of bytes.
//!
//! Proved: a loan leaves what was written in its range and changes nothing else. `a_range_is_written_alone` states that
//! for ranges alone. Only `Sheet::new` and `Sheet::renew` allocate, and only for more than 16 bytes.
//!
//! ```text
//! let mut sheet = Sheet::new(rt.alloc(), 4)?;
//! sheet.range_mut(1, 2).fill(9);
//! assert_eq!(rt; sheet.bytes(), [0, 9, 9, 0].as_slice());
//! ```
#![tactic(auto)]

mod block;
mod lent;
mod range_laws;
mod sheet;
mod short;

pub use block::Block;
pub use lent::Lent;
pub use range_laws::a_range_is_written_alone;
pub use sheet::Sheet;
