//! Input and output for commands: reads and writes of whole pieces over any reader and any writer, a buffered reader
//! and writer, and the format of lines of output (`specs/Lines.antt`).
//!
//! The commands of the program use it. Proved: which bytes were read or written, for each result of a call, where an
//! interrupted call counts as failed; that a buffer has written or still holds each byte that it accepted; and that it
//! has written all of them if its `write_out` or `flush` returned Ok.
#![tactic(auto)]

mod ahead;
mod buffered;
mod device;
mod incoming;
mod kept_errors;
mod outgoing;

pub use ahead::ReadAhead;
pub use buffered::Buffered;
pub use device::{DeviceFault, read_full, write_out, write_whole};
pub use incoming::Incoming;
pub use kept_errors::{Front, NotedReader, NotedWriter};
pub use outgoing::Outgoing;
