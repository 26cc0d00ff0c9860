//! Reads the records of a Linux ring buffer (Linux Documentation/bpf/ringbuf.rst), for a consumer that maps the ring's
//! memory.
//!
//! The kernel and its programs may change that memory at any time, so nothing here borrows it: the caller loads a
//! record's eight header bytes as one number, and `read_header` decodes that number at the consumer position. It is the
//! tape's parser (`rb_tape`) without the payload: the same header, the same room rule, and the same page rule, but with
//! pages counted from the start of the ring's memory as the kernel does.
#![tactic(auto)]

mod header_window;
mod linux_header;

pub use header_window::{LinuxWindow, linux_window};
pub use linux_header::{LinuxFault, LinuxFront, is_linux_place, read_header};
