//! Contexts that do not fit into the window.

/// A context that does not fit into the window; its bytes are discarded as they arrive.
#[derive(Clone, Copy)]
pub enum Long {
    /// A frame of `total` bytes, of which `missing` have not arrived yet.
    Frame { total: u32, missing: u32 },
    /// A line of which `total` bytes have arrived. The number saturates at `u32::MAX`.
    Line { total: u32 },
}
