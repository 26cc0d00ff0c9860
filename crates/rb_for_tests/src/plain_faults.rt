//! Errors of the plain ring.

use crate::plain_reservation::PlainReservation;
use rb_history::SetupFault;

/// Why a plain ring cannot be created. `Memory` is returned only if its numbers are valid.
#[derive(Clone, Copy, Debug, PartialEq, Eq)]
pub enum PlainOpenFault {
    /// Its numbers are not valid for a ring.
    Setup(SetupFault),
    /// The ring could not be allocated.
    Memory,
}

/// A reservation that matches no busy record of the ring by position, worker, serial and length. It is handed back
/// whole.
#[derive(Drop)]
pub struct Stray {
    /// The reservation that was handed back.
    pub reservation: PlainReservation,
}
