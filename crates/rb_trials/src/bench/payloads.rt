//! The input for the measurement of `rbhost feed`.

use crate::fault::TrialFault;
use std::alloc::Global;
use std::io;
use std::io::{BufWriter, Write};

/// The length of each payload in bytes.
const LENGTH: u8 = 64;

// The number of payloads: 64,000,000 bytes, not counting their lengths.
const COUNT: u32 = 1_000_000;

/// Writes the payloads, each after its length in four bytes.
pub(crate) fn write<W: Write>(alloc: Global, out: &mut W) -> Result<(), TrialFault> {
    let mut out = BufWriter::new(alloc, out)?;
    write_all(&mut out)?;
    Ok(())
}

fn write_all<W: Write>(out: &mut W) -> io::Result<()> {
    let mut payload = [42; 4 + LENGTH as usize];
    payload[..4].copy_from_slice(&[LENGTH, 0, 0, 0]);
    for _ in 0..COUNT {
        out.write_all(&payload)?;
    }
    out.flush()
}
