//! The bytes of records, which identify their worker and serial.

/// Writes the bytes of a worker's record with this serial.
pub(crate) fn write(bytes: &mut [u8], worker: u32, serial: u64) {
    let first = first_byte(worker, serial);
    for i in 0..bytes.len() {
        bytes[i] = byte_at(first, i);
    }
}

/// Returns whether these are the bytes of the worker's record with this serial.
pub(crate) fn are_right(bytes: &[u8], worker: u32, serial: u64) -> bool {
    let first = first_byte(worker, serial);
    for i in 0..bytes.len() {
        if bytes[i] != byte_at(first, i) {
            return false;
        }
    }
    true
}

fn first_byte(worker: u32, serial: u64) -> u8 {
    let mixed = u64::from(worker)
        .wrapping_mul(193)
        .wrapping_add(serial.wrapping_mul(47));
    (mixed % 251) as u8
}

fn byte_at(first: u8, i: usize) -> u8 {
    first.wrapping_add((i % 256) as u8)
}
