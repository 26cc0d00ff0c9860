//! Writes into a caller's buffer.

ghost use Rattle.std.specs.Prelude.{◌≡◌, ◌+◌, ◌≤◌, ◌<◌, ◌^◌, ◌++◌, IsTrue, drop, length, replicate, take};
ghost use Rattle.heskavo_c.specs.Writing.{WritesFront};

// Writes the bytes into the buffer from index `at`.
fn put_at(out: &mut [u8], at: usize, bytes: &[u8])
    requires fits { at + length bytes.now ≤ length out.old }
    ensures { out.new ≡ take at out.old ++ bytes.now ++ drop (at + length bytes.now) out.old }
{
    out[at..at + bytes.len()].copy_from_slice(bytes);
}

// Writes `count` zeros into the buffer from index `at`.
fn zero_at(out: &mut [u8], at: usize, count: usize)
    requires fits { at + count ≤ length out.old }
    ensures { out.new ≡ take at out.old ++ replicate count 0 ++ drop (at + count) out.old }
{
    out[at..at + count].fill(0);
}

/// Writes the bytes to the front of the buffer.
pub(crate) fn put_front(out: &mut [u8], bytes: &[u8])
    requires fits { length bytes.now ≤ length out.old }
    ensures { WritesFront bytes.now out.old out.new }
{
    put_at(out, 0, bytes);
}

/// Writes a header, the bytes of a payload and `zeros` zeros to the front of the buffer.
pub(crate) fn put_parts(out: &mut [u8], header: &[u8; 8], payload: &[u8], zeros: usize)
    requires fits { 8 + length payload.now + zeros ≤ length out.old }
    ensures { WritesFront (header.now ++ payload.now ++ replicate zeros 0) out.old out.new }
{
    put_at(out, 0, header);
    put_at(out, 8, payload);
    zero_at(out, 8 + payload.len(), zeros);
}
