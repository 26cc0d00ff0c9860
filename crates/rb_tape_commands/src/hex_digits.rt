//! Bytes as hex digits, by a loop over plain arithmetic that compilers can vectorize.

ghost use Rattle.std.specs.Prelude.{◌≡◌, ◌<◌, ◌*◌, length};
ghost use Rattle.hex.specs.Hex.{encode_lower};
ghost use Rattle.rb_tape_commands.specs.inner.HexDigits.{digit_code};

// Kept in a function of its own: the compiler vectorizes the loop here, but not inside a long function.
#[inline(never)]
/// Writes each byte as two lower-case digits, the high four bits first.
pub(crate) fn write_digits(bytes: &[u8], out: &mut [u8])
    requires room { length out.old ≡ 2 * length bytes.now }
    ensures digits { out.new ≡ encode_lower bytes.now }
{
    'bytes: for i in 0..bytes.len() {
        let byte = bytes[i];
        out[2 * i] = digit(byte >> 4);
        out[2 * i + 1] = digit(byte & 0x0f);
    }
}

#[inline(always)]
// Returns the digit of a number below sixteen.
fn digit(number: u8) -> u8
    requires below { number < 16 }
    ensures value { result ≡ digit_code number }
{
    // The offset from digits to letters is added if it is due, which takes fewer instructions than selecting one of two
    // sums.
    let behind = if number < 10 { 0 } else { b'a' - b'0' - 10 };
    b'0' + number + behind
}
