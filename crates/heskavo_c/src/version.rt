//! The version of the library.

ghost use Rattle.std.specs.Prelude.{◌≡◌};

use rb_version::VERSION_NUMBER;

#[unsafe(no_mangle)]
/// Returns the version of this library, which is that of `rbhost`: a byte for each of its three numbers, the first one
/// the highest.
pub extern "C" fn heskavo_version() -> u32
    ensures version { result ≡ VERSION_NUMBER }
{
    VERSION_NUMBER
}
