//! The version of the program and of the C library. CHANGELOG.md lists the changes of each version.
#![tactic(auto)]

ghost use Rattle.std.specs.Prelude.{◌≡◌};
ghost use Rattle.rb_version.specs.Version.{version_text};

/// The version, as `rbhost --version` prints it.
pub const VERSION: &str = "0.2.0";

/// The version, as `heskavo_version` returns it: one byte for each of its three numbers, the first number in the
/// highest byte.
pub const VERSION_NUMBER: u32 = 0x00_02_00;

// States that the two constants agree. The function does nothing; its contract is the law.
fn versions_agree()
    ensures { VERSION.now ≡ version_text VERSION_NUMBER }
{}
