//! The version, as text and as a number.

use rb_version::{VERSION, VERSION_NUMBER};
use std::test::Fail;

#[test]
fn both_are_one_version(rt: HostRuntime) -> Result<(), Fail> {
    let mut number: u32 = 0;
    for part in VERSION.split('.') {
        let part: u8 = part.parse()?;
        number = number.wrapping_mul(256).wrapping_add(u32::from(part));
    }
    assert_eq!(rt; number, VERSION_NUMBER);
    Ok(())
}
