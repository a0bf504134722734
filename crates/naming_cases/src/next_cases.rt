//! The next name and the next key.

use crate::made::{address, name};
use naming::address::Address;
use naming_next::next::{next_key, next_name};
use std::test::Fail;

#[test]
fn the_next_name_is_the_smallest_above(rt: HostRuntime) -> Result<(), Fail> {
    assert_eq!(rt; next_name(&[], b""), None);
    let names = [
        name(b"m")?,
        name(b"")?,
        name(b"c")?,
        name(b"ca")?,
        name(b"m")?,
    ];
    assert_eq!(rt; next_name(&names, b""), Some(2));
    assert_eq!(rt; next_name(&names, b"c"), Some(3));
    assert_eq!(rt; next_name(&names, b"ca"), Some(0));
    assert_eq!(rt; next_name(&names, b"b\xFF"), Some(2));
    assert_eq!(rt; next_name(&names, b"m"), None);
    assert_eq!(rt; next_name(&names, &[b'l'; 50]), Some(0));
    Ok(())
}

#[test]
fn the_next_key_is_one_of_the_container(rt: HostRuntime) -> Result<(), Fail> {
    assert_eq!(rt; next_key::<Address>(&[], 0, b""), None);
    let keys = [
        address(0, b"b")?,
        address(255, b"z")?,
        address(0, b"a")?,
        address(1, b"a")?,
        address(255, b"y")?,
    ];
    assert_eq!(rt; next_key(&keys, 0, b""), Some(2));
    assert_eq!(rt; next_key(&keys, 0, b"a"), Some(0));
    assert_eq!(rt; next_key(&keys, 0, b"b"), None);
    assert_eq!(rt; next_key(&keys, 1, b""), Some(3));
    assert_eq!(rt; next_key(&keys, 1, b"a"), None);
    assert_eq!(rt; next_key(&keys, 2, b""), None);
    assert_eq!(rt; next_key(&keys, 255, b""), Some(4));
    assert_eq!(rt; next_key(&keys, 255, b"y"), Some(1));
    assert_eq!(rt; next_key(&keys, 255, &[b'y'; 50]), Some(1));
    assert_eq!(rt; next_key(&keys, 255, b"z"), None);
    Ok(())
}
