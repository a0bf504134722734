//! Names, byte for byte.

use crate::made::{address, name, stamp};
use byte_strings::compare::is_below;
use naming::name::Name;
use std::test::Fail;

const KEY_32: &[u8; 32] = b"0123456789abcdefghijklmnopqrstuv";

#[test]
fn a_name_is_container_key_separator_and_stamp(rt: HostRuntime) -> Result<(), Fail> {
    let name = Name::new(&address(7, b"A")?, &stamp(1, 2)?);
    assert_eq!(rt;
        name.as_bytes(),
        b"\x07A\x7C\x00\x00\x00\x01\x02".as_slice()
    );
    let name = Name::new(&address(0, b"~!")?, &stamp(0x0102_0304, 0)?);
    assert_eq!(rt;
        name.as_bytes(),
        b"\x00~!\x7C\x01\x02\x03\x04\x00".as_slice()
    );
    let name = Name::new(&address(255, KEY_32)?, &stamp(4_294_967_295, 16)?);
    assert_eq!(rt;
        name.as_bytes(),
        b"\xFF0123456789abcdefghijklmnopqrstuv\x7C\xFF\xFF\xFF\xFF\x10".as_slice()
    );
    Ok(())
}

#[test]
fn a_name_has_8_to_39_bytes(rt: HostRuntime) -> Result<(), Fail> {
    assert_eq!(rt; Name::new(&address(0, b"A")?, &stamp(0, 0)?).len(), 8);
    assert_eq!(rt; Name::new(&address(0, KEY_32)?, &stamp(0, 0)?).len(), 39);
    Ok(())
}

#[test]
fn there_is_room_for_39_bytes(rt: HostRuntime) -> Result<(), Fail> {
    let bytes = [0xAB; 40];
    assert_eq!(rt; name(&bytes[0..0])?.len(), 0);
    assert_eq!(rt; name(&bytes[0..39])?.as_bytes(), &bytes[0..39]);
    assert!(rt; Name::from_bytes(&bytes).is_none());
    Ok(())
}

#[test]
fn a_name_is_of_one_container_and_key(rt: HostRuntime) -> Result<(), Fail> {
    let a = address(7, b"A")?;
    let name = Name::new(&a, &stamp(1, 2)?);
    assert!(rt; Name::is_of(name.as_bytes(), &a));
    assert!(rt; !Name::is_of(name.as_bytes(), &address(8, b"A")?));
    assert!(rt; !Name::is_of(name.as_bytes(), &address(7, b"B")?));
    let longer = address(7, b"A|B")?;
    let other = Name::new(&longer, &stamp(1, 2)?);
    assert!(rt; Name::is_of(other.as_bytes(), &longer));
    assert!(rt; !Name::is_of(other.as_bytes(), &a));
    assert!(rt; !Name::is_of(name.as_bytes(), &longer));
    Ok(())
}

#[test]
fn other_bytes_are_no_name(rt: HostRuntime) -> Result<(), Fail> {
    let a = address(7, b"A")?;
    assert!(rt; !Name::is_of(b"", &a));
    assert!(rt; !Name::is_of(b"\x07A\x7C", &a));
    assert!(rt; !Name::is_of(b"\x07A\x7C\x00\x00\x00\x01", &a));
    assert!(rt; !Name::is_of(b"\x07A\x7C\x00\x00\x00\x01\x02\x02", &a));
    assert!(rt; !Name::is_of(b"\x07A\x7B\x00\x00\x00\x01\x02", &a));
    assert!(rt; !Name::is_of(b"\x07A\x7C\x00\x00\x00\x01\x11", &a));
    assert!(rt; Name::is_of(b"\x07A\x7C\x00\x00\x00\x01\x10", &a));
    assert!(rt; Name::is_of(b"\x07A\x7C\x00\x00\x00\x00\x00", &a));
    assert!(rt; Name::is_of(b"\x07A\x7C\xFF\xFF\xFF\xFF\x10", &a));
    Ok(())
}

#[test]
fn names_are_in_the_order_of_their_stamps(rt: HostRuntime) -> Result<(), Fail> {
    let a = address(7, b"A")?;
    let ascending = [
        (0, 0),
        (0, 16),
        (1, 16),
        (2, 1),
        (255, 0),
        (256, 0),
        (65_536, 0),
        (4_294_967_295, 16),
    ];
    for (i, s) in ascending.iter().enumerate() {
        for (j, t) in ascending.iter().enumerate() {
            let (x, y) = (
                Name::new(&a, &stamp(s.0, s.1)?),
                Name::new(&a, &stamp(t.0, t.1)?),
            );
            assert_eq!(rt; is_below(x.as_bytes(), y.as_bytes()), i < j);
        }
    }
    Ok(())
}
