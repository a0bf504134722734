//! What bytes are a key.

use crate::made::key;
use naming::key::Key;
use std::test::Fail;

#[test]
fn a_key_has_1_to_32_bytes(rt: HostRuntime) -> Result<(), Fail> {
    let letters = [b'a'; 33];
    assert!(rt; Key::new(&letters[0..0]).is_none());
    assert_eq!(rt; key(&letters[0..1])?.len(), 1);
    assert_eq!(rt; key(&letters[0..32])?.len(), 32);
    assert_eq!(rt; key(&letters[0..32])?.as_bytes(), &letters[0..32]);
    assert!(rt; Key::new(&letters).is_none());
    Ok(())
}

#[test]
fn each_byte_is_printable(rt: HostRuntime) {
    let cases = [
        (0x00, false),
        (0x20, false),
        (0x21, true),
        (0x7C, true),
        (0x7E, true),
        (0x7F, false),
        (0x80, false),
        (0xFF, false),
    ];
    for (byte, valid) in cases {
        assert_eq!(rt; Key::new(&[byte, b'b', b'c']).is_some(), valid);
        assert_eq!(rt; Key::new(&[b'a', byte, b'c']).is_some(), valid);
        assert_eq!(rt; Key::new(&[b'a', b'b', byte]).is_some(), valid);
    }
}

#[test]
fn keys_are_the_same_by_their_bytes(rt: HostRuntime) -> Result<(), Fail> {
    let a = key(b"A")?;
    assert!(rt; a.is_same(&key(b"A")?));
    assert!(rt; !a.is_same(&key(b"B")?));
    assert!(rt; !a.is_same(&key(b"AA")?));
    assert!(rt; !key(b"AA")?.is_same(&a));
    Ok(())
}
