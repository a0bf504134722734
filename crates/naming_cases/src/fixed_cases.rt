//! Byte strings that are kept in place.

use byte_strings::fixed::FixedBytes;

#[test]
fn there_is_room_for_as_many_bytes_as_it_says(rt: HostRuntime) {
    let bytes = b"abcd";
    for len in 0..=4 {
        let kept: Option<FixedBytes<3>> = FixedBytes::from_slice(&bytes[..len]);
        assert_eq!(rt; kept.is_some(), len <= 3);
        if let Some(kept) = kept {
            assert_eq!(rt; kept.len(), len);
            assert_eq!(rt; kept.as_slice(), &bytes[..len]);
        }
    }
}

#[test]
fn bytes_are_appended_after_those_that_are_there(rt: HostRuntime) {
    let mut kept: FixedBytes<5> = FixedBytes::new();
    assert!(rt; kept.append(b"ab").is_some());
    assert!(rt; kept.append(b"").is_some());
    assert!(rt; kept.append(b"cde").is_some());
    assert_eq!(rt; kept.as_slice(), b"abcde".as_slice());
}

#[test]
fn where_there_is_no_room_the_string_stays_as_it_was(rt: HostRuntime) {
    let mut kept: FixedBytes<5> = FixedBytes::new();
    assert!(rt; kept.append(b"abcdef").is_none());
    assert_eq!(rt; kept.len(), 0);
    assert!(rt; kept.append(b"ab").is_some());
    assert!(rt; kept.append(b"cdef").is_none());
    assert_eq!(rt; kept.as_slice(), b"ab".as_slice());
    assert!(rt; kept.append(b"cde").is_some());
    assert!(rt; kept.append(b"f").is_none());
    assert!(rt; kept.append(b"").is_some());
    assert_eq!(rt; kept.as_slice(), b"abcde".as_slice());
}
