//! The order of byte strings.

use byte_strings::compare::{is_at_most, is_below, is_same};

// Each comes before all that follow.
const ASCENDING: [&[u8]; 7] = [b"", b"\x00", b"\x00\x00", b"a", b"aa", b"ab", b"\xff"];

#[test]
fn the_first_difference_decides(rt: HostRuntime) {
    for (i, a) in ASCENDING.iter().enumerate() {
        for (j, b) in ASCENDING.iter().enumerate() {
            assert_eq!(rt; is_at_most(a, b), i <= j);
            assert_eq!(rt; is_below(a, b), i < j);
            assert_eq!(rt; is_same(a, b), i == j);
        }
    }
}
