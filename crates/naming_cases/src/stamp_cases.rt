//! Stamps and their order.

use crate::made::stamp;
use naming::stamp::Stamp;
use std::test::Fail;

// Each is below all that follow.
const ASCENDING: [(u32, u8); 9] = [
    (0, 0),
    (0, 1),
    (0, 16),
    (1, 0),
    (1, 16),
    (2, 1),
    (256, 0),
    (4_294_967_295, 0),
    (4_294_967_295, 16),
];

#[test]
fn there_are_writers_0_to_16(rt: HostRuntime) -> Result<(), Fail> {
    for sequence in [0, 1, 4_294_967_295] {
        for writer in [0, 1, 16] {
            let made = stamp(sequence, writer)?;
            assert_eq!(rt; made.sequence(), sequence);
            assert_eq!(rt; made.writer(), writer);
        }
        assert!(rt; Stamp::new(sequence, 17).is_none());
        assert!(rt; Stamp::new(sequence, 255).is_none());
    }
    Ok(())
}

#[test]
fn the_sequence_decides_and_then_the_writer(rt: HostRuntime) -> Result<(), Fail> {
    for (i, a) in ASCENDING.iter().enumerate() {
        for (j, b) in ASCENDING.iter().enumerate() {
            let (x, y) = (stamp(a.0, a.1)?, stamp(b.0, b.1)?);
            assert_eq!(rt; x.is_below(&y), i < j);
            assert_eq!(rt; x.is_same(&y), i == j);
        }
    }
    Ok(())
}

#[test]
fn the_next_stamp_is_one_further(rt: HostRuntime) -> Result<(), Fail> {
    let first = Stamp::none()
        .next(16)
        .ok_or_else(|| Fail::new("no first stamp"))?;
    assert!(rt; first.is_same(&stamp(1, 16)?));
    let last = stamp(4_294_967_294, 3)?
        .next(1)
        .ok_or_else(|| Fail::new("no last stamp"))?;
    assert!(rt; last.is_same(&stamp(4_294_967_295, 1)?));
    assert!(rt; last.next(0).is_none());
    assert!(rt; first.next(17).is_none());
    Ok(())
}
