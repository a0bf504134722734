//! Both ends of each limit of an entry, and one past them.
use entry::clouds::CloudSet;
use entry::entry::Entry;
use entry::live::Live;
use naming::stamp::Stamp;
use std::process::Abort;
use std::test::Fail;

const DIGEST: [u8; 33] = [7; 33];

fn is_live(rt: &impl Abort, clouds: u8, size: usize, width: usize) -> bool {
    assert!(rt; width <= 33);
    Live::new(clouds, size, &DIGEST[0..width]).is_some()
}

fn stamp(sequence: u32, writer: u8) -> Result<Stamp, Fail> {
    Stamp::new(sequence, writer).ok_or_else(|| Fail::new("no such writer"))
}

fn live(clouds: u8, size: usize) -> Result<Live, Fail> {
    Live::new(clouds, size, &DIGEST[0..20]).ok_or_else(|| Fail::new("no such value"))
}

#[test]
fn limits_of_a_value(rt: HostRuntime) {
    for (clouds, taken) in [
        (0u8, false),
        (1, true),
        (127, true),
        (128, false),
        (255, false),
    ] {
        assert_eq!(rt; is_live(&rt, clouds, 0, 20), taken);
    }
    for (size, taken) in [(0usize, true), (1, true), (1024, true), (1025, false)] {
        assert_eq!(rt; is_live(&rt, 1, size, 32), taken);
    }
    for (width, taken) in [
        (0usize, false),
        (19, false),
        (20, true),
        (21, false),
        (31, false),
        (32, true),
        (33, false),
    ] {
        assert_eq!(rt; is_live(&rt, 1, 0, width), taken);
    }
}

#[test]
fn a_value_is_read_back(rt: HostRuntime) -> Result<(), Fail> {
    let value = live(0b100_0101, 3)?;
    assert_eq!(rt; value.clouds(), 0b100_0101);
    assert_eq!(rt; value.size(), 3);
    assert!(rt; value.digest().as_bytes() == &DIGEST[0..20]);
    for (cloud, listed) in [
        (0usize, true),
        (1, false),
        (2, true),
        (5, false),
        (6, true),
        (7, false),
        (8, false),
        (64, false),
    ] {
        assert_eq!(rt; value.is_on(cloud), listed);
    }
    Ok(())
}

#[test]
fn neither_number_of_a_stamp_is_0(rt: HostRuntime) -> Result<(), Fail> {
    for (sequence, writer, taken) in [
        (0u32, 0u8, false),
        (0, 1, false),
        (1, 0, false),
        (1, 1, true),
        (4_294_967_295, 16, true),
    ] {
        assert_eq!(rt; Entry::deleted(stamp(sequence, writer)?).is_some(), taken);
        assert_eq!(rt;
            Entry::saved(stamp(sequence, writer)?, live(1, 0)?).is_some(),
            taken
        );
    }
    Ok(())
}

#[test]
fn an_entry_is_read_back(rt: HostRuntime) -> Result<(), Fail> {
    let saved = Entry::saved(stamp(2, 3)?, live(5, 1024)?).ok_or_else(|| Fail::new("not saved"))?;
    assert_eq!(rt; saved.stamp().sequence(), 2);
    assert_eq!(rt; saved.stamp().writer(), 3);
    let value = saved.live().ok_or_else(|| Fail::new("not live"))?;
    assert_eq!(rt; value.size(), 1024);
    let deleted = Entry::deleted(stamp(2, 3)?).ok_or_else(|| Fail::new("not deleted"))?;
    assert_eq!(rt; deleted.stamp().writer(), 3);
    assert!(rt; deleted.live().is_none());
    Ok(())
}

// With each cloud of a row and one past them: how many are in the set after it, and the bits.
#[test]
fn a_set_takes_seven_clouds(rt: HostRuntime) {
    let mut set = CloudSet::empty();
    for (cloud, count, bits) in [
        (0usize, 1, 0b000_0001),
        (2, 2, 0b000_0101),
        (2, 2, 0b000_0101),
        (6, 3, 0b100_0101),
        (7, 3, 0b100_0101),
        (64, 3, 0b100_0101),
    ] {
        set = set.with(cloud);
        assert_eq!(rt; set.count(), count);
        assert_eq!(rt; set.bits(), bits);
    }
    assert!(rt; set.has(6) && !set.has(1) && !set.has(7) && !set.has(64));
    assert_eq!(rt; CloudSet::from_bits(0b100_0101), Some(set));
    assert!(rt; CloudSet::from_bits(128).is_none());
}
