//! Both kinds of cloud, made at both ends of their limits and one past, and put through the same cases.
use crate::steps::Tested;
use cloud_fixed::fixed::FixedCloud;
use cloud_fixed::place::Place;
use cloud_log::log_cloud::LogCloud;
use cloud_log::memory::LogMemory;
use refusal::Refusal;
use std::alloc::AllocGlobal;
use std::mem::size_of;
use std::process::Abort;
use std::test::*;

const RECORD: usize = 1066;

#[test]
fn a_place_is_1066_bytes(rt: HostRuntime) -> Result<(), Fail> {
    assert_eq!(rt; size_of::<Place>(), 1066);
    Ok(())
}

#[test]
fn fixed_clouds(rt: HostRuntime) -> Result<(), Fail> {
    for places in [1u8, 2, 32] {
        let memory = Vec::with_capacity(rt.alloc(), usize::from(places))?;
        let cloud = FixedCloud::new(memory, usize::from(places)).map_err(
            |rejected| rejected.refusal,
        )?;
        Tested { rt: &rt, cloud }.all_cases(places)?;
    }
    Ok(())
}

#[test]
fn fixed_clouds_refused(rt: HostRuntime) -> Result<(), Fail> {
    for (room, places) in [(40, 0), (40, 33), (0, 1), (31, 32)] {
        let memory: Vec<Place> = Vec::with_capacity(rt.alloc(), room)?;
        let Err(rejected) = FixedCloud::new(memory, places) else {
            return Err(Fail::new("not refused"));
        };
        assert_eq!(rt; rejected.refusal, Refusal::UnsupportedStorage);
        assert_eq!(rt; rejected.given.capacity(), room);
    }
    Ok(())
}

fn memory(rt: &impl AllocGlobal, size: usize, entries: usize) -> Result<LogMemory, Fail> {
    Ok(LogMemory {
        bytes: vec![in rt.alloc(); 0xEE; size]?,
        index: Vec::with_capacity(rt.alloc(), entries)?,
    })
}

fn log<R: Abort + AllocGlobal>(rt: &R, places: u8) -> Result<Tested<'_, R, LogCloud>, Fail> {
    let places = usize::from(places);
    let memory = memory(rt, (places + 1) * RECORD, places)?;
    let cloud = LogCloud::new(memory, places).map_err(|rejected| rejected.refusal)?;
    Ok(Tested { rt, cloud })
}

#[test]
fn log_clouds(rt: HostRuntime) -> Result<(), Fail> {
    for places in [1u8, 2, 32] {
        log(&rt, places)?.all_cases(places)?;
    }
    Ok(())
}

#[test]
fn log_clouds_refused(rt: HostRuntime) -> Result<(), Fail> {
    for (size, entries, places) in [
        (34 * RECORD, 34, 0),
        (34 * RECORD, 34, 33),
        (33 * RECORD - 1, 32, 32),
        (2 * RECORD - 1, 1, 1),
        (33 * RECORD, 31, 32),
    ] {
        let Err(rejected) = LogCloud::new(memory(&rt, size, entries)?, places) else {
            return Err(Fail::new("not refused"));
        };
        assert_eq!(rt; rejected.refusal, Refusal::UnsupportedStorage);
        assert_eq!(rt; rejected.given.bytes.len(), size);
        assert_eq!(rt; rejected.given.index.capacity(), entries);
    }
    Ok(())
}

// The bytes of a log: filled to the last of its 3,198 bytes, and closed up by the next put.
#[test]
fn log_bytes(rt: HostRuntime) -> Result<(), Fail> {
    let mut tested = log(&rt, 2)?;
    tested.put(b"a", 2, 8, Ok(()))?;
    tested.drop(b"a", Ok(()))?;
    assert_eq!(rt;
        tested.cloud.bytes(),
        [1, b'a', 0, 2, 8, 8, 1, b'a', 255, 255].as_slice()
    );
    tested.put(b"b", 1024, 1, Ok(()))?;
    tested.put(b"b", 1024, 2, Ok(()))?;
    tested.put(b"b", 1024, 3, Ok(()))?;
    tested.put(b"c", 100, 4, Ok(()))?;
    assert_eq!(rt; tested.cloud.bytes().len(), 10 + 3 * 1028 + 104);
    tested.put(b"c", 1, 5, Ok(()))?;
    assert_eq!(rt; tested.cloud.bytes().len(), 1028 + 104 + 5);
    tested.get(b"b", 1024, Ok((1024, 3)))?;
    tested.get(b"c", 1, Ok((1, 5)))
}
