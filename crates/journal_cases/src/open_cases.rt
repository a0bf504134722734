//! What is opened, what is refused, and garbage behind the end mark.
use crate::made::{
    append_deleted, at, bad_at, check_delete, filled, opened, refused, reopened, sequence_of,
};
use refusal::Refusal;
use std::alloc::AllocGlobal;
use std::process::Abort;
use std::test::*;

#[test]
fn storage_that_is_not_supported(rt: HostRuntime) -> Result<(), Fail> {
    for (len, places, room, taken) in [
        (150usize, 1usize, 1usize, true),
        (149, 1, 1, false),
        (150, 0, 1, false),
        (150, 1, 0, false),
        (4875, 64, 64, true),
        (4874, 64, 64, false),
        (4875, 64, 63, false),
        (5000, 65, 65, false),
    ] {
        let memory = filled(&rt, &[], 0, len)?;
        match refused(&rt, memory.as_slice(), places, room)? {
            None => assert!(rt; taken),
            Some(refusal) => {
                assert!(rt; !taken && matches!(refusal, Refusal::UnsupportedStorage));
            }
        }
    }
    Ok(())
}

#[test]
fn storage_is_checked_before_the_bytes(rt: HostRuntime) -> Result<(), Fail> {
    let damaged = filled(&rt, &[], 0xFF, 149)?;
    let refusal = refused(&rt, damaged.as_slice(), 1, 1)?;
    assert!(rt; matches!(refusal, Some(Refusal::UnsupportedStorage)));
    Ok(())
}

// Two records, and where the second is refused.
fn second(
    rt: &(impl Abort + AllocGlobal),
    name: u8,
    sequence: u32,
    writer: u8,
    places: usize,
) -> Result<Option<usize>, Fail> {
    let mut bytes = vec![in rt.alloc()]?;
    append_deleted(rt, &mut bytes, b'k', 2, 2)?;
    append_deleted(rt, &mut bytes, name, sequence, writer)?;
    let memory = filled(rt, bytes.as_slice(), 0, 225)?;
    bad_at(rt, memory.as_slice(), places)
}

#[test]
fn stamps_of_one_key_rise(rt: HostRuntime) -> Result<(), Fail> {
    assert_eq!(rt; second(&rt, b'k', 2, 3, 1)?, None);
    assert_eq!(rt; second(&rt, b'k', 3, 1, 1)?, None);
    assert_eq!(rt; second(&rt, b'k', 2, 2, 1)?, Some(8));
    assert_eq!(rt; second(&rt, b'k', 2, 1, 1)?, Some(8));
    assert_eq!(rt; second(&rt, b'k', 1, 16, 1)?, Some(8));
    assert_eq!(rt; second(&rt, b'l', 1, 1, 2)?, None);
    Ok(())
}

#[test]
fn no_more_keys_than_places(rt: HostRuntime) -> Result<(), Fail> {
    assert_eq!(rt; second(&rt, b'l', 3, 3, 2)?, None);
    assert_eq!(rt; second(&rt, b'l', 3, 3, 1)?, Some(8));
    Ok(())
}

#[test]
fn the_last_record_counts(rt: HostRuntime) -> Result<(), Fail> {
    let mut bytes = vec![in rt.alloc()]?;
    for sequence in 1..9u32 {
        append_deleted(&rt, &mut bytes, b'k', sequence, 1)?;
    }
    let memory = filled(&rt, bytes.as_slice(), 0, 150)?;
    let mut journal = opened(&rt, memory, 1)?;
    assert_eq!(rt; sequence_of(&mut journal, &at(0, b"k")?), 8);
    assert_eq!(rt; sequence_of(&mut journal, &at(1, b"k")?), 0);
    Ok(())
}

#[test]
fn garbage_behind_the_end_mark(rt: HostRuntime) -> Result<(), Fail> {
    let memory = filled(&rt, &[0], 0xFF, 225)?;
    let mut journal = opened(&rt, memory, 2)?;
    for sequence in 1..40u32 {
        check_delete(&rt, &mut journal, &at(0, b"k")?, sequence, 1, Ok(()))?;
        journal = reopened(journal, 2)?;
        assert_eq!(rt; sequence_of(&mut journal, &at(0, b"k")?), sequence);
    }
    Ok(())
}

#[test]
fn an_old_record_behind_the_end_mark(rt: HostRuntime) -> Result<(), Fail> {
    // The record of another key lies just where the first commit ends.
    let mut bytes = filled(&rt, &[], 0, 8)?;
    append_deleted(&rt, &mut bytes, b'o', 7, 7)?;
    let memory = filled(&rt, bytes.as_slice(), 0, 225)?;
    let mut journal = opened(&rt, memory, 2)?;
    check_delete(&rt, &mut journal, &at(0, b"k")?, 1, 1, Ok(()))?;
    journal = reopened(journal, 2)?;
    assert_eq!(rt; sequence_of(&mut journal, &at(0, b"k")?), 1);
    assert_eq!(rt; sequence_of(&mut journal, &at(0, b"o")?), 0);
    Ok(())
}
