//! Journals that close up over and over.
use crate::made::{at, check_delete, filled, opened, reopened, saved, sequence_of};
use directory::interface::{CommitError, Directory};
use directory_journal::journal::Journal;
use naming::address::Address;
use std::process::Abort;
use std::test::*;

const LONG: [u8; 32] = [b'k'; 32];

// One of 64 keys of 32 bytes, in container 255.
fn long_key(i: u8) -> Result<Address, Fail> {
    let mut bytes = LONG;
    bytes[31] = b'!' + i % 64;
    at(255, &bytes)
}

// The longest record that there is.
fn commit_longest(
    rt: &impl Abort,
    journal: &mut Journal,
    i: u8,
    sequence: u32,
) -> Result<(), Fail> {
    let entry = saved(rt, sequence, 16, 127, 1024, 32)?;
    assert_eq!(rt; journal.commit(&long_key(i)?, &entry), Ok(()));
    Ok(())
}

fn check_sequences(
    rt: &impl Abort,
    journal: &mut Journal,
    keys: u8,
    sequence: u32,
) -> Result<(), Fail> {
    for i in 0..keys {
        assert_eq!(rt; sequence_of(journal, &long_key(i)?), sequence);
    }
    Ok(())
}

#[test]
fn one_place(rt: HostRuntime) -> Result<(), Fail> {
    let mut journal = opened(&rt, filled(&rt, &[], 0, 150)?, 1)?;
    for sequence in 1..200u32 {
        commit_longest(&rt, &mut journal, 0, sequence)?;
        check_sequences(&rt, &mut journal, 1, sequence)?;
        journal = reopened(journal, 1)?;
        check_sequences(&rt, &mut journal, 1, sequence)?;
    }
    check_delete(
        &rt,
        &mut journal,
        &long_key(1)?,
        1,
        1,
        Err(CommitError::Full),
    )?;
    Ok(())
}

#[test]
fn sixty_four_places(rt: HostRuntime) -> Result<(), Fail> {
    let mut journal = opened(&rt, filled(&rt, &[], 0, 4875)?, 64)?;
    for sequence in 1..5u32 {
        for i in 0..64u8 {
            commit_longest(&rt, &mut journal, i, sequence)?;
        }
        check_sequences(&rt, &mut journal, 64, sequence)?;
        let mut copy = opened(&rt, filled(&rt, journal.bytes(), 0, 4875)?, 64)?;
        check_sequences(&rt, &mut copy, 64, sequence)?;
    }
    // Deleted entries keep their places, and full is said only of what is not older.
    check_delete(&rt, &mut journal, &long_key(0)?, 9, 1, Ok(()))?;
    check_delete(
        &rt,
        &mut journal,
        &at(0, b"new")?,
        1,
        1,
        Err(CommitError::Full),
    )?;
    check_delete(
        &rt,
        &mut journal,
        &long_key(1)?,
        1,
        1,
        Err(CommitError::Older),
    )?;
    assert_eq!(rt; sequence_of(&mut journal, &long_key(1)?), 4);
    Ok(())
}

// The last byte of the container's next key of 32 bytes.
fn next_after(journal: &mut Journal, last: u8) -> Option<u8> {
    let mut above = LONG;
    above[31] = last;
    let mut place = LONG;
    let len = journal.next(255, &above, &mut place)?;
    if len == 32 { Some(place[31]) } else { None }
}

#[test]
fn the_keys_in_their_order(rt: HostRuntime) -> Result<(), Fail> {
    let mut journal = opened(&rt, filled(&rt, &[], 0, 4875)?, 64)?;
    for i in 0..64u8 {
        commit_longest(&rt, &mut journal, 63 - i, 1)?;
    }
    journal = reopened(journal, 64)?;
    for i in 0..64u8 {
        assert_eq!(rt; next_after(&mut journal, b' ' + i), Some(b'!' + i));
    }
    assert_eq!(rt; next_after(&mut journal, b' ' + 64), None);
    Ok(())
}
