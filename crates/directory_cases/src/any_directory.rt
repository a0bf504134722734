//! What every empty directory of two places does.
use directory::interface::{CommitError, Directory};
use directory_journal::journal::Journal;
use directory_journal::memory::JournalMemory;
use directory_table::table::Table;
use entry::entry::Entry;
use naming::address::Address;
use naming::key::Key;
use naming::stamp::Stamp;
use std::process::Abort;
use std::test::Fail;

// (Also in journal_cases: a crate of tests alone lends nothing to another.)
fn at(container: u8, name: u8) -> Result<Address, Fail> {
    let key = Key::new(&[name]).ok_or_else(|| Fail::new("no key"))?;
    Ok(Address { container, key })
}

fn deleted(sequence: u32, writer: u8) -> Result<Entry, Fail> {
    let stamp = Stamp::new(sequence, writer).ok_or_else(|| Fail::new("no such writer"))?;
    // No `ok_or_else`: of one that takes an Option of an entry the prover makes no proof.
    match Entry::deleted(stamp) {
        Some(entry) => Ok(entry),
        None => Err(Fail::new("no such stamp")),
    }
}

// Older is said before full.
fn commits<D: Directory>(rt: &impl Abort, directory: &mut D) -> Result<(), Fail> {
    for (container, name, sequence, writer, expected) in [
        (7u8, b'b', 2u32, 2u8, Ok(())),
        (7, b'b', 2, 2, Err(CommitError::Older)),
        (7, b'b', 1, 16, Err(CommitError::Older)),
        (7, b'b', 2, 3, Ok(())),
        (8, b'b', 1, 1, Ok(())),
        (7, b'c', 1, 1, Err(CommitError::Full)),
        (8, b'b', 1, 1, Err(CommitError::Older)),
        (8, b'b', 5, 1, Ok(())),
    ] {
        let entry = deleted(sequence, writer)?;
        assert_eq!(rt; directory.commit(&at(container, name)?, &entry), expected);
    }
    Ok(())
}

fn sequence_of<D: Directory>(
    directory: &mut D,
    container: u8,
    name: u8,
) -> Result<Option<u32>, Fail> {
    let found = directory.look(&at(container, name)?);
    Ok(found.as_ref().map(|entry| entry.stamp().sequence()))
}

fn looks<D: Directory>(rt: &impl Abort, directory: &mut D) -> Result<(), Fail> {
    for (container, name, sequence) in [
        (7u8, b'b', Some(2u32)),
        (8, b'b', Some(5)),
        (7, b'c', None),
        (0, b'b', None),
    ] {
        assert_eq!(rt; sequence_of(directory, container, name)?, sequence);
    }
    Ok(())
}

// A container's keys only.
fn walks<D: Directory>(rt: &impl Abort, directory: &mut D) {
    for (container, above, expected) in [
        (7u8, b'a', Some(1usize)),
        (7, b'b', None),
        (6, b'a', None),
        (8, b'a', Some(1)),
        (9, b'a', None),
    ] {
        let mut place = [0xEE; 32];
        assert_eq!(rt; directory.next(container, &[above], &mut place), expected);
    }
}

fn check_all<D: Directory>(rt: &impl Abort, directory: &mut D) -> Result<(), Fail> {
    commits(rt, directory)?;
    looks(rt, directory)?;
    walks(rt, directory);
    looks(rt, directory)
}

#[test]
fn a_table(rt: HostRuntime) -> Result<(), Fail> {
    let memory = Vec::with_capacity(rt.alloc(), 2)?;
    let mut table = Table::new(memory, 2).map_err(|_| Fail::new("not made"))?;
    check_all(&rt, &mut table)
}

#[test]
fn a_journal(rt: HostRuntime) -> Result<(), Fail> {
    let memory = JournalMemory {
        bytes: vec![in rt.alloc(); 0u8; 225]?,
        index: Vec::with_capacity(rt.alloc(), 2)?,
    };
    let mut journal = Journal::open(memory, 2).map_err(|_| Fail::new("not opened"))?;
    check_all(&rt, &mut journal)
}
