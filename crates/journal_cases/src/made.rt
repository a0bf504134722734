//! What the cases are made of.
use directory::interface::{CommitError, Directory};
use directory_journal::journal::Journal;
use directory_journal::memory::JournalMemory;
use entry::entry::Entry;
use entry::live::Live;
use journal_record::record::{LONGEST_RECORD, Record};
use naming::address::Address;
use naming::key::Key;
use naming::stamp::Stamp;
use refusal::Refusal;
use std::alloc::AllocGlobal;
use std::process::Abort;
use std::test::*;

const DIGEST: [u8; 32] = [0xA5; 32];

pub(crate) fn at(container: u8, bytes: &[u8]) -> Result<Address, Fail> {
    let key = Key::new(bytes).ok_or_else(|| Fail::new("no key"))?;
    Ok(Address { container, key })
}

fn stamp(sequence: u32, writer: u8) -> Result<Stamp, Fail> {
    Stamp::new(sequence, writer).ok_or_else(|| Fail::new("no such writer"))
}

// No `ok_or_else`: of one that takes an Option of an entry the prover makes no proof.
fn found(entry: Option<Entry>) -> Result<Entry, Fail> {
    match entry {
        Some(entry) => Ok(entry),
        None => Err(Fail::new("no such stamp")),
    }
}

pub(crate) fn deleted(sequence: u32, writer: u8) -> Result<Entry, Fail> {
    found(Entry::deleted(stamp(sequence, writer)?))
}

/// The entry of a value with a digest of this width.
pub(crate) fn saved(
    rt: &impl Abort,
    sequence: u32,
    writer: u8,
    clouds: u8,
    size: usize,
    width: usize,
) -> Result<Entry, Fail> {
    assert!(rt; width <= 32);
    // No `ok_or_else`, as for an entry.
    let Some(live) = Live::new(clouds, size, &DIGEST[..width]) else {
        return Err(Fail::new("no such value"));
    };
    found(Entry::saved(stamp(sequence, writer)?, live))
}

/// The bytes of a record.
pub(crate) fn written(rt: &impl AllocGlobal, record: &Record) -> Result<Vec<u8>, Fail> {
    let mut out = vec![in rt.alloc(); 0u8; LONGEST_RECORD]?;
    let len = record
        .write(out.as_mut_slice())
        .ok_or_else(|| Fail::new("longer than any record"))?;
    out.truncate(len);
    Ok(out)
}

/// How many bytes the record at the front takes up, if there is one.
pub(crate) fn read_length(bytes: &[u8]) -> Option<usize> {
    // No `?`: of one that takes an Option of a record the prover makes no proof.
    match Record::read(bytes) {
        Some((_, len)) => Some(len),
        None => None,
    }
}

/// The key of one byte, deleted with this stamp: 8 bytes.
pub(crate) fn append_deleted(
    rt: &(impl Abort + AllocGlobal),
    bytes: &mut Vec<u8>,
    name: u8,
    sequence: u32,
    writer: u8,
) -> Result<(), Fail> {
    let record = Record::new(at(0, &[name])?, deleted(sequence, writer)?);
    let more = written(rt, &record)?;
    assert_eq!(rt; more.len(), 8);
    bytes.extend_from_slice(more.as_slice())?;
    Ok(())
}

/// These bytes and then others of one kind, as many as are wanted in all.
pub(crate) fn filled(
    rt: &impl AllocGlobal,
    bytes: &[u8],
    fill: u8,
    len: usize,
) -> Result<Vec<u8>, Fail> {
    let mut memory = Vec::from_slice(rt.alloc(), bytes)?;
    memory.resize(len, fill)?;
    Ok(memory)
}

pub(crate) fn opened(
    rt: &impl AllocGlobal,
    bytes: Vec<u8>,
    places: usize,
) -> Result<Journal, Fail> {
    let index = Vec::with_capacity(rt.alloc(), places)?;
    Journal::open(JournalMemory { bytes, index }, places).map_err(|_| Fail::new("not opened"))
}

/// Why the bytes are refused, if they are.
pub(crate) fn refused(
    rt: &(impl Abort + AllocGlobal),
    bytes: &[u8],
    places: usize,
    room: usize,
) -> Result<Option<Refusal>, Fail> {
    let memory = JournalMemory {
        bytes: Vec::from_slice(rt.alloc(), bytes)?,
        index: Vec::with_capacity(rt.alloc(), room)?,
    };
    match Journal::open(memory, places) {
        Ok(_) => Ok(None),
        Err(rejected) => {
            assert!(rt; rejected.given.bytes.as_slice() == bytes);
            Ok(Some(rejected.refusal))
        }
    }
}

/// Where the first bad record begins, or none where the bytes are a journal.
pub(crate) fn bad_at(
    rt: &(impl Abort + AllocGlobal),
    bytes: &[u8],
    places: usize,
) -> Result<Option<usize>, Fail> {
    match refused(rt, bytes, places, places)? {
        None => Ok(None),
        Some(Refusal::CorruptJournal { offset }) => Ok(Some(offset)),
        Some(_) => Err(Fail::new("refused for another reason")),
    }
}

pub(crate) fn reopened(journal: Journal, places: usize) -> Result<Journal, Fail> {
    Journal::open(journal.close(), places).map_err(|_| Fail::new("not opened again"))
}

/// The sequence of the key's entry, or 0.
pub(crate) fn sequence_of(journal: &mut Journal, at: &Address) -> u32 {
    journal
        .look(at)
        .as_ref()
        .map_or(0, |entry| entry.stamp().sequence())
}

/// The key is deleted with this stamp: what that is answered.
pub(crate) fn check_delete(
    rt: &impl Abort,
    journal: &mut Journal,
    at: &Address,
    sequence: u32,
    writer: u8,
    expected: Result<(), CommitError>,
) -> Result<(), Fail> {
    let entry = deleted(sequence, writer)?;
    assert_eq!(rt; journal.commit(at, &entry), expected);
    Ok(())
}
