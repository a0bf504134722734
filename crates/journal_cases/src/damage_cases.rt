//! Damaged records, and journals cut short.
use crate::made::{append_deleted, at, bad_at, deleted, filled, read_length, saved, written};
use entry::entry::Entry;
use journal_record::record::Record;
use std::alloc::AllocGlobal;
use std::process::Abort;
use std::test::*;

// Damaged bytes are no record, or are just those of another one.
fn check_other(rt: &(impl Abort + AllocGlobal), bytes: &[u8]) -> Result<(), Fail> {
    let Some((other, len)) = Record::read(bytes) else {
        return Ok(());
    };
    assert!(rt; len <= bytes.len());
    assert!(rt; written(rt, &other)?.as_slice() == &bytes[..len]);
    Ok(())
}

fn check_bits(rt: &(impl Abort + AllocGlobal), bytes: &[u8], at: usize) -> Result<(), Fail> {
    for bit in [1u8, 2, 4, 8, 16, 32, 64, 128] {
        let mut damaged = Vec::from_slice(rt.alloc(), bytes)?;
        if let Some(byte) = damaged.get_mut(at) {
            *byte ^= bit;
        }
        assert!(rt; damaged.as_slice() != bytes);
        check_other(rt, damaged.as_slice())?;
        if at == 0 && bit >= 32 {
            assert_eq!(rt; read_length(damaged.as_slice()), None);
        }
    }
    Ok(())
}

fn check_damage(rt: &(impl Abort + AllocGlobal), container: u8, entry: Entry) -> Result<(), Fail> {
    let bytes = written(rt, &Record::new(at(container, b"k1")?, entry))?;
    for at in 0..bytes.len() {
        check_bits(rt, bytes.as_slice(), at)?;
        assert_eq!(rt; read_length(&bytes.as_slice()[..at]), None);
    }
    assert_eq!(rt; read_length(bytes.as_slice()), Some(bytes.len()));
    Ok(())
}

fn check_each_shape(rt: &(impl Abort + AllocGlobal), container: u8) -> Result<(), Fail> {
    check_damage(rt, container, deleted(1, 1)?)?;
    for (size, width) in [(0usize, 20usize), (0, 32), (700, 20), (700, 32)] {
        check_damage(rt, container, saved(rt, 1, 1, 3, size, width)?)?;
    }
    Ok(())
}

#[test]
fn every_bit_of_each_shape(rt: HostRuntime) -> Result<(), Fail> {
    check_each_shape(&rt, 0)?;
    check_each_shape(&rt, 9)
}

// Records of 8 bytes each, of one key.
fn records(rt: &(impl Abort + AllocGlobal), count: u32) -> Result<Vec<u8>, Fail> {
    let mut bytes = vec![in rt.alloc()]?;
    for i in 0..count {
        append_deleted(rt, &mut bytes, b'k', i / 16 + 1, (i % 16) as u8 + 1)?;
    }
    Ok(bytes)
}

// Where the record that was cut begins; none where the cut lies between two.
fn cut_record(len: usize) -> Option<usize> {
    if len % 8 == 0 {
        None
    } else {
        Some(len - len % 8)
    }
}

#[test]
fn a_journal_cut_at_every_length(rt: HostRuntime) -> Result<(), Fail> {
    let all = records(&rt, 25)?;
    assert_eq!(rt; all.len(), 200);
    for len in 0..201usize {
        assert!(rt; len <= all.len());
        let front = &all.as_slice()[..len];
        // The memory goes on, and is empty there.
        let longer = filled(&rt, front, 0, 240)?;
        assert_eq!(rt; bad_at(&rt, longer.as_slice(), 1)?, cut_record(len));
        // The memory ends there.
        if len >= 150 {
            assert_eq!(rt; bad_at(&rt, front, 1)?, cut_record(len));
        }
    }
    Ok(())
}
