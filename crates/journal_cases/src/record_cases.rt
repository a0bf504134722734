//! Records of every shape and both ends of every field, and each field one past its limit.
use crate::made::{at, deleted, read_length, saved, written};
use entry::entry::Entry;
use entry::live::Live;
use journal_record::record::Record;
use naming::address::Address;
use std::alloc::AllocGlobal;
use std::process::Abort;
use std::test::*;

const LOW: [u8; 1] = [0x21];

const HIGH: [u8; 32] = [0x7E; 32];

fn check_same_value(rt: &impl Abort, left: Live, right: Live) -> Result<(), Fail> {
    assert_eq!(rt; left.clouds(), right.clouds());
    assert_eq!(rt; left.size(), right.size());
    assert!(rt; left.digest().as_bytes() == right.digest().as_bytes());
    Ok(())
}

fn check_same_entry(rt: &impl Abort, left: Entry, right: Entry) -> Result<(), Fail> {
    assert_eq!(rt; left.stamp().sequence(), right.stamp().sequence());
    assert_eq!(rt; left.stamp().writer(), right.stamp().writer());
    assert_eq!(rt; left.live().is_some(), right.live().is_some());
    let Some(value) = left.live() else {
        return Ok(());
    };
    // No `ok_or_else`: of one that takes an Option of such a value the prover makes no proof.
    let Some(other) = right.live() else {
        return Err(Fail::new("not live"));
    };
    check_same_value(rt, value, other)
}

// What is written reads back as itself, whatever follows.
fn check_reads_back(
    rt: &(impl Abort + AllocGlobal),
    record: &Record,
    expected: usize,
) -> Result<(), Fail> {
    let mut bytes = written(rt, record)?;
    assert_eq!(rt; bytes.len(), expected);
    assert_eq!(rt; record.len(), expected);
    bytes.extend_from_slice(&HIGH)?;
    let Some((again, len)) = Record::read(bytes.as_slice()) else {
        return Err(Fail::new("not read"));
    };
    assert_eq!(rt; len, expected);
    assert_eq!(rt; again.at().container, record.at().container);
    assert!(rt; again.at().key.is_same(&record.at().key));
    check_same_entry(rt, again.entry(), record.entry())
}

// A container of 0 and a size of 0 are left out.
fn check_values(
    rt: &(impl Abort + AllocGlobal),
    at: Address,
    sequence: u32,
    writer: u8,
) -> Result<(), Fail> {
    let front = 7 + at.key.len() + if at.container == 0 { 0 } else { 1 };
    check_reads_back(rt, &Record::new(at, deleted(sequence, writer)?), front)?;
    for clouds in [1u8, 127] {
        for (size, width, more) in [
            (0usize, 20usize, 21usize),
            (1, 20, 23),
            (1024, 20, 23),
            (0, 32, 33),
            (255, 32, 35),
            (256, 32, 35),
        ] {
            let entry = saved(rt, sequence, writer, clouds, size, width)?;
            check_reads_back(rt, &Record::new(at, entry), front + more)?;
        }
    }
    Ok(())
}

#[test]
fn every_shape_and_both_ends_of_every_field(rt: HostRuntime) -> Result<(), Fail> {
    for container in [0u8, 1, 255] {
        for (sequence, writer) in [(1u32, 1u8), (4_294_967_295, 16)] {
            check_values(&rt, at(container, &LOW)?, sequence, writer)?;
            check_values(&rt, at(container, &HIGH)?, sequence, writer)?;
        }
    }
    Ok(())
}

// Container 3, key AB, stamp (2, 5), clouds 0 to 2, 1,024 bytes, a digest of 20 bytes.
const LIVE: [u8; 33] = [
    0x8F, 2, 0x41, 0x42, 0, 0, 0, 2, 5, 3, 7, 4, 0, 0xA5, 0xA5, 0xA5, 0xA5, 0xA5, 0xA5, 0xA5, 0xA5,
    0xA5, 0xA5, 0xA5, 0xA5, 0xA5, 0xA5, 0xA5, 0xA5, 0xA5, 0xA5, 0xA5, 0xA5,
];

fn check_layout(
    rt: &(impl Abort + AllocGlobal),
    container: u8,
    entry: Entry,
    expected: &[u8],
) -> Result<(), Fail> {
    let record = Record::new(at(container, b"AB")?, entry);
    assert!(rt; written(rt, &record)?.as_slice() == expected);
    Ok(())
}

fn check_layouts(rt: &(impl Abort + AllocGlobal)) -> Result<(), Fail> {
    check_layout(rt, 3, saved(rt, 2, 5, 7, 1024, 20)?, &LIVE)?;
    let gone = [0x80, 2, 0x41, 0x42, 1, 2, 3, 4, 5];
    check_layout(rt, 0, deleted(0x0102_0304, 5)?, &gone)
}

#[test]
fn the_layout_of_a_record(rt: HostRuntime) -> Result<(), Fail> {
    check_layouts(&rt)
}

// The record with one of its bytes changed.
fn changed(rt: &impl Abort, place: usize, byte: u8) -> Result<[u8; 33], Fail> {
    let mut bytes = LIVE;
    assert!(rt; place < 33);
    bytes[place] = byte;
    Ok(bytes)
}

#[test]
fn one_past_each_limit(rt: HostRuntime) -> Result<(), Fail> {
    assert_eq!(rt; read_length(&LIVE), Some(33));
    for (place, byte) in [
        // The map: bit 7 clear, bit 6, bit 5, both digests, no digest, a value without its clouds, clouds alone.
        (0usize, 0x0Fu8),
        (0, 0xCF),
        (0, 0xAF),
        (0, 0x9F),
        (0, 0x87),
        (0, 0x8D),
        (0, 0x83),
        // The key: no bytes, more than there are, a space, a byte past the printable ones.
        (1, 0),
        (1, 33),
        (2, 0x20),
        (3, 0x7F),
        // The sequence 0, the writers 0 and 17.
        (7, 0),
        (8, 0),
        (8, 17),
        // The container 0 and the size 0 written out, no clouds, a cloud too many, 1,025 bytes.
        (9, 0),
        (10, 0),
        (10, 128),
        (11, 0),
        (12, 1),
    ] {
        assert_eq!(rt; read_length(&changed(&rt, place, byte)?), None);
    }
    Ok(())
}

#[test]
fn a_key_of_33_bytes(rt: HostRuntime) -> Result<(), Fail> {
    for (len, taken) in [(32u8, true), (33, false)] {
        let mut bytes = vec![in rt.alloc(); 0x80u8, len]?;
        bytes.resize(2 + len as usize, 0x61)?;
        bytes.extend_from_slice(&[0, 0, 0, 1, 1])?;
        assert_eq!(rt; read_length(bytes.as_slice()).is_some(), taken);
    }
    Ok(())
}
