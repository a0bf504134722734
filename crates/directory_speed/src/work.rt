//! What is timed.
use directory::interface::Directory;
use entry::entry::Entry;
use entry::live::Live;
use naming::address::Address;
use naming::key::Key;
use naming::stamp::Stamp;

/// Keys are numbered from 0.
pub(super) const KEYS: u8 = 64;

const CONTAINER: u8 = 7;

// A key of ten bytes with its number in two digits.
fn at(number: u8) -> Option<Address> {
    let mut bytes = *b"drill/0000";
    bytes[8] += number / 10 % 10;
    bytes[9] += number % 10;
    Some(Address {
        container: CONTAINER,
        key: Key::new(&bytes)?,
    })
}

fn entry(sequence: u32) -> Option<Entry> {
    Entry::saved(Stamp::new(sequence, 1)?, Live::new(5, 1000, &[7; 32])?)
}

fn commit<D: Directory>(directory: &mut D, number: u8, sequence: u32) -> bool {
    let (Some(at), Some(entry)) = (at(number), entry(sequence)) else {
        return false;
    };
    directory.commit(&at, &entry).is_ok()
}

fn look<D: Directory>(directory: &mut D, number: u8) -> bool {
    let Some(at) = at(number) else {
        return false;
    };
    directory.look(&at).is_some()
}

/// Commits to every key, so many times over, with sequences from the first one on.
pub(super) fn commit_all<D: Directory>(directory: &mut D, first: u32, turns: u32) -> bool {
    let mut all = true;
    for turn in 0..turns {
        for number in 0..KEYS {
            all &= commit(directory, number, first.wrapping_add(turn));
        }
    }
    all
}

/// Looks every key up, so many times over.
pub(super) fn look_all<D: Directory>(directory: &mut D, turns: u32) -> bool {
    let mut all = true;
    for _ in 0..turns {
        for number in 0..KEYS {
            all &= look(directory, number);
        }
    }
    all
}
