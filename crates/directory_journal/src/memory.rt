//! The memory of a journal.

use directory_table::keyed_entry::KeyedEntry;

/// The bytes of a journal, and memory for an index of its keys, whose capacity is what counts.
#[derive(Drop)]
pub struct JournalMemory {
    pub bytes: Vec<u8>,
    pub index: Vec<KeyedEntry>,
}
