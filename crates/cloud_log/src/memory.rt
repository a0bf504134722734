//! The memory of a log cloud.

use crate::entry::Entry;

/// Bytes for the log, and room for an entry of the index for each place.
#[derive(Drop)]
pub struct LogMemory {
    pub bytes: Vec<u8>,
    pub index: Vec<Entry>,
}
