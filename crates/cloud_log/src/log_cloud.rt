//! The log cloud: bytes that hold its log, and an index of the held names.

ghost use Rattle.std.specs.Prelude.{◌+◌, ◌*◌, ◌≤◌, vec_len, vec_capacity};
ghost use Rattle.log_record.specs.Records.{longest_record};
ghost use Rattle.cloud_log.specs.Sound.{Sound, Sound_prop};

use crate::entry::Entry;

mod append;
pub mod calls;
mod making;
mod read;

/// A cloud of 1 to 32 places. The records of its log stand in the first `used` bytes, and the index says where the
/// last record of each held name lies, in the order of the log.
#[derive(Drop)]
pub struct LogCloud {
    // All bytes that were handed in stay in this vector, whose length is the room for the log: so where the log ends
    // is kept beside it.
    bytes: Vec<u8>,
    used: usize,
    index: Vec<Entry>,
    places: usize,
    ghost few: { (1 ≤ places) × (places ≤ 32) },
    // One record more than there are places fits.
    ghost room: { (places + 1) * longest_record ≤ vec_len bytes },
    ghost reserved: { (vec_len index ≤ places) × (places ≤ vec_capacity index) },
    // The log is whole records, and the index gives what they read back to.
    ghost sound: { Sound bytes.items used index.items } by { Sound_prop bytes.items used index.items },
}
