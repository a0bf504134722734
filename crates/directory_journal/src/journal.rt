//! The journal.

ghost use Rattle.std.specs.Prelude.{◌≡◌, ◌+◌, ◌*◌, ◌≤◌, true, vec_len};
ghost use Rattle.directory_table.specs.Making.{table_meaning};
ghost use Rattle.journal_record.specs.Layout.{longest_record};
ghost use Rattle.directory_journal.specs.Capacity.{capacity};
ghost use Rattle.directory_journal.specs.Replay.{replay};
ghost use Rattle.directory_journal.specs.Same.{says};

use directory_table::table::Table;

pub mod calls;
mod opening;

/// A journal: records in its first `used` bytes, and then a 0 byte or the end. The index has the entry of each key's
/// last record, so that no look reads the bytes.
// The bytes are no Vec that grows: all of the memory that was handed in counts, and no call allocates.
// No `impl Model`: what is proved of journals reads off one what its bytes say.
#[derive(Drop)]
pub struct Journal {
    bytes: Vec<u8>,
    used: usize,
    index: Table,
    // A record for each place, and one more, always fit.
    ghost room: { (capacity (table_meaning index) + 1) * longest_record ≤ vec_len bytes },
    ghost within: { used ≤ vec_len bytes },
    ghost replays: { says (replay (capacity (table_meaning index)) bytes.items) (table_meaning index) used ≡ true },
}
