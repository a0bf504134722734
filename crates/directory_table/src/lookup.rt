//! The search through entries for a key.
ghost use Rattle.directory_table.specs.Entries.{IndexOf};

use crate::keyed_entry::KeyedEntry;
use naming::address::Address;

// The index of the entry of this key.
pub(crate) fn index_of(entries: &[KeyedEntry], at: &Address) -> Option<usize>
    ensures { IndexOf entries.now at.now.container at.now.key.bytes result }
{
    entries.iter().position(|item| item.is_of(at))
}
