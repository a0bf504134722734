//! The calls at a table.

ghost use Rattle.directory_table.specs.Making.{table_meaning};
ghost use Rattle.std.proofs.Common.{arith};
ghost use Rattle.directory_table.specs.Limits.{within_limits};

use crate::answer::commit_answer;
use crate::keyed_entry::KeyedEntry;
use crate::lookup::index_of;
use crate::table::Table;
use directory::interface::{CommitError, Directory};
use entry::entry::Entry;
use naming::address::Address;
use naming_next::next::next_key;

impl Directory for Table {
    ghost meaning = { table_meaning };

    ghost limited = { λ s. within_limits s.entries.items s.places s.distinct (omega (arith, s.used, s.entries.ok.0)) s.few };

    fn look(&mut self, at: &Address) -> Option<Entry> {
        let i = index_of(&self.entries, at)?;
        Some(self.entries[i].entry)
    }

    fn commit(&mut self, at: &Address, entry: &Entry) -> Result<(), CommitError> {
        let free = self.places - self.entries.len();
        let keyed = KeyedEntry::new(*at, *entry);
        match index_of(&self.entries, at) {
            None => {
                commit_answer(None, free, entry)?;
                self.entries.push_reserved(keyed);
            }
            Some(i) => {
                commit_answer(Some(self.entries[i].entry), free, entry)?;
                self.entries[i] = keyed;
            }
        }
        Ok(())
    }

    fn next(&mut self, container: u8, above: &[u8], place: &mut [u8; 32]) -> Option<usize> {
        let i = next_key(&self.entries, container, above)?;
        let key = self.entries[i].at.key.as_bytes();
        place[..key.len()].copy_from_slice(key);
        Some(key.len())
    }
}
