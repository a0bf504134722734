//! Reading a table as a whole.

ghost use Rattle.std.specs.Prelude.{◌≡◌};
ghost use Rattle.directory_table.specs.Making.{table_entries};

use crate::keyed_entry::KeyedEntry;
use crate::table::Table;

impl Table {
    /// The entries, in the order in which their keys were new.
    pub fn entries(&self) -> &[KeyedEntry]
        ensures { result.now ≡ table_entries self.now }
    {
        self.entries.as_slice()
    }
}
