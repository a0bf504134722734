//! Making a table of memory that is handed in, and handing that back.

ghost use Rattle.std.specs.Prelude.{◌≡◌};
ghost use Rattle.directory_table.specs.Making.{Made, table_memory};

use crate::keyed_entry::KeyedEntry;
use crate::table::Table;
use refusal::{Refusal, Rejected};

const MOST_PLACES: usize = 64;

impl Table {
    /// An empty table with this many places, all free. Refused where they are not 1 to 64 or the memory has not room
    /// for them. What the memory held is let go.
    pub fn new(
        mut memory: Vec<KeyedEntry>,
        places: usize,
    ) -> Result<Table, Rejected<Vec<KeyedEntry>>>
        ensures { Made memory places result }
    {
        if places == 0 || places > MOST_PLACES || places > memory.capacity() {
            return Err(Rejected {
                refusal: Refusal::UnsupportedStorage,
                given: memory,
            });
        }
        memory.clear();
        Ok(Table {
            entries: memory,
            places,
        })
    }

    /// Gives up the table for its memory.
    pub fn into_memory(self) -> Vec<KeyedEntry>
        ensures { result ≡ table_memory self }
    {
        self.entries
    }
}
